//! What a person is told on standard error of a run that went wrong, and how it is mended, but for logs, states and taps.
#![tactic(auto)]

mod early;
mod failures;
mod loads;
mod outputs;
mod told;
mod words;

pub use early::early_warning;
pub use told::hints;
