//! What a person is told on standard error of the forms that read a log or a state, or name taps, and of all that the
//! others say.
#![tactic(auto)]

mod fronts;
mod lines;
mod logs;
mod order;
mod states;
mod taps;
mod told;

pub use told::hints;
