//! What taps of a network hear as a value change dump, the text that wave viewers open.
#![tactic(auto)]

mod dump;
mod head;
pub mod laws;
mod values;
mod waiting;

pub use dump::waves_text;
pub use lists::OutOfMemory;
pub use values::MOST_TAPS;
