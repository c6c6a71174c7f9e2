//! What is wrong with a load, and what of it a run didn't send, told by the load itself, whose heads are read again.
#![tactic(auto)]

mod captures;
mod heads;
mod loads;
mod records;
mod skips;

pub use loads::tell_load;
pub use skips::tell_skips;
