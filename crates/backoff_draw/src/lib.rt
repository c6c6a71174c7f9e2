//! The numbers that stations draw for their backoff, fixed by the seed of a run.
#![tactic(auto)]

mod draws;

pub use draws::Draws;
