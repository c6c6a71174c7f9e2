//! What the log of a run tells of the frames of its plan, and what its table counts.
#![tactic(auto)]

pub mod laws;
