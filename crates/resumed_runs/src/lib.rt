//! What a run that goes on from a state gives can be written.
#![tactic(auto)]

pub mod laws;
