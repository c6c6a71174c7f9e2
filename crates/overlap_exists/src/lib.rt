//! That the theorem on detected collisions isn't empty: layouts within the slot time have plans in which attempts
//! overlap over an open path.
#![tactic(auto)]

pub mod laws;
