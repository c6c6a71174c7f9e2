//! When a network is quiet, the state that it then goes on from, and the laws of it.
#![tactic(auto)]

pub mod laws;
mod state;

pub use state::{GuardList, NetState, NumberList, SenderList};
