//! Workers that run the parts of a plan beside each other, each in a thread of its own, and hand parcels to each other
//! through mailboxes; and parts that pass a gate at the beginning of each of their windows (profile).
#![tactic(auto)]

mod crew;
mod desk;
mod endpoint;
mod gated;
mod gather;
mod kit;
mod run;
mod threads;
mod worker;

pub use gated::Gated;
pub use run::run_planned;
