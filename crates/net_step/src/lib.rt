//! The network of a plan, stepped half bit by half bit on one thread (profile).
#![tactic(auto)]

mod devices;
mod leaps;
mod passes;
mod places;
mod plain;
mod relay;
mod rows;
mod segment;
mod settling;
mod states;
mod stops;

pub use plain::{PlainNet, run_plain};
pub use stops::{resume_run, stop_run};
