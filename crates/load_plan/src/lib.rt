//! What the stations of a layout have to send.
#![tactic(auto)]

pub mod laws;
mod loads;
mod make;
mod plan;

pub use make::{RecordsList, make_plan};
pub use plan::{Plan, Queues, SkipList, Skips};
