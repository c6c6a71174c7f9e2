//! The layout of demo, which is a family of networks, one for each number of repeaters.
#![tactic(auto)]

mod making;
mod rows;
mod sent_frames;

pub use making::demo;
