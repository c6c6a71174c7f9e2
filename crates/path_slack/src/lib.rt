//! How far each cable and each repeater's delay of a layout can grow before its worst round trip reaches the slot time.
#![tactic(auto)]

mod branches;
mod lengthen;
mod places;
mod slack;
mod worst;

pub use lengthen::{delay_fits, gap_fits, lengthen_delay, lengthen_gap};
pub use lists::OutOfMemory;
pub use slack::{DelayList, DelaySlack, GapList, GapSlack, Limit, Slacks, path_slack};
