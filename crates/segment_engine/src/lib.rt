//! A segment of a network as a part that goes on a window at a time, over a line of symbols for each of its taps. Its
//! stations stand behind, and each goes from one half bit in which something happens at it to the next. Half bits in
//! which nothing happens on the segment are passed over at once (profile).
#![tactic(auto)]

mod ahead;
mod apart;
mod due;
mod parcels;
mod part;
mod quiet;
mod running;
mod segment;
mod sendings;
mod start;
mod stations;
mod steady;
mod window;

pub use part::SegmentPart;
