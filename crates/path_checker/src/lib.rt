//! Judges a layout by its round trips: the worst that two of its stations can have, against the slot time.
#![tactic(auto)]

mod far;
pub mod laws;
mod stops;
mod table;
mod verdict;

pub use far::{Far, MOST_TAPS, farther, farthest, lengthened};
pub use lists::OutOfMemory;
pub use stops::{Network, Stop, Stops, network_of};
pub use table::{Entry, ReachTable, open_table};
pub use verdict::{PathVerdict, check_paths};
