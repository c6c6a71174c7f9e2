//! The table of all frames that the stations of a plan have to send, by the log of its run: when each was sent, and
//! whom it reached.
#![tactic(auto)]

mod devices;
mod events;
mod history;
pub mod laws;
mod lines;
mod ports;
mod reach;
mod receptions;
mod routes;
mod table;
mod told;
mod unplanned;

pub use lists::OutOfMemory;
pub use table::frames;
pub use unplanned::find_unplanned;
