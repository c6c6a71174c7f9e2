//! Room for what the stations of a part log and capture in a window of half bits, taken before the window begins.
#![tactic(auto)]

mod frames;
pub mod laws;
mod receive;
mod room;
mod rows;

pub use receive::{keep_reception, log_event, receive_one, reserve_repeater, reserve_stations};
pub use room::RowRoom;
