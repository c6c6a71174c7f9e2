//! A repeater of 2 to 32 ports, half bit by half bit (clause 9, with our profile's transitions).
#![tactic(auto)]

mod calm;
mod counts;
mod laws;
mod limits;
mod line;
mod masks;
mod modes;
mod ports;
mod repeater;
mod steady;
mod texts;

pub use laws::{signals_are_repeated, steadiness_lasts};
pub use modes::{Mode, sends_to};
pub use repeater::{Repeater, RepeaterEvents, behind_first, has_first};
