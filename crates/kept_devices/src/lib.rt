//! Devices that are kept one after another, for all who step a network: the rows of events, and receivers with what they
//! stand for (profile).
#![tactic(auto)]

mod rows;

pub use rows::push_row;
