//! Reads octets from left to right: words, decimal numbers and names.
#![tactic(auto)]

mod fields;

pub use fields::{after_word, field, half_bit, name, number};
