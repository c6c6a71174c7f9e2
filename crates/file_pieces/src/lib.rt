//! Reads a file of a store piece by piece, to its end or to one octet past a limit.
#![tactic(auto)]

mod pieces;

pub use pieces::{Taker, read_pieces};
