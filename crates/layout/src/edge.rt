//! The edges of a network, whose parts are its segments and after them its repeaters.

/// A port: an edge between its repeater and its segment, by the numbers of these parts from 0.
#[derive(Clone, Copy)]
pub struct Edge {
    pub from: usize,
    pub to: usize,
}
