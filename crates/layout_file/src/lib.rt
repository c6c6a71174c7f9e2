//! Reads a layout file: a TOML document that says which stations and repeaters stand on which segments, and who sends
//! what.
#![tactic(auto)]

mod fault;
mod graph;
mod joint;
mod lines;
mod reader;
mod rows;
mod rules;
mod sites;
mod texts;
mod tree;

pub use fault::{Key, LayoutCode, LayoutFault, Place, Table};
pub use lists::{OutOfMemory, Text};
pub use reader::read_layout;
