//! A repeater as a part of a network: it makes its windows by itself, and takes no memory in them (profile).
#![tactic(auto)]

mod engine;
mod late;
mod leaps;
mod parcels;
mod part;
mod rows;

pub use part::RepeaterPart;
