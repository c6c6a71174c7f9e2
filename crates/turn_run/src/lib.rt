//! The run of a plan on one thread: its parts make each window in turn, and their parcels go from the one kind to the
//! other and back. Its rows and captures are those of the whole network. What parts are made of and hand out serves
//! other runs by windows too.
#![tactic(auto)]

mod captures;
mod first;
mod gathered;
mod kind;
mod outputs;
mod quiet;
mod repeaters;
mod run;
mod segments;

pub use gathered::gather_outputs;
pub use kind::PartKind;
pub use run::run_in_turn;
