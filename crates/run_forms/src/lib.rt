//! The forms `check` and `plain` over a store, a sink and a gate, a call that knows these forms alone, and what all forms
//! read and write.
#![tactic(auto)]

mod checks;
mod files;
mod judge;
mod loads;
mod outputs;
mod plans;
mod runs;
mod serve;
mod sink_texts;
mod world;
mod written;

pub use checks::check;
pub use judge::read_network;
pub use plans::{plan_network, read_plan};
pub use program_texts::HELP;
pub use program_words::Words;
pub use run_endings::Ending;
pub use runs::{file_run, file_whole_run, plain, summary_of};
pub use serve::run_netsim;
pub use world::World;
pub use written::Written;
