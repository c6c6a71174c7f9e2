//! The top call: what the program does with its words, over a store, a sink and a gate.
#![tactic(auto)]

mod aim;
mod demos;
mod frames;
mod meter;
mod page;
mod picture;
mod probe;
mod resumes;
mod runs;
mod slack;
mod stops;
mod top_call;

pub use program_endings::{Ending, laws};
pub use program_texts::HELP;
pub use program_words::Words;
pub use run_forms::World;
pub use top_call::{netsim, run_words};
