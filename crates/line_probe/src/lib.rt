//! What taps of a network hear: runs of symbols, the bursts in them, and their text.
#![tactic(auto)]

mod burst;
mod fault;
mod fields;
mod hearing;
mod judging;
mod read_back;
mod run;
mod run_lines;
mod splitting;
mod tap;

pub use burst::{Burst, Bursts};
pub use fault::RunsFault;
pub use hearing::{heard_at_taps, probe, tap_runs};
pub use judging::bursts;
pub use lists::OutOfMemory;
pub use read_back::read_runs;
pub use run::{Run, Runs, RunsList};
pub use run_lines::run_text;
pub use tap::{Tap, find_tap};
