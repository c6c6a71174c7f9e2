//! The run of a plan by workers, window by window. Its rows and captures are those of the whole network.
#![tactic(auto)]

mod parts;
mod run;

pub use run::run_by_windows;
