//! How each form of words may end, and what each status of the program says: definitions and laws.
#![tactic(auto)]

pub mod laws;

pub use run_endings::Ending;
