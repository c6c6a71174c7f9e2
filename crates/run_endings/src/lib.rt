//! How the forms that check or run a network may end, and what each status of theirs says: definitions and laws.
#![tactic(auto)]

mod endings;

pub use endings::Ending;
