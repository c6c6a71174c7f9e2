//! What one worker owns: parts of one plan and the parcels at them. Its calls are the events of a board
//! (profile).
#![tactic(auto)]

mod holder;
mod lane;
pub mod laws;
mod share;
mod spots;

pub use holder::Holder;
pub use share::{PartList, Share};
