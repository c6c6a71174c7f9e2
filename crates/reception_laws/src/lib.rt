//! What every receiver makes of the text that it hears whole, told once for all that hear the same one.
#![tactic(auto)]

mod late;
pub mod laws;
mod teller;
mod verdict;

pub use late::LateReceiver;
pub use teller::Teller;
pub use verdict::{ReceptionVerdict, hear, spoiled, tell};
