//! What taps of a network emit, as stretches of one kind.
#![tactic(auto)]

mod emitting;
mod kind;
mod laws;
mod stretch;
mod taps;

pub use emitting::signals;
pub use kind::SignalKind;
pub use laws::{rest_is_idle, stretches_are_apart, stretches_are_determined};
pub use lists::OutOfMemory;
pub use stretch::{Stretch, Stretches, StretchesList};
