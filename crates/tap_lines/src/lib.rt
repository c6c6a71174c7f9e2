//! The lines of a segment's taps: what each tap emitted or what comes in for it, half bit by half bit, and what the
//! taps hear of it.
#![tactic(auto)]

mod classes;
mod line;
mod lines;
mod listed;
mod loud;
mod runs;
mod sources;

pub use classes::class_ahead;
pub use line::Line;
pub use lines::{are_idle_from, farthest};
pub use listed::hear_listed;
pub use loud::LoudTaps;
pub use sources::piece_of;
