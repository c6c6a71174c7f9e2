//! The picture of a run: a space-time diagram of what its log tells of some half bits, as SVG.
#![tactic(auto)]

mod axis;
mod bands;
mod drawing;
mod head;
mod kinds;
mod lanes;
pub mod laws;
mod legend;
mod marks;
mod pieces;
mod sending;
mod signs;
mod sizes;
mod strangers;
mod waves;
mod window;
mod word_rooms;

pub use drawing::picture;
pub use lists::OutOfMemory;
pub use sizes::LONGEST_WINDOW;
pub use strangers::find_stranger;
