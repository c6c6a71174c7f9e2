//! The parts of a network, its segments and repeaters, that go on a window at a time and hand parcels to each other.
#![tactic(auto)]

mod edges;
pub mod laws;
mod pace;
mod parcel;
mod part;
mod timing;

pub use edges::{edges_of, opening, paced_opening};
pub use pace::Pace;
pub use parcel::{Parcel, ParcelList, Symbols};
pub use part::{Part, PartOutputs};
pub use timing::{lookahead, windows};
