//! The names by which the parcels in a box are counted.
use std::collections::LinkedList;

/// The name of a parcel: its edge, window, way, which is true to its repeater, and whether it is spoiled. No code makes
/// one.
pub struct Name {
    pub edge: u32,
    pub window: u64,
    pub to_repeater: bool,
    pub spoiled: bool,
}

/// What was put and what was taken by a pass, in order, each by its name. No code makes one.
pub struct Lists {
    pub put: LinkedList<Name>,
    pub taken: LinkedList<Name>,
}
