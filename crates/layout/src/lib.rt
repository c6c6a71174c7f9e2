//! A network as it is laid out: segments, stations, repeaters and what they send; when such a layout is sound, and the
//! paths between its taps.
#![tactic(auto)]

mod edge;
pub mod laws;
mod limits;
mod lines;
mod runs;
mod taps;
mod ways;

pub use edge::Edge;
pub use limits::{
    GREATEST_SEED, LONGEST_LOAD, LONGEST_NAME, MOST_BITS, MOST_DEVICE_BITS, MOST_LOST_BITS,
    MOST_REPEATERS, MOST_SEGMENTS, MOST_SENDS, MOST_STATIONS,
};
pub use lines::{
    Layout, Octets, PortLine, PortLines, RepeaterLine, RepeaterLines, SegmentLine, SegmentLines,
    SendLine, SendLines, StationLine, StationLines,
};
pub use taps::{delays_of, places_on, taps_of};
pub use ways::{Attachment, Way};
