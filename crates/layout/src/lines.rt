//! What a layout file says. Segments and stations are named by their numbers from 0, in the file's order.
use lists::{List, Text};

/// Octets, such as those of a frame.
pub type Octets = List<u8>;

/// A segment: one coaxial cable.
#[derive(Drop)]
pub struct SegmentLine {
    pub name: Text,
}

/// The segments, in the file's order.
pub type SegmentLines = List<SegmentLine>;

/// A station and its tap.
#[derive(Drop)]
pub struct StationLine {
    pub name: Text,
    /// The segment's number, from 0.
    pub segment: u32,
    /// The tap's place on the segment, in half bits of delay from the cable's end.
    pub at: u32,
    /// The name of the capture that the station sends.
    pub load: Option<Text>,
    /// How many bits the station's receiver loses at the start of each reception.
    pub lose: u32,
}

/// The stations, in the file's order.
pub type StationLines = List<StationLine>;

/// A port of a repeater and its tap.
#[derive(Clone, Copy)]
pub struct PortLine {
    /// The segment's number, from 0.
    pub segment: u32,
    /// The tap's place on the segment, in half bits of delay from the cable's end.
    pub at: u32,
}

/// The ports of one repeater, in the file's order.
pub type PortLines = List<PortLine>;

/// A repeater.
#[derive(Drop)]
pub struct RepeaterLine {
    pub name: Text,
    /// From a decision to its emission, in half bits.
    pub delay: u32,
    pub ports: PortLines,
}

/// The repeaters, in the file's order.
pub type RepeaterLines = List<RepeaterLine>;

/// A frame that a station is asked to send.
#[derive(Drop)]
pub struct SendLine {
    /// The station's number, from 0.
    pub station: u32,
    /// The half bit in which the frame becomes ready.
    pub at: u64,
    /// The frame without pad and check sequence.
    pub octets: Octets,
}

/// The sends, in the file's order.
pub type SendLines = List<SendLine>;

/// A whole layout.
#[derive(Drop)]
pub struct Layout {
    pub format: u32,
    /// What all draws are made from.
    pub seed: u64,
    /// How long the run is, in bits.
    pub until_bits: u64,
    pub segments: SegmentLines,
    pub stations: StationLines,
    pub repeaters: RepeaterLines,
    pub sends: SendLines,
}
