//! The taps of a network, by numbers from 0 in the file's order, and the two ways on from a tap.

/// A station's tap, or that of a port of a repeater.
#[derive(Clone, Copy)]
pub enum Attachment {
    Station(u32),
    Port { repeater: u32, port: u32 },
}

/// A path goes on along the cable of a tap's segment, or through the repeater whose port the tap is.
#[derive(Clone, Copy)]
pub enum Way {
    Cable,
    Repeater,
}
