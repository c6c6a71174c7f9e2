//! What happens at a device, and at which half bit.
use lists::List;

/// Why a reception was dropped.
#[derive(Clone, Copy, Debug, PartialEq, Eq)]
pub enum Why {
    Fragment,
    TooLong,
    FcsError,
    AlignError,
    Damaged,
}

/// What happened. Frames, attempts and ports are counted from 1; `start` is the half bit at which the
/// sending began, and `hit` the half bit of the sending, counted from 0, at which a collision was heard.
#[derive(Clone, Copy, Debug, PartialEq, Eq)]
pub enum Body {
    Sent {
        frame: u32,
        start: u64,
        attempt: u32,
    },
    Collided {
        frame: u32,
        start: u64,
        attempt: u32,
        hit: u32,
        drawn: u32,
    },
    GivenUp {
        frame: u32,
        start: u64,
        hit: u32,
    },
    Cut {
        frame: u32,
        start: u64,
        attempt: u32,
        hit: Option<u32>,
    },
    Received {
        octets: u32,
    },
    Dropped {
        why: Why,
        halves: u32,
    },
    Clash,
    Closed {
        port: u32,
    },
    Opened {
        port: u32,
    },
    Halted {
        port: u32,
    },
}

/// A row of the log: the half bit, the device, both counted from 0, and what happened.
#[derive(Clone, Copy, PartialEq, Eq)]
pub struct Row {
    pub t: u64,
    pub device: u32,
    pub body: Body,
}

/// Rows in the order in which they are written.
pub type Rows = List<Row>;

/// Lists of rows, as of the parts of a network.
pub type RowsList = List<Rows>;
