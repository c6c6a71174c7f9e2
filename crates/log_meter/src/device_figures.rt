//! What the figures of a log are.
use lists::{List, Text};

/// What lines of a station count: how many of its frames were sent, met a collision, were given up or cut, how many it
/// received and dropped, and for how many half bits it sent.
#[derive(Clone, Copy)]
pub struct StationTally {
    pub sent: u64,
    pub collided: u64,
    pub given_up: u64,
    pub cut: u64,
    pub received: u64,
    pub dropped: u64,
    pub half_bits: u64,
}

/// What lines of a repeater count: collisions, and partitions, reconnections and halts of its ports.
#[derive(Clone, Copy)]
pub struct RepeaterTally {
    pub clash: u64,
    pub closed: u64,
    pub opened: u64,
    pub halted: u64,
}

/// What a station did, how many of each thousand of its sendings met a collision, and the most frames that it sent in a
/// row while no other station sent one.
#[derive(Drop)]
pub struct StationFigures {
    pub name: Text,
    pub tally: StationTally,
    pub share: u64,
    pub longest: u64,
}

/// What a repeater did.
#[derive(Drop)]
pub struct RepeaterFigures {
    pub name: Text,
    pub tally: RepeaterTally,
}

/// The figures of stations, in order of their names by their octets.
pub type StationList = List<StationFigures>;

/// The figures of repeaters, in order of their names by their octets.
pub type RepeaterList = List<RepeaterFigures>;

/// The figures of a log.
#[derive(Drop)]
pub struct Figures {
    pub stations: StationList,
    pub repeaters: RepeaterList,
}
