//! The keys of each table: which there are, and what each holds.
ghost use Rattle.std.specs.Prelude.{◌≡◌};
ghost use Rattle.layout_file.specs.Rules.{table_of, rules_of};

use crate::fault::{Key, Table};
use layout::{GREATEST_SEED, MOST_BITS, MOST_LOST_BITS};
use mac_parameters::{
    GREATEST_DELAY, GREATEST_PLACE, LEAST_DELAY, LEAST_PORTS, MOST_HALF_BITS, MOST_OCTETS_TAGGED,
    MOST_OCTETS_UNTAGGED,
};

/// Which keys a table of the document may have.
#[derive(Clone, Copy)]
pub enum Shape {
    File,
    Segment,
    Station,
    Repeater,
    Port,
    Send,
}

impl Shape {
    /// The table that a fault names: a port row is a part of its repeater's row.
    pub fn table(&self) -> Table
        ensures { result ≡ table_of self.now }
    {
        match self {
            Shape::File => Table::File,
            Shape::Segment => Table::Segment,
            Shape::Station => Table::Station,
            Shape::Repeater => Table::Repeater,
            Shape::Port => Table::Repeater,
            Shape::Send => Table::Send,
        }
    }
}

/// What a key holds.
#[derive(Clone, Copy)]
pub enum ValueKind {
    /// A whole number from the first bound to the second.
    Whole(u64, u64),
    /// The name of the row itself.
    Name,
    /// The name of a capture.
    Load,
    /// The name of a segment's row.
    SegmentName,
    /// The name of a station's row.
    StationName,
    /// A frame of at most so many octets, in hexadecimal digits.
    Frame(u64),
    /// An array of at least so many tables.
    Rows(u64),
}

/// A key that a table may have.
#[derive(Clone, Copy)]
pub struct Rule {
    pub key: Key,
    pub required: bool,
    pub kind: ValueKind,
}

const FILE_RULES: [Rule; 7] = [
    Rule {
        key: Key::Format,
        required: true,
        kind: ValueKind::Whole(1, 2),
    },
    Rule {
        key: Key::Seed,
        required: true,
        kind: ValueKind::Whole(0, GREATEST_SEED),
    },
    Rule {
        key: Key::UntilBits,
        required: true,
        kind: ValueKind::Whole(1, MOST_BITS),
    },
    Rule {
        key: Key::Segment,
        required: true,
        kind: ValueKind::Rows(1),
    },
    Rule {
        key: Key::Station,
        required: false,
        kind: ValueKind::Rows(0),
    },
    Rule {
        key: Key::Repeater,
        required: false,
        kind: ValueKind::Rows(0),
    },
    Rule {
        key: Key::Send,
        required: false,
        kind: ValueKind::Rows(0),
    },
];

const NAME_RULE: Rule = Rule {
    key: Key::Name,
    required: true,
    kind: ValueKind::Name,
};

const SEGMENT_NAME_RULE: Rule = Rule {
    key: Key::Segment,
    required: true,
    kind: ValueKind::SegmentName,
};

/// The place of a tap, in half bits.
const AT_RULE: Rule = Rule {
    key: Key::At,
    required: true,
    kind: ValueKind::Whole(0, GREATEST_PLACE as u64),
};

const LOAD_RULE: Rule = Rule {
    key: Key::Load,
    required: false,
    kind: ValueKind::Load,
};

const SEGMENT_RULES: [Rule; 1] = [NAME_RULE];

const STATION_RULES: [Rule; 4] = [NAME_RULE, SEGMENT_NAME_RULE, AT_RULE, LOAD_RULE];

const STATION_RULES_OF_TWO: [Rule; 5] = [
    NAME_RULE,
    SEGMENT_NAME_RULE,
    AT_RULE,
    LOAD_RULE,
    Rule {
        key: Key::LoseBits,
        required: false,
        kind: ValueKind::Whole(0, MOST_LOST_BITS),
    },
];

const REPEATER_RULES: [Rule; 3] = [
    NAME_RULE,
    Rule {
        key: Key::Delay,
        required: true,
        kind: ValueKind::Whole(LEAST_DELAY, GREATEST_DELAY),
    },
    Rule {
        key: Key::Port,
        required: true,
        kind: ValueKind::Rows(LEAST_PORTS),
    },
];

const PORT_RULES: [Rule; 2] = [SEGMENT_NAME_RULE, AT_RULE];

const STATION_NAME_RULE: Rule = Rule {
    key: Key::Station,
    required: true,
    kind: ValueKind::StationName,
};

/// When a frame becomes ready, in half bits.
const READY_RULE: Rule = Rule {
    key: Key::At,
    required: true,
    kind: ValueKind::Whole(0, MOST_HALF_BITS),
};

const SEND_RULES: [Rule; 3] = [
    STATION_NAME_RULE,
    READY_RULE,
    Rule {
        key: Key::Octets,
        required: true,
        kind: ValueKind::Frame(MOST_OCTETS_UNTAGGED as u64),
    },
];

const SEND_RULES_OF_TWO: [Rule; 3] = [
    STATION_NAME_RULE,
    READY_RULE,
    Rule {
        key: Key::Octets,
        required: true,
        kind: ValueKind::Frame(MOST_OCTETS_TAGGED as u64),
    },
];

/// The keys of a table in their order. `two` says that the file's format is 2.
pub fn rules(two: bool, shape: Shape) -> &'static [Rule]
    ensures { result.now ≡ rules_of two shape }
{
    match (shape, two) {
        (Shape::File, _) => &FILE_RULES,
        (Shape::Segment, _) => &SEGMENT_RULES,
        (Shape::Station, false) => &STATION_RULES,
        (Shape::Station, true) => &STATION_RULES_OF_TWO,
        (Shape::Repeater, _) => &REPEATER_RULES,
        (Shape::Port, _) => &PORT_RULES,
        (Shape::Send, false) => &SEND_RULES,
        (Shape::Send, true) => &SEND_RULES_OF_TWO,
    }
}
