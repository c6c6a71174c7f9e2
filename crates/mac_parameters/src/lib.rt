//! The numbers of IEEE 802.3 for 10 Mb/s (4.4.2, under the standard's names where it has one), and those that this
//! project's profile adds for lines, stations and repeaters; times are half bits of 50 ns.
#![tactic(auto)]

ghost use Rattle.std.specs.Prelude.{◌≡◌};
ghost use Rattle.mac_parameters.specs.Parameters.{IsMost, most_octets};

// The line.

/// The half bits of a bit: its complement and the bit itself (clause 7).
pub const HALF_BITS_A_BIT: u32 = 2;

/// The half bits of an octet (clause 7).
pub const HALF_BITS_AN_OCTET: u32 = 16;

/// The nanoseconds of a half bit at 10 Mb/s (4.4.2).
pub const NANOSECONDS_A_HALF_BIT: u64 = 50;

/// The half bits of the preamble and the start frame delimiter, of 56 and 8 bits (3.2.1, 3.2.2).
pub const PREAMBLE: u32 = 128;

/// The place of the first half bit of a cable is 0, and this is the last at which a tap may be (profile).
pub const GREATEST_PLACE: u32 = 2_000;

// Frames, in octets.

/// Destination, source and length or type: the octets that a frame can't do without (3.1.1).
pub const ADDRESSES_AND_TYPE: u32 = 14;

/// The octets of a frame check sequence (3.2.9).
pub const CHECK_SEQUENCE: u32 = 4;

/// minFrameSize: the octets that a frame has at least, with its check sequence (4.4.2).
pub const LEAST_FRAME: u32 = 64;

/// The octets that a frame has at least before its check sequence, pad among them (3.2.8).
pub const LEAST_OCTETS: u32 = 60;

/// The most octets of an untagged frame before its check sequence (3.2.7).
pub const MOST_OCTETS_UNTAGGED: u32 = 1_514;

/// The most octets of a tagged frame before its check sequence (3.2.7).
pub const MOST_OCTETS_TAGGED: u32 = 1_518;

/// maxUntaggedFrameSize and the four octets of a tag: the most octets of a frame with its check sequence (4.4.2).
pub const GREATEST_FRAME: u32 = 1_522;

/// The half bits of the shortest line text: the preamble, the start frame delimiter and the least frame.
pub const SHORTEST_LINE_TEXT: u32 = 1_152;

// The station.

/// slotTime: 512 bits (4.4.2).
pub const SLOT_TIME: u32 = 1_024;

/// interFrameGap: 96 bits (4.4.2).
pub const INTERFRAME_GAP: u32 = 192;

/// interFrameSpacingPart1: the part of the gap in which carrier begins it again (4.2.3.2.1; two thirds are profile).
pub const INTERFRAME_GAP_PART_1: u32 = 128;

/// attemptLimit (4.4.2).
pub const ATTEMPT_LIMIT: u32 = 16;

/// backoffLimit: the most bits of a draw (4.4.2).
pub const BACKOFF_LIMIT: u32 = 10;

/// jamSize: 32 bits (4.4.2).
pub const JAM_SIZE: u32 = 64;

/// The half bits of the shortest sending: the preamble, the start frame delimiter and the jam.
pub const SHORTEST_SENDING: u32 = 192;

/// The position at which the 512th bit of a sending begins.
pub const BIT_512: u32 = 1_022;

// The repeater.

/// The least ports of a repeater (clause 9).
pub const LEAST_PORTS: u64 = 2;

/// The most ports of a repeater (profile).
pub const MOST_PORTS: usize = 32;

/// The least half bits from what a repeater decides to what it emits (profile).
pub const LEAST_DELAY: u64 = 1;

/// The most half bits from what a repeater decides to what it emits (profile).
pub const GREATEST_DELAY: u64 = 200;

/// What a repeater sends to a port has at least so many half bits, 96 bits (clause 9, fragment extension).
pub const FRAGMENT_EXTENSION: u32 = 192;

/// The collisions in a row that partition a port (profile, in the manner of clause 9).
pub const PARTITION_IN_A_ROW: u32 = 31;

/// The half bits of one collision that partition a port (profile).
pub const PARTITION_COLLISION: u32 = 2_049;

/// The half bits without a collision after which a partitioned port may be connected again (profile).
pub const RECONNECTION: u32 = 1_024;

/// The half bits of unbroken output after which a port is halted (profile, jabber lockup protection of clause 9).
pub const JABBER_LIMIT: u32 = 100_000;

/// The half bits for which a halted port rests (profile).
pub const JABBER_REST: u32 = 192;

// The run.

/// The half bits of the longest run, which is the last half bit, from 0, in which a frame may become ready (profile).
pub const MOST_HALF_BITS: u64 = 2_000_000_000;

/// The last half bit, from 0, in which a backoff ends (profile).
pub const LAST_BACKOFF: u64 = 2_100_000_000;

/// The most draws that a station made (profile).
pub const MOST_DRAWS: u64 = 2_000_000_000;

/// The most octets of a frame before its check sequence, of tagged frames or of untagged ones alone (3.2.7).
pub fn most_octets(tagged: bool) -> u32
    ensures value { result ≡ most_octets tagged }
    ensures one_of_two { IsMost result }
{
    if tagged {
        MOST_OCTETS_TAGGED
    } else {
        MOST_OCTETS_UNTAGGED
    }
}
