//! The limits of a layout; all are this project's profile.

/// The greatest seed.
pub const GREATEST_SEED: u64 = 9_223_372_036_854_775_807;

/// The most bits of a run.
pub const MOST_BITS: u64 = 1_000_000_000;

/// The most bits of a run, over all its devices.
pub const MOST_DEVICE_BITS: u64 = 4_000_000_000;

pub const MOST_SEGMENTS: usize = 256;

pub const MOST_STATIONS: usize = 1_024;

pub const MOST_REPEATERS: usize = 128;

pub const MOST_SENDS: usize = 65_536;

/// The most bits that a receiver loses at the start of each reception.
pub const MOST_LOST_BITS: u64 = 48;

/// The octets of the longest name.
pub const LONGEST_NAME: u64 = 32;

/// The octets of the longest name of a load.
pub const LONGEST_LOAD: u64 = 255;
