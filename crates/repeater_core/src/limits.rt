//! The limits of a repeater (profile).

/// The most half bits of calm that are told at a time.
pub const MOST_CALM: u64 = 4_096;

/// The half bits after which the jam goes on as it began: two bits.
pub const JAM_PERIOD: u32 = 4;
