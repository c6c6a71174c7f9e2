//! Sizes of the picture, in hundredths of a pixel, and of its window, in half bits. All are this project's profile.

/// The width of the plot.
pub const PLOT_WIDTH: u64 = 100_000;

/// From one lane to the next, at least.
pub const LANE_DISTANCE: u64 = 1_800;

/// So much for each half bit between two places.
pub const PLACE_HEIGHT: u64 = 50;

/// So many entries of a legend stand beside each other, at most.
pub const ENTRIES_A_ROW: u64 = 6;

/// From one entry of a row to the next.
pub const ENTRY_WIDTH: u64 = 22_000;

/// From one row of entries to the next.
pub const ENTRY_HEIGHT: u64 = 2_100;

/// Where the first band begins, below the legend and the axis.
pub const FIRST_TOP: u64 = 9_600;

/// Between one band and the next.
pub const BAND_GAP: u64 = 1_400;

/// A name of so many octets has large letters, and a longer one small letters.
pub const LONGEST_LARGE_NAME: usize = 20;

/// A word beside a sign takes so many hundredths of the plot's width.
pub const WORD_SHARE: u64 = 7;

/// The half bits of a microsecond.
pub const HALF_BITS_A_MICROSECOND: u64 = 20;

/// The half bits of a tenth of a microsecond.
pub const HALF_BITS_A_TENTH: u64 = 2;

/// An axis has this many whole steps from tick to tick, at most.
pub const MOST_STEPS: u64 = 10;

/// A hundred microseconds, in half bits.
pub const HUNDRED_MICROSECONDS: u64 = 2_000;

/// The most half bits from tick to tick.
pub const LONGEST_STEP: u64 = 100_000;

/// The most half bits of a picture.
pub const LONGEST_WINDOW: u64 = 1_000_000;
