//! Runs of symbols.
use lists::List;
use manchester_line::Sym;

/// A maximal stretch of one symbol: its first half bit, from 0, and how many half bits it has.
#[derive(Clone, Copy, Debug, PartialEq, Eq)]
pub struct Run {
    pub start: u64,
    pub count: u64,
    pub symbol: Sym,
}

/// Runs, each of which begins where the one before ends.
pub type Runs = List<Run>;

/// The runs of several taps, in the order of the taps.
pub type RunsList = List<Runs>;
