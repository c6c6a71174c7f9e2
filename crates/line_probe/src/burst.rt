//! Bursts.
use lists::List;

/// A stretch of signals between two Idle half bits, or between half bit 0 and one: its first half bit, from 0, how many
/// half bits it has, whether they are no bits, the whole octets after the delimiter, and the bits after the last of
/// them. Octets and spare bits are 0 where it is spoiled.
#[derive(Clone, Copy, Debug, PartialEq, Eq)]
pub struct Burst {
    pub start: u64,
    pub halves: u64,
    pub spoiled: bool,
    pub octets: u32,
    pub spare: u32,
}

/// Bursts, in their order.
pub type Bursts = List<Burst>;
