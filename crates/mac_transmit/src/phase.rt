//! What a sender is doing.

/// What a sender is doing (IEEE 802.3, 4.2.8).
#[derive(Clone, Copy, PartialEq, Eq)]
pub enum Phase {
    /// It waits for a frame to be ready.
    Rest,
    /// It has a frame and waits for its turn.
    Waiting,
    /// It sends since half bit `start`; `hit` is the position, from 0, at which it first had carrier.
    Sending { start: u64, hit: Option<u32> },
    /// It waits after a collision, until half bit `until`.
    Backoff { until: u64 },
}
