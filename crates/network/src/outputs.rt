//! What a run gives.
use collision_log::Rows;
use layout::Octets;
use lists::List;

/// A frame that a station received: the half bit, from 0, at which its reception ended, and its octets
/// with pad and without FCS.
#[derive(Drop)]
pub struct Taken {
    pub t: u64,
    pub octets: Octets,
}

/// The frames that a station received, in order of time.
pub type TakenList = List<Taken>;

/// The frames that each station received, in order of the stations.
pub type Captures = List<TakenList>;

/// The rows of a run in order of t, then device, and what each station received.
#[derive(Drop)]
pub struct Outputs {
    pub rows: Rows,
    pub captures: Captures,
}
