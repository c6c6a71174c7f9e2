//! Laws of two stations that start at once: a call without a body for each.
ghost use Rattle.overlap_exists.specs.DetectedCollisions.{NearPairsAreDetected, NearPairsAreLogged, DetectedCollisionsExist};
ghost use Rattle.overlap_exists.specs.NearPairs.{NearPairsOverlap, NearPairsAreWithin};

/// In each plan with two stations near each other on one segment, both with a frame from half bit 0 on, their first
/// attempts overlap over an open path, and each has its hit at the position that is their distance.
pub fn near_pairs_overlap()
    ensures { NearPairsOverlap }
{}

/// A layout of two such stations has the verdict Within and no other, with twice their distance and an interframe gap.
pub fn near_pairs_are_within()
    ensures { NearPairsAreWithin }
{}

/// What `check_paths` promises with that verdict is met by each plan of them whose queues hold frames: the two attempts
/// overlap, and both hits come before the 512th bit.
pub fn near_pairs_are_detected()
    ensures { NearPairsAreDetected }
{}

/// Both attempts have their rows in a run that is longer than they are, each with its hit.
pub fn near_pairs_are_logged()
    ensures { NearPairsAreLogged }
{}

/// There is a sound layout with the verdict Within and a plan as it is made of the layout and no loads, in which two
/// attempts overlap over an open path, are both hit before the 512th bit, and have their rows.
pub fn detected_collisions_exist()
    ensures { DetectedCollisionsExist }
{}
