//! Laws of the parts of every plan: a call without a body for each.
ghost use Rattle.net_parts.specs.CalmPieces.{PiecesComeTrue};
ghost use Rattle.net_parts.specs.PartLaws.{LookaheadLeads, SegmentsGoOn, RepeatersGoOn, PartsGoOn, EverySchedule, PartsHandOut, RowsAreGathered, CapturesAreGathered};

/// Nothing that is decided for a port comes to another tap of its segment in fewer half bits than a window has, and a
/// window has 1 to 4,096.
pub fn lookahead_leads()
    ensures { LookaheadLeads }
{}

/// A segment that stands in the network stands there a half bit later, where what was decided for its ports comes in.
pub fn segments_go_on()
    ensures { SegmentsGoOn }
{}

/// A repeater that stands in the network stands there a half bit later, where what its ports hear comes in.
pub fn repeaters_go_on()
    ensures { RepeatersGoOn }
{}

/// A standing part whose parcels are true stands one window later, and gives true parcels.
pub fn parts_go_on()
    ensures { PartsGoOn }
{}

/// Over every list of events from the opening board on, each of which can happen where it stands: every part that isn't
/// lost stands at its window's time, and every unspoiled parcel is true for the plan.
pub fn every_schedule()
    ensures { EverySchedule }
{}

/// What a part hands out after the last window are its rows of the whole run, Cut rows included, and its captures.
pub fn parts_hand_out()
    ensures { PartsHandOut }
{}

/// The rows of a run are the log of its parts' rows, each Cut row at its station's part.
pub fn rows_are_gathered()
    ensures { RowsAreGathered }
{}

/// The captures of a run are those of its segments' stations.
pub fn captures_are_gathered()
    ensures { CapturesAreGathered }
{}

/// Many half bits at once: where every sending of a segment goes on, and each of its stations hears something in each
/// half bit or Idle in each, for no more half bits than it is calm, what is told ahead in this way comes true, and so
/// does what stations and ports hear by it.
pub fn pieces_come_true()
    ensures { PiecesComeTrue }
{}
