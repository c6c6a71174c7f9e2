//! Laws of runs that go on from a state: calls without a body, whose contracts are the laws.
ghost use Rattle.std.specs.Prelude.{All};
ghost use Rattle.quiet_state.specs.Resumed.{captures_from, rows_from};
ghost use Rattle.run_checkpoint.specs.States.{IsStateOfPlan};
ghost use Rattle.run_texts.specs.Captures.{AreShort};
ghost use Rattle.run_texts.specs.Counts.{AreLeft, counts_of};

use load_plan::Plan;
use quiet_state::NetState;

/// In a run that goes on from a state of a plan the frames that a station sends, with those that it gives up for
/// excessive collisions, are no more than its queue has (4.2.3.2.5).
pub fn resumed_frames_are_left(plan: &Plan, state: &NetState)
    requires { IsStateOfPlan plan.now state.now }
    ensures { AreLeft (counts_of plan.now (rows_from plan.now state.now)) }
{}

/// What the stations capture in such a run can be written: each frame has at most the octets of the longest tagged
/// frame before its check sequence (3.2.7).
pub fn resumed_captures_are_short(plan: &Plan, state: &NetState)
    requires { IsStateOfPlan plan.now state.now }
    ensures { All AreShort (captures_from plan.now state.now) }
{}
