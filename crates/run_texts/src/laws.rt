//! Laws of a run's counts and captures: calls without a body, whose contracts are the laws.
ghost use Rattle.std.specs.Prelude.{◌≡◌, ◌<◌, All, length};
ghost use Rattle.network.specs.Outputs.{captures, half_bits, rows};
ghost use Rattle.run_texts.specs.Captures.{AreShort};
ghost use Rattle.run_texts.specs.Counts.{AreLeft, counts_of};

use load_plan::Plan;

/// In the run of a plan the frames that a station sends, with those that it gives up for excessive collisions, are no
/// more than its queue has (4.2.3.2.5).
pub fn frames_are_left(plan: &Plan)
    ensures { AreLeft (counts_of plan.now (rows plan.now)) }
{}

/// What the stations of a plan's run capture came in half bits of the run and can be written: each frame has at most
/// the octets of the longest tagged frame before its check sequence (3.2.7).
pub fn captures_are_short(plan: &Plan)
    ensures short { All AreShort (captures plan.now) }
    ensures time { All (All (λ taken. taken.t < half_bits plan.now)) (captures plan.now) }
{}

/// Each station of a plan has a capture.
pub fn stations_have_captures(plan: &Plan)
    ensures { length (captures plan.now) ≡ length plan.now.layout.stations }
{}
