//! A window of all segments.
ghost use Rattle.std.specs.Prelude.{◌≡◌, ◌<◌, ◌≤◌, ◌+◌, All, OnOk, length};
ghost use Rattle.net_parts.specs.Parts.{edges_of_part};
ghost use Rattle.net_parts.specs.Windows.{windows};
ghost use Rattle.turn_run.specs.ParcelsInTurn.{EachStandsOnce, AreExchanged, AreHalfway};
ghost use Rattle.turn_run.specs.PartsInTurn.{AreAtWindow};

use lists::OutOfMemory;
use load_plan::Plan;
use net_parts::{Parcel, Part};
use outside::Gate;
use std::mem::swap;

/// All segments make a window, in turn. The parcels of all edges, each at the place of its edge, come to the segments,
/// and go to the repeaters.
pub fn run_segments<S: Part, G: Gate>(
    plan: &Plan,
    window: u64,
    gate: &G,
    segments: &mut [S],
    parcels: &mut [Parcel],
    hand: &mut [Parcel],
) -> Result<(), OutOfMemory>
    requires window { window < windows plan.now }
    requires segments { AreAtWindow S.plan S.number S.at plan.now 0 (length plan.now.layout.segments) window segments.old }
    requires parcels { AreHalfway plan.now window 0 parcels.old }
    requires hand { length hand.old ≡ length parcels.old }
    ensures segments { OnOk result (AreAtWindow S.plan S.number S.at plan.now 0 (length plan.now.layout.segments) (window + 1) segments.new) }
    ensures parcels { OnOk result (AreHalfway plan.now window (length plan.now.layout.segments) parcels.new) }
    ensures hand { length hand.new ≡ length hand.old }
{
    for segment in segments.iter_mut() {
        run_segment(gate, segment, parcels, hand)?;
    }
    Ok(())
}

/// A segment makes a window. Its parcels come into the hand for that, and go back to their places.
fn run_segment<S: Part, G: Gate>(
    gate: &G,
    segment: &mut S,
    parcels: &mut [Parcel],
    hand: &mut [Parcel],
) -> Result<(), OutOfMemory>
    requires window { S.at segment.old < windows (S.plan segment.old) }
    requires segment { S.number segment.old < length (S.plan segment.old).layout.segments }
    requires parcels { AreHalfway (S.plan segment.old) (S.at segment.old) (S.number segment.old) parcels.old }
    requires hand { length hand.old ≡ length parcels.old }
    ensures plan { S.plan segment.new ≡ S.plan segment.old }
    ensures number { S.number segment.new ≡ S.number segment.old }
    ensures at { OnOk result (S.at segment.new ≡ S.at segment.old + 1) }
    ensures parcels { OnOk result (AreHalfway (S.plan segment.old) (S.at segment.old) (S.number segment.old + 1) parcels.new) }
    ensures hand { length hand.new ≡ length hand.old }
{
    gate.enter(segment.part(), segment.window());
    segment.reserve_window()?;
    exchange(segment.edges(), parcels, hand);
    let many = segment.edges().len();
    segment.run_window(&mut hand[..many]);
    exchange(segment.edges(), parcels, hand);
    Ok(())
}

/// The parcels of these edges, each at the place of its edge, change places with the first in the hand.
fn exchange(edges: &[u32], parcels: &mut [Parcel], hand: &mut [Parcel])
    requires apart { EachStandsOnce edges.now }
    requires within { All (λ e. e < length parcels.old) edges.now }
    requires hand { length edges.now ≤ length hand.old }
    ensures { AreExchanged edges.now (length edges.now) parcels.old hand.old parcels.new hand.new }
{
    for k in 0..edges.len() {
        let place = edges[k] as usize;
        swap(&mut hand[k], &mut parcels[place]);
    }
}
