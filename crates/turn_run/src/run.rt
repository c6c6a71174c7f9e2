//! The run of a plan on one thread.
ghost use Rattle.std.specs.Prelude.{◌≡◌, ◌<◌, ◌≤◌, ◌+◌, ℕ, IfOk, OnOk, false, length, min};
ghost use Rattle.net_parts.specs.Standing.{arrives, port_hears};
ghost use Rattle.net_parts.specs.Windows.{lookahead, windows as windows_of};
ghost use Rattle.network.specs.Outputs.{captures, rows};
ghost use Rattle.network.specs.Times.{decided};
ghost use Rattle.turn_run.specs.ParcelsInTurn.{all_parcels};
ghost use Rattle.turn_run.specs.PartsInTurn.{AreAtWindow};
ghost use Rattle.turn_run.specs.declared.run.TheConstants.{BETWEEN_LOOKS};

use crate::first::{count_edges, empty_hand, first_parcels, make_parts};
use crate::gathered::gather_outputs;
use crate::kind::PartKind;
use crate::outputs::collect_parts;
use crate::quiet::leap_all;
use crate::repeaters::run_repeaters;
use crate::segments::run_segments;
use collision_log::RowsList;
use lists::OutOfMemory;
use load_plan::Plan;
use net_parts::{Pace, Parcel, Part};
use network::Outputs;
use outside::Gate;
use repeater_engine::RepeaterPart;
use segment_engine::SegmentPart;
use std::alloc::Global;

/// Runs a plan to its end on the caller's thread, its parts in turn, window by window. Each part passes the gate at the
/// beginning of each of its windows, but for those in which nothing happens anywhere and which are made at once: the last
/// window is none of these.
pub fn run_in_turn<G: Gate>(alloc: Global, plan: &Plan, gate: &G) -> Result<Outputs, OutOfMemory>
    ensures rows { IfOk result (λ outputs. outputs.rows ≡ rows plan.now) }
    ensures captures { IfOk result (λ outputs. outputs.captures ≡ captures plan.now) }
{
    run_parts::<SegmentPart, RepeaterPart, G>(alloc, plan, gate)
}

/// The same on segments and repeaters of these kinds.
fn run_parts<S: PartKind, R: PartKind, G: Gate>(
    alloc: Global,
    plan: &Plan,
    gate: &G,
) -> Result<Outputs, OutOfMemory>
    requires segments { S.many plan.now ≡ length plan.now.layout.segments }
    requires first_segment { S.first plan.now ≡ 0 }
    requires repeaters { R.many plan.now ≡ length plan.now.layout.repeaters }
    requires first_repeater { R.first plan.now ≡ length plan.now.layout.segments }
    requires arrive { (e u : ℕ) → S.comes plan.now e u ≡ arrives plan.now (lookahead plan.now.layout) e u }
    requires heard { (e u : ℕ) → S.goes plan.now e u ≡ port_hears plan.now e u }
    requires hear { (e u : ℕ) → R.comes plan.now e u ≡ port_hears plan.now e u }
    requires decide { (e u : ℕ) → R.goes plan.now e u ≡ decided plan.now e u }
    ensures rows { IfOk result (λ outputs. outputs.rows ≡ rows plan.now) }
    ensures captures { IfOk result (λ outputs. outputs.captures ≡ captures plan.now) }
{
    let pace = Pace::of(plan);
    begin(plan, &pace, gate);
    let mut segments = make_parts::<S>(alloc, plan, &pace, plan.layout.segments.len() as u32)?;
    let mut repeaters = make_parts::<R>(alloc, plan, &pace, plan.layout.repeaters.len() as u32)?;
    let edges = count_edges(plan);
    let mut parcels = first_parcels(alloc, plan, &pace, edges)?;
    let mut hand = empty_hand(alloc, edges)?;
    run_windows(
        plan,
        pace.windows,
        gate,
        segments.as_mut_slice(),
        repeaters.as_mut_slice(),
        parcels.as_mut_slice(),
        hand.as_mut_slice(),
    )?;
    gather_parts(alloc, plan, segments, repeaters)
}

/// The outputs of the run of a plan, from its parts, which have made all their windows.
fn gather_parts<S: PartKind, R: PartKind>(
    alloc: Global,
    plan: &Plan,
    segments: Vec<S>,
    repeaters: Vec<R>,
) -> Result<Outputs, OutOfMemory>
    requires segments { AreAtWindow S.plan S.number S.at plan.now 0 (length plan.now.layout.segments) (windows_of plan.now) segments.items }
    requires repeaters { AreAtWindow R.plan R.number R.at plan.now (length plan.now.layout.segments) (length plan.now.layout.repeaters) (windows_of plan.now) repeaters.items }
    ensures rows { IfOk result (λ outputs. outputs.rows ≡ rows plan.now) }
    ensures captures { IfOk result (λ outputs. outputs.captures ≡ captures plan.now) }
{
    let mut logs = RowsList::new(alloc);
    let mut of_parts = Vec::new(alloc);
    collect_parts(segments, &mut logs, &mut of_parts)?;
    collect_parts(repeaters, &mut logs, &mut of_parts)?;
    gather_outputs(alloc, plan, logs, of_parts)
}

/// Tells the gate that the run of a plan begins.
fn begin<G: Gate>(plan: &Plan, pace: &Pace, gate: &G) {
    let layout = &plan.layout;
    let parts = layout.segments.len().saturating_add(layout.repeaters.len());
    gate.begin(
        u32::try_from(parts).unwrap_or(u32::MAX),
        pace.windows,
        layout.half_bits(),
    );
}

/// The most windows that are made between two looks for windows in which nothing happens.
const BETWEEN_LOOKS: u64 = 16;

/// How many of the windows that are left are made before the next look: none after some in which nothing happened, since
/// it may be so in the next as well.
fn before_look(quiet: u64, left: u64) -> u64
    ensures again { 0 < quiet → result ≡ 0 }
    ensures most { quiet ≡ 0 → result ≡ min left BETWEEN_LOOKS }
{
    if quiet > 0 {
        0
    } else {
        left.min(BETWEEN_LOOKS)
    }
}

/// All parts make so many windows from a window on: in each of them first the segments, then the repeaters, over the
/// parcels of all edges.
fn run_some<S: Part, R: Part, G: Gate>(
    plan: &Plan,
    from: u64,
    until: u64,
    gate: &G,
    segments: &mut [S],
    repeaters: &mut [R],
    parcels: &mut [Parcel],
    hand: &mut [Parcel],
) -> Result<(), OutOfMemory>
    requires order { from ≤ until }
    requires windows { until ≤ windows_of plan.now }
    requires segments { AreAtWindow S.plan S.number S.at plan.now 0 (length plan.now.layout.segments) from segments.old }
    requires repeaters { AreAtWindow R.plan R.number R.at plan.now (length plan.now.layout.segments) (length plan.now.layout.repeaters) from repeaters.old }
    requires parcels { parcels.old ≡ all_parcels plan.now false from }
    requires hand { length hand.old ≡ length parcels.old }
    ensures segments { OnOk result (AreAtWindow S.plan S.number S.at plan.now 0 (length plan.now.layout.segments) until segments.new) }
    ensures repeaters { OnOk result (AreAtWindow R.plan R.number R.at plan.now (length plan.now.layout.segments) (length plan.now.layout.repeaters) until repeaters.new) }
    ensures parcels { OnOk result (parcels.new ≡ all_parcels plan.now false until) }
    ensures hand { OnOk result (length hand.new ≡ length parcels.new) }
{
    for window in from..until {
        run_segments(plan, window, gate, segments, parcels, hand)?;
        run_repeaters(plan, window, gate, repeaters, parcels)?;
    }
    Ok(())
}

/// All parts make all windows. Those in which nothing happens anywhere are made at once, but never the last.
fn run_windows<S: PartKind, R: PartKind, G: Gate>(
    plan: &Plan,
    windows: u64,
    gate: &G,
    segments: &mut [S],
    repeaters: &mut [R],
    parcels: &mut [Parcel],
    hand: &mut [Parcel],
) -> Result<(), OutOfMemory>
    requires windows { windows ≡ windows_of plan.now }
    requires arrive { (e u : ℕ) → S.comes plan.now e u ≡ arrives plan.now (lookahead plan.now.layout) e u }
    requires heard { (e u : ℕ) → S.goes plan.now e u ≡ port_hears plan.now e u }
    requires hear { (e u : ℕ) → R.comes plan.now e u ≡ port_hears plan.now e u }
    requires decide { (e u : ℕ) → R.goes plan.now e u ≡ decided plan.now e u }
    requires segments { AreAtWindow S.plan S.number S.at plan.now 0 (length plan.now.layout.segments) 0 segments.old }
    requires repeaters { AreAtWindow R.plan R.number R.at plan.now (length plan.now.layout.segments) (length plan.now.layout.repeaters) 0 repeaters.old }
    requires parcels { parcels.old ≡ all_parcels plan.now false 0 }
    requires hand { length hand.old ≡ length parcels.old }
    ensures segments { OnOk result (AreAtWindow S.plan S.number S.at plan.now 0 (length plan.now.layout.segments) windows segments.new) }
    ensures repeaters { OnOk result (AreAtWindow R.plan R.number R.at plan.now (length plan.now.layout.segments) (length plan.now.layout.repeaters) windows repeaters.new) }
{
    let mut window = 0;
    while window < windows {
        let most = windows - window - 1;
        let quiet = leap_all(plan, window, most, segments, repeaters, parcels);
        let from = window + quiet;
        let until = from + before_look(quiet, windows - from);
        run_some(plan, from, until, gate, segments, repeaters, parcels, hand)?;
        window = until;
    }
    Ok(())
}
