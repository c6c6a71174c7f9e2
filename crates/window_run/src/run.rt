//! The run of a plan by windows.
ghost use Rattle.std.specs.Prelude.{◌≡◌, ◌<◌, ◌≤◌, ◌+◌, IfOk, IfSome, length};
ghost use Rattle.network.specs.Outputs.{captures, rows};

use crate::parts::collect_parts;
use collision_log::RowsList;
use lists::OutOfMemory;
use load_plan::Plan;
use net_parts::Pace;
use network::Outputs;
use outside::Gate;
use repeater_engine::RepeaterPart;
use segment_engine::SegmentPart;
use std::alloc::Global;
use std::sync::Wait;
use std::thread::Threads;
use turn_run::{PartKind, gather_outputs, run_in_turn};
use worker_gate::{Gated, run_planned};

/// Runs a plan to its end by 1 to 64 workers, the caller being one of them. Each part passes the gate at the beginning
/// of each of its windows. It may wait. Alone the caller runs the parts in turn, without mailboxes; they don't pass the
/// gate for windows in which nothing happens anywhere. So it does anew, and the gate is told that a run begins, where the
/// workers' parts aren't whole at the end.
pub fn run_by_windows<G: Gate, X: Threads + Wait + Sync>(
    rt: &X,
    alloc: Global,
    plan: &Plan,
    workers: u32,
    gate: &G,
) -> Result<Outputs, OutOfMemory>
    requires least { 1 ≤ workers }
    requires most { workers ≤ 64 }
    ensures rows { IfOk result (λ outputs. outputs.rows ≡ rows plan.now) }
    ensures captures { IfOk result (λ outputs. outputs.captures ≡ captures plan.now) }
{
    if workers > 1 {
        if let Some(outputs) = run_parts::<SegmentPart, RepeaterPart, G, X>(
            rt, alloc, plan, workers, gate,
        )? {
            return Ok(outputs);
        }
    }
    run_in_turn(alloc, plan, gate)
}

/// The same by the workers, on segments and repeaters of these kinds; nothing where these aren't whole at the end.
fn run_parts<S: PartKind, R: PartKind, G: Gate, X: Threads + Wait + Sync>(
    rt: &X,
    alloc: Global,
    plan: &Plan,
    workers: u32,
    gate: &G,
) -> Result<Option<Outputs>, OutOfMemory>
    requires least { 1 ≤ workers }
    requires most { workers ≤ 64 }
    requires segments { S.many plan.now ≡ length plan.now.layout.segments }
    requires first_segment { S.first plan.now ≡ 0 }
    requires repeaters { R.many plan.now ≡ length plan.now.layout.repeaters }
    requires first_repeater { R.first plan.now ≡ length plan.now.layout.segments }
    ensures rows { IfOk result (λ o. IfSome o (λ outputs. outputs.rows ≡ rows plan.now)) }
    ensures captures { IfOk result (λ o. IfSome o (λ outputs. outputs.captures ≡ captures plan.now)) }
{
    let reckoned = Pace::of(plan);
    let pace = &reckoned;
    let planned = run_planned(
        rt,
        alloc,
        plan,
        pace,
        workers,
        gate,
        &|i| -> Result<Gated<'_, S, G>, OutOfMemory>
            requires within { i < S.many plan.now }
            requires paced { pace.now.plan.value ≡ plan.now }
        { gated(alloc, plan, pace, i, gate) },
        &|i| -> Result<Gated<'_, R, G>, OutOfMemory>
            requires within { i < R.many plan.now }
            requires paced { pace.now.plan.value ≡ plan.now }
        { gated(alloc, plan, pace, i, gate) },
    )?;
    let Some((segments, repeaters)) = planned else {
        return Ok(None);
    };
    let mut logs = RowsList::new(alloc);
    let mut of_parts = Vec::new(alloc);
    collect_parts(segments, &mut logs, &mut of_parts)?;
    collect_parts(repeaters, &mut logs, &mut of_parts)?;
    Ok(Some(gather_outputs(alloc, plan, logs, of_parts)?))
}

/// A part of a kind behind the gate.
fn gated<'g, K: PartKind, G: Gate>(
    alloc: Global,
    plan: &Plan,
    pace: &Pace,
    number: u32,
    gate: &'g G,
) -> Result<Gated<'g, K, G>, OutOfMemory>
    requires paced { pace.now.plan.value ≡ plan.now }
    requires within { number < K.many plan.now }
    ensures plan { IfOk result (λ gated. K.plan gated.part ≡ plan.now) }
    ensures number { IfOk result (λ gated. K.number gated.part ≡ K.first plan.now + number) }
    ensures at { IfOk result (λ gated. K.at gated.part ≡ 0) }
{
    Ok(Gated::new(K::make(alloc, plan, pace, number)?, gate))
}
