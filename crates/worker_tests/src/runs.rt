//! Runs by windows, on more workers than there may be processors, beside the run half bit by half bit.
ghost use Rattle.std.specs.Prelude.{◌≤◌};
ghost use Rattle.layout.specs.Limits.{most_repeaters};

use crate::entries::{Entries, is_run_watched};
use case_support::{no_loads, plan_of};
use demo_layout::demo;
use lists::OutOfMemory;
use load_plan::{Plan, make_plan};
use net_step::run_plain;
use network::Outputs;
use repeater_engine::RepeaterPart;
use segment_engine::SegmentPart;
use std::alloc::Global;
use std::sync::Wait;
use std::test::Fail;
use std::thread::Threads;
use window_run::run_by_windows;

/// Five segments in a line, whose stations stand in another order than their segments, and send on top of each other.
const FIVE_SEGMENTS: &str = r#"format = 1
seed = 3
until_bits = 9000
segment = [{ name = "g1" }, { name = "g2" }, { name = "g3" }, { name = "g4" }, { name = "g5" }]
station = [
  { name = "e2", segment = "g5", at = 44 }, { name = "e1", segment = "g1", at = 0 },
  { name = "a1", segment = "g3", at = 10 }, { name = "a2", segment = "g1", at = 10 }, { name = "a3", segment = "g5", at = 10 },
  { name = "b1", segment = "g3", at = 20 }, { name = "b2", segment = "g1", at = 20 }, { name = "b3", segment = "g5", at = 20 },
  { name = "c1", segment = "g3", at = 30 }, { name = "c2", segment = "g1", at = 30 }, { name = "c3", segment = "g5", at = 30 },
]
repeater = [
  { name = "r1", delay = 28, port = [{ segment = "g1", at = 44 }, { segment = "g2", at = 0 }] },
  { name = "r2", delay = 28, port = [{ segment = "g2", at = 44 }, { segment = "g3", at = 0 }] },
  { name = "r3", delay = 28, port = [{ segment = "g3", at = 44 }, { segment = "g4", at = 0 }] },
  { name = "r4", delay = 28, port = [{ segment = "g4", at = 44 }, { segment = "g5", at = 0 }] },
]
send = [
  { station = "e1", at = 0, octets = "ffffffffffff0200000000010800" },
  { station = "e2", at = 100, octets = "ffffffffffff0200000000020800" },
  { station = "b1", at = 2000, octets = "ffffffffffff0200000000030800" },
  { station = "c2", at = 2000, octets = "ffffffffffff0200000000040800" },
  { station = "e1", at = 2100, octets = "ffffffffffff0200000000010800" },
  { station = "a3", at = 4000, octets = "ffffffffffff0200000000050800" },
  { station = "e2", at = 6000, octets = "ffffffffffff0200000000020800" },
  { station = "e1", at = 17000, octets = "ffffffffffff0200000000010800" },
]
"#;

/// Whether so many workers log what the run half bit by half bit does, and the run was begun once and each of the nine
/// parts passed the gate for each window once, if there are several workers.
fn is_answered<X: Threads + Wait + Sync>(
    rt: &X,
    alloc: Global,
    plan: &Plan,
    workers: u32,
    plain: &Outputs,
) -> Result<bool, OutOfMemory>
    requires least { 1 ≤ workers }
    requires most { workers ≤ 64 }
{
    let entries = Entries::new(alloc, 9)?;
    let outputs = run_by_windows(rt, alloc, plan, workers, &entries)?;
    let same = outputs.rows.as_slice() == plain.rows.as_slice();
    Ok(same && (workers == 1 || entries.are_whole()))
}

/// The same of 1, 2, 3, 7 and 64 workers.
fn are_answered<X: Threads + Wait + Sync>(
    rt: &X,
    alloc: Global,
    plan: &Plan,
    plain: &Outputs,
) -> Result<bool, OutOfMemory> {
    Ok(
        is_answered(rt, alloc, plan, 1, plain)?
            && is_answered(rt, alloc, plan, 2, plain)?
            && is_answered(rt, alloc, plan, 3, plain)?
            && is_answered(rt, alloc, plan, 7, plain)?
            && is_answered(rt, alloc, plan, 64, plain)?,
    )
}

/// There are nine parts. With enough memory no run is made again by one worker alone.
#[test]
fn workers_answer_as_one_thread_does(rt: HostRuntime) -> Result<(), Fail> {
    let plan = plan_of(rt.alloc(), FIVE_SEGMENTS)?;
    let plain = run_plain(rt.alloc(), &plan)?;
    assert!(rt; are_answered(&rt, rt.alloc(), &plan, &plain)?);
    Ok(())
}

/// The plan of the layout of demo of a number.
fn plan_of_demo(alloc: Global, number: u32) -> Result<Plan, OutOfMemory>
    requires least { 1 ≤ number }
    requires most { number ≤ most_repeaters }
{
    let layout = demo(alloc, number)?;
    let loads = no_loads(alloc, layout.stations.len())?;
    make_plan(alloc, layout, loads)
}

/// Whether two workers make a run of a plan of so many parts that is begun once: none is missed when they are gathered.
fn is_begun_once<X: Threads + Wait + Sync>(
    rt: &X,
    alloc: Global,
    plan: &Plan,
    parts: usize,
) -> Result<bool, OutOfMemory> {
    let entries = Entries::new(alloc, parts)?;
    run_by_windows(rt, alloc, plan, 2, &entries)?;
    Ok(entries.are_whole())
}

/// 65 segments and 64 repeaters.
#[test]
fn parts_of_a_large_network_are_gathered(rt: HostRuntime) -> Result<(), Fail> {
    let plan = plan_of_demo(rt.alloc(), 64)?;
    assert!(rt; is_begun_once(&rt, rt.alloc(), &plan, 129)?);
    Ok(())
}

/// Whether the nine parts are whole after a run by so many workers, each part having passed the gate before each of its
/// windows.
fn is_watched<X: Threads + Wait + Sync>(
    rt: &X,
    alloc: Global,
    plan: &Plan,
    workers: u32,
) -> Result<bool, OutOfMemory>
    requires least { 1 ≤ workers }
    requires most { workers ≤ 64 }
{
    let entries = Entries::new(alloc, 9)?;
    let whole = is_run_watched::<SegmentPart, RepeaterPart, X>(rt, alloc, plan, workers, &entries)?;
    Ok(whole && entries.are_whole())
}

/// The same of 1, 2, 3, 7 and 64 workers.
fn are_watched<X: Threads + Wait + Sync>(
    rt: &X,
    alloc: Global,
    plan: &Plan,
) -> Result<bool, OutOfMemory> {
    Ok(
        is_watched(rt, alloc, plan, 1)?
            && is_watched(rt, alloc, plan, 2)?
            && is_watched(rt, alloc, plan, 3)?
            && is_watched(rt, alloc, plan, 7)?
            && is_watched(rt, alloc, plan, 64)?,
    )
}

#[test]
fn the_gate_comes_before_each_window(rt: HostRuntime) -> Result<(), Fail> {
    let plan = plan_of(rt.alloc(), FIVE_SEGMENTS)?;
    assert!(rt; are_watched(&rt, rt.alloc(), &plan)?);
    Ok(())
}
