//! The run of a plan by workers.
ghost use Rattle.std.specs.Prelude.{◌≡◌, ◌<◌, ◌≤◌, ◌+◌, IfOk, IfSome, Some, length};
ghost use Rattle.worker_gate.specs.FinishedParts.{AreFinished};
ghost use Rattle.worker_gate.specs.PartMakers.{MakesSegments, MakesRepeaters};

use crate::crew::make_kits;
use crate::gather::{gather, put_parts};
use crate::kit::Kit;
use crate::threads::run_threads;
use exchange_core::PartList;
use lists::OutOfMemory;
use load_plan::Plan;
use net_parts::{Pace, Part};
use outside::Gate;
use std::alloc::Global;
use std::marker::Brand;
use std::sync::Wait;
use std::thread::Threads;
use window_exchange::Planned;

/// Runs a plan at its pace by 1 to 64 workers, the caller being one of them, on parts that closures make:
/// `make_segment` and `make_repeater` are told the number of a segment and of a repeater, from 0. The gate is told that
/// the run begins.
/// Answers the parts, each once, in order of numbers, each with all its windows made; none where the workers' parts
/// aren't whole at the end; or want of memory. It may wait.
pub fn run_planned<
    S: Part,
    R: Part,
    F: Fn(u32) -> Result<S, OutOfMemory>,
    H: Fn(u32) -> Result<R, OutOfMemory>,
    G: Gate,
    X: Threads + Wait + Sync,
>(
    rt: &X,
    alloc: Global,
    plan: &Plan,
    pace: &Pace,
    workers: u32,
    gate: &G,
    make_segment: &F,
    make_repeater: &H,
) -> Result<Option<(PartList<S>, PartList<R>)>, OutOfMemory>
    requires paced { pace.now.plan.value ≡ plan.now }
    requires least { 1 ≤ workers }
    requires most { workers ≤ 64 }
    requires segments { MakesSegments S.plan S.number S.at plan.now (F.pre make_segment.now) (F.post make_segment.now) }
    requires repeaters { MakesRepeaters R.plan R.number R.at plan.now (H.pre make_repeater.now) (H.post make_repeater.now) }
    ensures segments { IfOk result (λ o. IfSome o (λ r. AreFinished S.plan S.number S.at plan.now 0 (length plan.now.layout.segments) r.0.items)) }
    ensures repeaters { IfOk result (λ o. IfSome o (λ r. AreFinished R.plan R.number R.at plan.now (length plan.now.layout.segments) (length plan.now.layout.repeaters) r.1.items)) }
{
    let layout = &plan.layout;
    let parts = layout.segments.len() as u32 + layout.repeaters.len() as u32;
    let half_bits = layout.half_bits();
    gate.begin(parts, pace.windows, half_bits);
    run_boxed::<Brand, S, R, F, H, X>(rt, alloc, plan, pace, workers, make_segment, make_repeater)
}

/// The same for a plan that a type carries, without the gate.
fn run_boxed<
    P: Planned + Send,
    S: Part,
    R: Part,
    F: Fn(u32) -> Result<S, OutOfMemory>,
    H: Fn(u32) -> Result<R, OutOfMemory>,
    X: Threads + Wait + Sync,
>(
    rt: &X,
    alloc: Global,
    plan: &Plan,
    pace: &Pace,
    workers: u32,
    segment: &F,
    repeater: &H,
) -> Result<Option<(Vec<S>, Vec<R>)>, OutOfMemory>
    requires least { 1 ≤ workers }
    requires boxed { Some plan.now ≡ P.plan }
    requires paced { pace.now.plan.value ≡ plan.now }
    requires segments { MakesSegments S.plan S.number S.at plan.now (F.pre segment.now) (F.post segment.now) }
    requires repeaters { MakesRepeaters R.plan R.number R.at plan.now (H.pre repeater.now) (H.post repeater.now) }
    ensures segments { IfOk result (λ o. IfSome o (λ r. AreFinished S.plan S.number S.at plan.now 0 (length plan.now.layout.segments) r.0.items)) }
    ensures repeaters { IfOk result (λ o. IfSome o (λ r. AreFinished R.plan R.number R.at plan.now (length plan.now.layout.segments) (length plan.now.layout.repeaters) r.1.items)) }
{
    let kits = make_kits::<P, S, R, F, H>(alloc, plan, pace, workers, segment, repeater)?;
    let kits = run_threads(rt, alloc, plan, workers, kits)?;
    whole::<P, S, R>(alloc, plan, kits)
}

/// All parts of the kits in order; none where one isn't there or hasn't made all windows. Where a part was given up,
/// memory was short.
fn whole<P: Planned + Send, S: Part, R: Part>(
    alloc: Global,
    plan: &Plan,
    kits: Vec<Kit<P, S, R>>,
) -> Result<Option<(Vec<S>, Vec<R>)>, OutOfMemory>
    requires boxed { Some plan.now ≡ P.plan }
    ensures segments { IfOk result (λ o. IfSome o (λ r. AreFinished S.plan S.number S.at plan.now 0 (length plan.now.layout.segments) r.0.items)) }
    ensures repeaters { IfOk result (λ o. IfSome o (λ r. AreFinished R.plan R.number R.at plan.now (length plan.now.layout.segments) (length plan.now.layout.repeaters) r.1.items)) }
{
    let first = plan.layout.segments.len() as u32;
    let others = plan.layout.repeaters.len() as u32;
    let mut segments = Vec::new(alloc);
    let mut repeaters = Vec::new(alloc);
    for kit in kits {
        if !kit.is_kept() {
            return Err(OutOfMemory);
        }
        let (some, more) = kit.into_parts();
        put_parts::<P, S>(&mut segments, some)?;
        put_parts::<P, R>(&mut repeaters, more)?;
    }
    let Some(segments) = gather(alloc, plan, segments, 0, first)? else {
        return Ok(None);
    };
    let Some(repeaters) = gather(alloc, plan, repeaters, first, others)? else {
        return Ok(None);
    };
    Ok(Some((segments, repeaters)))
}
