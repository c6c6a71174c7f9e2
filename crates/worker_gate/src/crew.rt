//! The kits of a run.
ghost use Rattle.std.specs.Prelude.{◌≡◌, ◌<◌, ◌+◌, IfOk, Some, length};
ghost use Rattle.worker_gate.specs.PartMakers.{MakesSegments, MakesRepeaters};
ghost use Rattle.worker_gate.specs.PlannedShares.{HasNoneFrom};

use crate::desk::{Desk, Segments};
use crate::kit::Kit;
use lists::OutOfMemory;
use load_plan::Plan;
use net_parts::{Pace, Part};
use part_dealing::{Duties, last_segment, leads_out, outlets_of, owner_of, owners};
use std::alloc::Global;
use window_exchange::Planned;

/// A kit for each of so many workers. They have all parts together, each part once; that shows when they are gathered.
pub fn make_kits<
    P: Planned,
    S: Part,
    R: Part,
    F: Fn(u32) -> Result<S, OutOfMemory>,
    H: Fn(u32) -> Result<R, OutOfMemory>,
>(
    alloc: Global,
    plan: &Plan,
    pace: &Pace,
    workers: u32,
    segment: &F,
    repeater: &H,
) -> Result<Vec<Kit<P, S, R>>, OutOfMemory>
    requires boxed { Some plan.now ≡ P.plan }
    requires paced { pace.now.plan.value ≡ plan.now }
    requires segments { MakesSegments S.plan S.number S.at plan.now (F.pre segment.now) (F.post segment.now) }
    requires repeaters { MakesRepeaters R.plan R.number R.at plan.now (H.pre repeater.now) (H.post repeater.now) }
    ensures { IfOk result (λ kits. length kits.items ≡ workers) }
{
    let owners = owners(alloc, &plan.layout, workers)?;
    let mut kits = Vec::new(alloc);
    for number in 0..workers {
        let kit = make_kit(
            alloc,
            plan,
            pace,
            owners.as_slice(),
            number,
            segment,
            repeater,
        )?;
        kits.push(kit)?;
    }
    Ok(kits)
}

/// The kit of one worker.
#[tactic(auto, using(crate::proofs::FreeNumbers::same_from))]
fn make_kit<
    P: Planned,
    S: Part,
    R: Part,
    F: Fn(u32) -> Result<S, OutOfMemory>,
    H: Fn(u32) -> Result<R, OutOfMemory>,
>(
    alloc: Global,
    plan: &Plan,
    pace: &Pace,
    owners: &[u32],
    number: u32,
    segment: &F,
    repeater: &H,
) -> Result<Kit<P, S, R>, OutOfMemory>
    requires boxed { Some plan.now ≡ P.plan }
    requires paced { pace.now.plan.value ≡ plan.now }
    requires segments { MakesSegments S.plan S.number S.at plan.now (F.pre segment.now) (F.post segment.now) }
    requires repeaters { MakesRepeaters R.plan R.number R.at plan.now (H.pre repeater.now) (H.post repeater.now) }
{
    let mut duties = Duties::new(alloc);
    let segments: Segments<P, S, R> = deal_segments(
        alloc,
        plan,
        pace,
        owners,
        number,
        segment,
        &mut duties,
    )?;
    let mut desk = segments.into_desk();
    deal_repeaters(
        alloc,
        plan,
        owners,
        number,
        repeater,
        &mut desk,
        &mut duties,
    )?;
    Ok(Kit::new(number, pace, desk, duties))
}

/// The segments of one worker, and its duties with them.
#[tactic(auto, using(crate::proofs::FreeNumbers::nothing_from, crate::proofs::FreeNumbers::later_from, crate::proofs::FreeNumbers::free_from, crate::proofs::FreeNumbers::segment_from))]
fn deal_segments<P: Planned, S: Part, R: Part, F: Fn(u32) -> Result<S, OutOfMemory>>(
    alloc: Global,
    plan: &Plan,
    pace: &Pace,
    owners: &[u32],
    number: u32,
    segment: &F,
    duties: &mut Duties,
) -> Result<Segments<P, S, R>, OutOfMemory>
    requires boxed { Some plan.now ≡ P.plan }
    requires paced { pace.now.plan.value ≡ plan.now }
    requires segments { MakesSegments S.plan S.number S.at plan.now (F.pre segment.now) (F.post segment.now) }
    ensures { IfOk result (λ segments. HasNoneFrom (length plan.now.layout.segments) segments.share) }
{
    let mut segments = Segments::new(alloc);
    for i in 0..plan.layout.segments.len() as u32 {
        if owner_of(owners, i as usize) != number {
            continue;
        }
        let part = segment(i)?;
        segments.add(alloc, plan, pace, part)?;
        let outlets = outlets_of(alloc, plan, owners, i)?;
        duties.add(i, i, &outlets, leads_out(&outlets, number))?;
    }
    Ok(segments)
}

/// Gives one worker its repeaters, and its duties with them.
#[tactic(auto, using(crate::proofs::FreeNumbers::later_from, crate::proofs::FreeNumbers::free_from, crate::proofs::FreeNumbers::repeater_from))]
fn deal_repeaters<P: Planned, S: Part, R: Part, H: Fn(u32) -> Result<R, OutOfMemory>>(
    alloc: Global,
    plan: &Plan,
    owners: &[u32],
    number: u32,
    repeater: &H,
    desk: &mut Desk<P, S, R>,
    duties: &mut Duties,
) -> Result<(), OutOfMemory>
    requires boxed { Some plan.now ≡ P.plan }
    requires repeaters { MakesRepeaters R.plan R.number R.at plan.now (H.pre repeater.now) (H.post repeater.now) }
    requires free { HasNoneFrom (length plan.now.layout.segments) desk.old.share }
{
    let segments = plan.layout.segments.len();
    for i in 0..plan.layout.repeaters.len() as u32 {
        if owner_of(owners, segments + i as usize) != number {
            continue;
        }
        let part = repeater(i)?;
        let own = part.part();
        desk.add_repeater(plan, part)?;
        let outlets = outlets_of(alloc, plan, owners, own)?;
        let last = last_segment(&plan.layout, i as usize);
        duties.add(own, last, &outlets, leads_out(&outlets, number))?;
    }
    Ok(())
}
