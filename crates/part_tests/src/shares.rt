//! Shares of parts in memory, whose calls are asked in each state of a part.
ghost use Rattle.std.specs.Prelude.{◌≡◌, IfOk, IsTrue, true};
ghost use Rattle.exchange_core.specs.Holdings.{refused_holding};
ghost use Rattle.exchange_core.specs.Shares.{owns, change};

use crate::fake_part::FakePart;
use case_support::plan_of;
use exchange_core::{PartList, Share};
use load_plan::Plan;
use net_parts::{Parcel, Part, opening};
use std::alloc::Global;
use std::test::Fail;

type FakeShare = Share<FakePart, FakePart>;

/// One segment with two stations.
const ONE_SEGMENT: &str = r#"format = 1
seed = 1
until_bits = 6000
segment = [{ name = "x" }]
station = [{ name = "a", segment = "x", at = 0 }, { name = "b", segment = "x", at = 1 }]
"#;

/// Two segments, which are parts 0 and 1, and a repeater between them, which is part 2.
const TWO_SEGMENTS: &str = r#"format = 1
seed = 1
until_bits = 6000
segment = [{ name = "x" }, { name = "y" }]
station = [{ name = "a", segment = "x", at = 0 }, { name = "b", segment = "y", at = 5 }]
repeater = [{ name = "r", delay = 16, port = [{ segment = "x", at = 20 }, { segment = "y", at = 0 }] }]
"#;

/// What a share tells of a part.
#[derive(Clone, Copy, Debug, PartialEq, Eq)]
struct PartTold {
    window: u64,
    ready: bool,
    clean: bool,
    lost: bool,
}

fn state_of(share: &FakeShare, part: u32) -> Option<PartTold> {
    if !share.owns(part) {
        return None;
    }
    Some(PartTold {
        window: share.window(part),
        ready: share.ready(part),
        clean: share.clean(part),
        lost: share.lost(part),
    })
}

/// A share of one segment.
fn share_of_segment(alloc: Global, plan: &Plan, segment: u32) -> Result<FakeShare, Fail> {
    if segment as usize >= plan.layout.segments.len() {
        return Err(Fail::from("another layout"));
    }
    let mut share = Share::new(alloc);
    let parcels = opening(alloc, plan, segment)?;
    let part = FakePart::new(alloc, plan, segment)?;
    share.add_segment(part, parcels)?;
    Ok(share)
}

/// A share of the first of two segments and the repeater.
fn share_with_repeater(alloc: Global, plan: &Plan) -> Result<FakeShare, Fail> {
    if plan.layout.segments.len() != 2 || plan.layout.repeaters.len() != 1 {
        return Err(Fail::from("another layout"));
    }
    let mut share = Share::new(alloc);
    let parcels = opening(alloc, plan, 0)?;
    let segment = FakePart::new(alloc, plan, 0)?;
    share.add_segment(segment, parcels)?;
    let repeater = FakePart::new(alloc, plan, 2)?;
    share.add_repeater(repeater)?;
    Ok(share)
}

/// Makes a window of a part.
fn make_window(share: &mut FakeShare, part: u32) -> Result<(), Fail> {
    if !share.owns(part) {
        return Err(Fail::from("not owned"));
    }
    share.reserve(part)?;
    if !share.owns(part) || !share.ready(part) || !share.clean(part) || share.lost(part) {
        return Err(Fail::from("may not run"));
    }
    share.run(part);
    Ok(())
}

/// Whether there is no room for a window of a part.
fn is_refused(share: &mut FakeShare, part: u32) -> bool
    requires { owns part share.old ≡ true }
    ensures { IsTrue result → share.new ≡ change refused_holding part share.old }
{
    match share.reserve(part) {
        Ok(()) => false,
        Err(_) => true,
    }
}

/// Gives up a part whose room is refused.
fn give_up(share: &mut FakeShare, part: u32) -> Result<(), Fail> {
    if !share.owns(part) {
        return Err(Fail::from("not owned"));
    }
    if !is_refused(share, part) {
        return Err(Fail::from("room"));
    }
    if !share.owns(part) || !share.ready(part) {
        return Err(Fail::from("not ready"));
    }
    share.spoil(part);
    Ok(())
}

/// Gives up a part that is lost, or one of whose parcels is spoiled.
fn pass_on(share: &mut FakeShare, part: u32) -> Result<(), Fail> {
    if !share.owns(part) || !share.ready(part) {
        return Err(Fail::from("not ready"));
    }
    if share.clean(part) && !share.lost(part) {
        return Err(Fail::from("no cause"));
    }
    share.spoil(part);
    Ok(())
}

/// Hands out a spoiled parcel.
fn post(share: &mut FakeShare, edge: u32) -> Result<Parcel, Fail>
    ensures { IfOk result (λ parcel. parcel.spoiled ≡ true) }
{
    if !share.refilled(edge) {
        return Err(Fail::from("not refilled"));
    }
    let parcel = share.post(edge);
    if !parcel.spoiled {
        return Err(Fail::from("not spoiled"));
    }
    Ok(parcel)
}

/// Takes a spoiled parcel.
fn take(share: &mut FakeShare, parcel: Parcel) -> Result<(), Fail>
    requires { parcel.spoiled ≡ true }
{
    if !share.awaits(&parcel) {
        return Err(Fail::from("not awaited"));
    }
    share.take(parcel);
    Ok(())
}

/// The numbers and the windows of parts.
fn stand(parts: &PartList<FakePart>) -> Option<(u32, u64)> {
    let part = parts.first()?;
    Some((part.part(), part.window()))
}

/// The part of one segment in a share, which stands before its first window.
fn lone_share(alloc: Global) -> Result<FakeShare, Fail> {
    let plan = plan_of(alloc, ONE_SEGMENT)?;
    share_of_segment(alloc, &plan, 0)
}

/// A part that may make its first window.
const NEW: PartTold = PartTold {
    window: 0,
    ready: true,
    clean: true,
    lost: false,
};

/// A part that was given up before its first window.
const GONE: PartTold = PartTold {
    window: 1,
    ready: false,
    clean: false,
    lost: true,
};

/// A repeater that waits for a parcel of its first window.
const WAITS: PartTold = PartTold {
    window: 0,
    ready: false,
    clean: false,
    lost: false,
};

/// Whether the part is the share's own and new.
fn is_lone(share: &FakeShare) -> bool {
    share.owns(0) && !share.owns(1) && !share.refilled(0) && state_of(share, 0) == Some(NEW)
}

/// Whether the part makes a window.
fn makes_one(share: &mut FakeShare) -> Result<bool, Fail> {
    make_window(share, 0)?;
    Ok(state_of(share, 0) == Some(PartTold { window: 1, ..NEW }))
}

/// Whether the part is handed out behind that window.
fn is_handed_out(share: FakeShare) -> bool {
    let (segments, repeaters) = share.into_parts();
    segments.len() == 1 && repeaters.len() == 0 && stand(&segments) == Some((0, 1))
}

/// A part without edges makes a window and is handed out behind it.
#[test]
fn a_part_runs(rt: HostRuntime) -> Result<(), Fail> {
    let mut share = lone_share(rt.alloc())?;
    assert!(rt; is_lone(&share));
    assert!(rt; makes_one(&mut share)?);
    assert!(rt; is_handed_out(share));
    Ok(())
}

/// The first segment and the repeater, and the second segment, in two shares.
fn two_shares(alloc: Global) -> Result<(FakeShare, FakeShare), Fail> {
    let plan = plan_of(alloc, TWO_SEGMENTS)?;
    let near = share_with_repeater(alloc, &plan)?;
    let far = share_of_segment(alloc, &plan, 1)?;
    Ok((near, far))
}

/// Whether both segments are in these states.
fn are_both(near: &FakeShare, far: &FakeShare, told: PartTold) -> bool {
    state_of(near, 0) == Some(told) && state_of(far, 1) == Some(told)
}

/// Whether both segments are new, and the repeater waits for them.
fn are_new(near: &FakeShare, far: &FakeShare) -> bool {
    are_both(near, far, NEW)
        && state_of(near, 1) == None
        && state_of(near, 2) == Some(WAITS)
        && !near.refilled(0)
        && !far.refilled(1)
}

/// Whether both segments are given up, and so hand out parcels.
fn are_given_up(near: &mut FakeShare, far: &mut FakeShare) -> Result<bool, Fail> {
    give_up(near, 0)?;
    give_up(far, 1)?;
    Ok(are_both(near, far, GONE) && near.refilled(0) && !near.refilled(1) && far.refilled(1))
}

/// Whether this is the parcel that the first segment handed out to the repeater.
fn is_first(near: &FakeShare, far: &FakeShare, first: &Parcel) -> bool {
    (first.edge, first.window, first.to_repeater) == (0, 0, true)
        && near.awaits(first)
        && !far.awaits(first)
        && !near.refilled(0)
}

/// Whether the first segment's parcel goes to the repeater, which still waits.
fn goes_first(near: &mut FakeShare, far: &FakeShare) -> Result<bool, Fail> {
    let first = post(near, 0)?;
    let right = is_first(near, far, &first);
    take(near, first)?;
    Ok(right && state_of(near, 2) == Some(WAITS))
}

/// Whether the second segment's parcel goes to the repeater, which then waits no more.
fn goes_second(near: &mut FakeShare, far: &mut FakeShare) -> Result<bool, Fail> {
    let second = post(far, 1)?;
    let right = (second.edge, second.window, second.symbols.len()) == (1, 0, 0);
    take(near, second)?;
    let ready = PartTold {
        ready: true,
        ..WAITS
    };
    Ok(right && state_of(near, 2) == Some(ready))
}

/// Whether the repeater is given up, and its first parcel goes back within its share.
fn goes_back(near: &mut FakeShare) -> Result<bool, Fail> {
    pass_on(near, 2)?;
    let gone = state_of(near, 2) == Some(GONE);
    let back = post(near, 0)?;
    let right = (back.edge, back.window, back.to_repeater) == (0, 1, false);
    take(near, back)?;
    Ok(gone && right)
}

/// Whether its second parcel goes to the other share, and both segments may go on.
fn goes_across(near: &mut FakeShare, far: &mut FakeShare) -> Result<bool, Fail> {
    let across = post(near, 1)?;
    let right = !near.awaits(&across) && far.awaits(&across);
    take(far, across)?;
    let home = PartTold {
        ready: true,
        ..GONE
    };
    Ok(right && are_both(near, far, home))
}

/// Whether the second segment is given up before its second window too.
fn is_passed_on(far: &mut FakeShare) -> Result<bool, Fail> {
    pass_on(far, 1)?;
    Ok(state_of(far, 1) == Some(PartTold { window: 2, ..GONE }))
}

/// Whether the parcels go round.
fn go_round(near: &mut FakeShare, far: &mut FakeShare) -> Result<bool, Fail> {
    if !are_new(near, far) || !are_given_up(near, far)? {
        return Ok(false);
    }
    if !goes_first(near, far)? || !goes_second(near, far)? {
        return Ok(false);
    }
    if !goes_back(near)? || !goes_across(near, far)? {
        return Ok(false);
    }
    is_passed_on(far)
}

/// Whether the parts come out as they were made, since none made a window.
fn are_as_made(near: FakeShare) -> bool {
    let (segments, repeaters) = near.into_parts();
    stand(&segments) == Some((0, 0)) && stand(&repeaters) == Some((2, 0))
}

/// Spoiled parcels go from both segments to the repeater and back, within a share and between two.
#[test]
fn parcels_go_round(rt: HostRuntime) -> Result<(), Fail> {
    let (mut near, mut far) = two_shares(rt.alloc())?;
    assert!(rt; go_round(&mut near, &mut far)?);
    assert!(rt; are_as_made(near));
    Ok(())
}
