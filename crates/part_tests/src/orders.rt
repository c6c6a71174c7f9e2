//! The three parts of a network in two shares, between which parcels are moved in two orders.
ghost use Rattle.std.specs.Prelude.{◌≡◌, ◌<◌, [], IfOk, OnOk, Some, length};
ghost use Rattle.exchange_core.specs.Shares.{rack};
ghost use Rattle.worker_gate.specs.PlannedShares.{IsPlannedShare};

use backoff_draw::Draws;
use case_support::plan_of;
use collision_log::{Body, Row, Rows, RowsList, merge};
use exchange_core::Share;
use lists::OutOfMemory;
use load_plan::Plan;
use net_parts::{Part, opening, windows};
use net_step::run_plain;
use repeater_engine::RepeaterPart;
use segment_engine::SegmentPart;
use std::alloc::Global;
use std::test::Fail;

type Parts = Share<SegmentPart, RepeaterPart>;

/// Two stations that collide over a repeater. The segments are parts 0 and 1, the repeater is part 2, and its edges are
/// 0 and 1.
const TWO_HOPS: &str = r#"format = 1
seed = 1
until_bits = 130
segment = [{ name = "x" }, { name = "y" }]
station = [{ name = "a", segment = "x", at = 0 }, { name = "b", segment = "y", at = 30 }]
repeater = [{ name = "r", delay = 16, port = [{ segment = "x", at = 20 }, { segment = "y", at = 0 }] }]
send = [
  { station = "a", at = 0, octets = "ffffffffffff0200000000010800" },
  { station = "b", at = 65, octets = "ffffffffffff0200000000010800" },
]
"#;

/// Adds a segment with the parcels of the first window.
fn add_segment<S: Part, R: Part>(
    share: &mut Share<S, R>,
    alloc: Global,
    plan: &Plan,
    part: S,
) -> Result<(), Fail>
    requires planned { IsPlannedShare (Some plan.now) share.old }
    requires alone { share.old.repeaters ≡ rack [] [] }
    requires plan { S.plan part ≡ plan.now }
    requires number { S.number part < length plan.now.layout.segments }
    requires start { S.at part ≡ 0 }
    ensures planned { OnOk result (IsPlannedShare (Some plan.now) share.new) }
    ensures alone { OnOk result (share.new.repeaters ≡ rack [] []) }
{
    let number = part.part();
    if share.owns(number) {
        return Err(Fail::from("twice"));
    }
    let parcels = opening(alloc, plan, number)?;
    share.add_segment(part, parcels)?;
    Ok(())
}

/// A share of two segments.
fn segments_of(alloc: Global, plan: &Plan) -> Result<Parts, Fail>
    requires { length plan.now.layout.segments ≡ 2 }
    ensures { IfOk result (λ share. IsPlannedShare (Some plan.now) share) }
{
    let mut share = Share::new(alloc);
    let x = SegmentPart::new(alloc, plan, 0)?;
    add_segment(&mut share, alloc, plan, x)?;
    let y = SegmentPart::new(alloc, plan, 1)?;
    add_segment(&mut share, alloc, plan, y)?;
    Ok(share)
}

/// A share of a repeater.
fn repeater_of(alloc: Global, plan: &Plan) -> Result<Parts, Fail>
    requires { length plan.now.layout.repeaters ≡ 1 }
    ensures { IfOk result (λ share. IsPlannedShare (Some plan.now) share) }
{
    let mut share = Share::new(alloc);
    let r = RepeaterPart::new(alloc, plan, 0)?;
    share.add_repeater(r)?;
    Ok(share)
}

/// Makes a window of a part whose parcels are here.
fn make<S: Part, R: Part>(share: &mut Share<S, R>, plan: &Plan, part: u32) -> Result<(), Fail>
    requires { IsPlannedShare (Some plan.now) share.old }
    ensures { OnOk result (IsPlannedShare (Some plan.now) share.new) }
{
    if !share.owns(part) {
        return Err(Fail::from("not owned"));
    }
    share.reserve(part)?;
    if !share.owns(part) || !share.ready(part) || !share.clean(part) || share.lost(part) {
        return Err(Fail::from("may not run"));
    }
    share.run(part);
    Ok(())
}

/// Carries the parcel of an edge from one share to the other.
fn carry<S: Part, R: Part>(
    from: &mut Share<S, R>,
    to: &mut Share<S, R>,
    plan: &Plan,
    edge: u32,
) -> Result<(), Fail>
    requires from { IsPlannedShare (Some plan.now) from.old }
    requires to { IsPlannedShare (Some plan.now) to.old }
    ensures from { OnOk result (IsPlannedShare (Some plan.now) from.new) }
    ensures to { OnOk result (IsPlannedShare (Some plan.now) to.new) }
{
    if !from.refilled(edge) {
        return Err(Fail::from("not refilled"));
    }
    let parcel = from.post(edge);
    if !to.awaits(&parcel) {
        return Err(Fail::from("not awaited"));
    }
    to.take(parcel);
    Ok(())
}

/// Whether a part is owned and not ready.
fn waits<S: Part, R: Part>(share: &Share<S, R>, part: u32) -> bool {
    share.owns(part) && !share.ready(part)
}

/// Makes so many windows of each part. Of the edges `first` and `second` the parcel of the first is carried first, to
/// the repeater and back, and the repeater waits for the second.
fn run<S: Part, R: Part>(
    segments: &mut Share<S, R>,
    repeater: &mut Share<S, R>,
    plan: &Plan,
    windows: u64,
    first: u32,
    second: u32,
) -> Result<(), Fail>
    requires segments { IsPlannedShare (Some plan.now) segments.old }
    requires repeater { IsPlannedShare (Some plan.now) repeater.old }
{
    for _window in 0..windows {
        make(segments, plan, 0)?;
        make(segments, plan, 1)?;
        carry(segments, repeater, plan, first)?;
        if !waits(repeater, 2) {
            return Err(Fail::from("ready with one parcel"));
        }
        carry(segments, repeater, plan, second)?;
        make(repeater, plan, 2)?;
        carry(repeater, segments, plan, first)?;
        carry(repeater, segments, plan, second)?;
    }
    Ok(())
}

/// The rows of the parts of both shares.
fn rows_of(alloc: Global, segments: Parts, repeater: Parts) -> Result<Rows, OutOfMemory> {
    let mut logs = RowsList::new(alloc);
    let (parts, _) = segments.into_parts();
    for part in parts {
        logs.push(part.take_out()?.rows)?;
    }
    let (_, parts) = repeater.into_parts();
    for part in parts {
        logs.push(part.take_out()?.rows)?;
    }
    merge(alloc, logs)
}

/// The rows of a plan of two segments and a repeater, where the parcels of these edges are carried in this order.
fn rows_in_order(alloc: Global, plan: &Plan, first: u32, second: u32) -> Result<Rows, Fail> {
    if plan.layout.segments.len() != 2 || plan.layout.repeaters.len() != 1 {
        return Err(Fail::from("another layout"));
    }
    let mut segments = segments_of(alloc, plan)?;
    let mut repeater = repeater_of(alloc, plan)?;
    run(
        &mut segments,
        &mut repeater,
        plan,
        windows(plan),
        first,
        second,
    )?;
    Ok(rows_of(alloc, segments, repeater)?)
}

/// The row of a station whose first frame collided, with the draw of the first attempt.
fn collided(t: u64, device: u32, start: u64, hit: u32) -> Row {
    let body = Body::Collided {
        frame: 1,
        start,
        attempt: 1,
        hit,
        drawn: Draws::new(1, device).draw(1),
    };
    Row { t, device, body }
}

/// Whether these are the rows where the parcels of these edges are carried in this order.
fn are_rows_in_order(
    alloc: Global,
    plan: &Plan,
    first: u32,
    second: u32,
    want: &[Row],
) -> Result<bool, Fail> {
    let rows = rows_in_order(alloc, plan, first, second)?;
    Ok(rows.as_slice() == want)
}

/// Whether these are the rows of the network that is run half bit by half bit.
fn are_plain_rows(alloc: Global, plan: &Plan, want: &[Row]) -> Result<bool, Fail> {
    let plain = run_plain(alloc, plan)?;
    Ok(plain.rows.as_slice() == want)
}

/// Whichever parcel comes first, the rows are those of the network that is run half bit by half bit.
#[test]
fn the_order_of_parcels_changes_no_row(rt: HostRuntime) -> Result<(), Fail> {
    let clash = Row {
        t: 95,
        device: 2,
        body: Body::Clash,
    };
    let want = [clash, collided(196, 0, 0, 131), collided(257, 1, 65, 1)];
    let plan = plan_of(rt.alloc(), TWO_HOPS)?;
    assert!(rt; are_plain_rows(rt.alloc(), &plan, &want)?);
    assert!(rt; are_rows_in_order(rt.alloc(), &plan, 0, 1, &want)?);
    assert!(rt; are_rows_in_order(rt.alloc(), &plan, 1, 0, &want)?);
    Ok(())
}
