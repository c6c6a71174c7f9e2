//! Parcels that go to and fro in a share.
ghost use Rattle.std.specs.Prelude.{◌≡◌, true, IfSome};

use case_support::plan_of;
use exchange_core::Share;
use lists::OutOfMemory;
use load_plan::Plan;
use net_parts::{Parcel, Part, Symbols, opening};
use repeater_engine::RepeaterPart;
use segment_engine::SegmentPart;
use std::alloc::Global;

type Parts = Share<SegmentPart, RepeaterPart>;

/// Two segments, which are parts 0 and 1, and a repeater between them, which is part 2. Its run has 761,905 windows.
const LAYOUT: &str =
    "format = 1\nseed = 1\nuntil_bits = 8000000\n[[segment]]\nname = \"x\"\n[[segment]]\nname = \"y\"\n[[station]]\nname = \"a\"\nsegment = \"x\"\nat = 0\n[[station]]\nname = \"b\"\nsegment = \"y\"\nat = 5\n[[repeater]]\nname = \"r\"\ndelay = 16\n[[repeater.port]]\nsegment = \"x\"\nat = 20\n[[repeater.port]]\nsegment = \"y\"\nat = 0\n";

/// How many windows the parts make. In each of them three parcels move: one from the segment to the repeater, one back,
/// and one out of the share and in again.
const WINDOWS: u32 = 666_667;

/// A share of the first segment and the repeater.
fn share(alloc: Global, plan: &Plan) -> Result<Parts, OutOfMemory> {
    if plan.layout.segments.len() != 2 || plan.layout.repeaters.len() != 1 {
        return Err(OutOfMemory);
    }
    let mut share = Share::new(alloc);
    let parcels = opening(alloc, plan, 0)?;
    let segment = SegmentPart::new(alloc, plan, 0)?;
    share.add_segment(segment, parcels)?;
    let repeater = RepeaterPart::new(alloc, plan, 0)?;
    share.add_repeater(repeater)?;
    Ok(share)
}

/// A spoiled parcel for the first window.
fn spoiled(alloc: Global, edge: u32, to_repeater: bool) -> Parcel
    ensures { result.spoiled ≡ true }
{
    Parcel {
        edge,
        window: 0,
        to_repeater,
        symbols: Symbols::none(alloc),
        spoiled: true,
    }
}

/// Gives a part up for its window, if its parcels are here and one of them is spoiled; they are turned and go on.
fn give_up<S: Part, R: Part>(share: &mut Share<S, R>, part: u32) {
    if !share.owns(part) || !share.ready(part) {
        return;
    }
    if share.clean(part) {
        return;
    }
    share.spoil(part);
}

/// Hands out a spoiled parcel.
fn post<S: Part, R: Part>(share: &mut Share<S, R>, edge: u32) -> Option<Parcel>
    ensures { IfSome result (λ parcel. parcel.spoiled ≡ true) }
{
    if !share.refilled(edge) {
        return None;
    }
    let parcel = share.post(edge);
    if !parcel.spoiled {
        return None;
    }
    Some(parcel)
}

/// Takes a spoiled parcel, and answers how many that is.
fn take<S: Part, R: Part>(share: &mut Share<S, R>, parcel: Parcel) -> u64
    requires { parcel.spoiled ≡ true }
{
    if !share.awaits(&parcel) {
        return 0;
    }
    share.take(parcel);
    1
}

/// Brings a parcel to the other part of the share, and answers how many that is.
fn bring<S: Part, R: Part>(share: &mut Share<S, R>, edge: u32) -> u64 {
    match post(share, edge) {
        Some(parcel) => take(share, parcel),
        None => 0,
    }
}

/// Lets the parcels go to and fro, and answers how often one moved.
fn go_round<S: Part, R: Part>(share: &mut Share<S, R>, first: Parcel) -> u64
    requires { first.spoiled ≡ true }
{
    let mut far = first;
    let mut moves = 0u64;
    for _window in 0..WINDOWS {
        give_up(share, 0);
        moves = moves.saturating_add(bring(share, 0));
        far.to_repeater = true;
        moves = moves.saturating_add(take(share, far));
        give_up(share, 2);
        moves = moves.saturating_add(bring(share, 0));
        let Some(next) = post(share, 1) else {
            break;
        };
        far = next;
    }
    moves
}

/// Moves 2,000,001 parcels, and answers how many it moved. All are spoiled, so that no part makes a window in earnest.
pub fn moves(alloc: Global) -> Result<u64, OutOfMemory> {
    let Ok(plan) = plan_of(alloc, LAYOUT) else {
        return Err(OutOfMemory);
    };
    let mut share = share(alloc, &plan)?;
    take(&mut share, spoiled(alloc, 0, false));
    Ok(go_round(&mut share, spoiled(alloc, 1, true)))
}
