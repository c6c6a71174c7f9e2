//! How far each gap and each delay of a layout can grow.
ghost use Rattle.std.specs.Prelude.{◌≡◌, ℕ, ◌+◌, ◌*◌, ◌<◌, ◌≤◌, ◌↔◌, true, All, IfOk, IfSome, OnOk, map, length};
ghost use Rattle.std.specs.Option.{ForSome};
ghost use Rattle.mac_parameters.specs.Parameters.{slot_time, interframe_gap};
ghost use Rattle.layout.specs.Joined.{counted_up};
ghost use Rattle.layout.specs.Sound.{IsSound};
ghost use Rattle.path_checker.specs.Far.{IsRight};
ghost use Rattle.path_checker.specs.Stops.{IsNetworkOf};
ghost use Rattle.path_slack.specs.Branches.{AreBranchesOf};
ghost use Rattle.path_slack.specs.Lengthened.{lengthened_gap, lengthened_delay};
ghost use Rattle.path_slack.specs.Slacks.{IsOverlong, IsSlack, IsReckoned, HasTapAt, lower_place, IsFirstPlace, IsLastPlace, AreGapsBelow, AreGaps, IsGapSlack, IsDelaySlack};

use crate::branches::{Branches, branches_of, worst_over, worst_through};
use crate::lengthen::MOST_DELAY;
use crate::places::at_of;
use crate::worst::FarthestPair;
use layout::Layout;
use lists::{List, OutOfMemory};
use mac_parameters::{GREATEST_PLACE, INTERFRAME_GAP, SLOT_TIME};
use path_checker::{Network, PathVerdict, ReachTable, check_paths, network_of, open_table};
use std::alloc::Global;

/// What stops a lengthening.
#[derive(Clone, Copy)]
pub enum Limit {
    /// The round trip of these two stations, which count from 0; `a` is below `b`.
    Pair { a: u32, b: u32 },
    /// The greatest place of a tap, or the greatest delay of a repeater.
    Bound,
}

/// How far a gap between two neighbouring places of a segment can grow, and what stops it; None where the layout itself
/// has a round trip of the slot time or more.
#[derive(Clone, Copy)]
pub struct GapSlack {
    /// The segment's number, from 0.
    pub segment: u32,
    /// The places of the two taps, in half bits from the cable's end.
    pub low: u32,
    pub high: u32,
    /// The slack in half bits.
    pub slack: Option<(u32, Limit)>,
}

/// How far a repeater's delay can grow, and what stops it; None where the layout itself has a round trip of the slot
/// time or more.
#[derive(Clone, Copy)]
pub struct DelaySlack {
    /// The repeater's number, from 0.
    pub repeater: u32,
    /// The slack in half bits.
    pub slack: Option<(u32, Limit)>,
}

/// The gaps, in order of segments and then of places.
pub type GapList = List<GapSlack>;

/// The delays, in the file's order.
pub type DelayList = List<DelaySlack>;

/// The slacks of a layout.
#[derive(Drop)]
pub struct Slacks {
    pub gaps: GapList,
    pub delays: DelayList,
}

/// Whether some round trip of a layout is the slot time or more.
fn is_over(alloc: Global, layout: &Layout) -> Result<bool, OutOfMemory>
    requires { IsSound layout.now }
    ensures { IfOk result (λ over. (over ≡ true) ↔ IsOverlong layout.now) }
{
    match check_paths(alloc, layout)? {
        PathVerdict::Over { .. } => Ok(true),
        PathVerdict::Within { .. } => Ok(false),
        PathVerdict::NoPair => Ok(false),
    }
}

/// The greatest lengthening that the bound and the worst pair leave.
fn reckoned(room: u32, worst: Option<FarthestPair>) -> (u32, Limit)
    requires { ForSome worst (λ w. 2 * w.length + interframe_gap < slot_time) }
    ensures { IsReckoned room worst result }
{
    let Some(FarthestPair { length, a, b }) = worst else {
        return (room, Limit::Bound);
    };
    let spare = (SLOT_TIME - 1 - INTERFRAME_GAP) / 2 - length;
    if spare <= room {
        (spare, Limit::Pair { a, b })
    } else {
        (room, Limit::Bound)
    }
}

/// The lower one of a place, if there is one, and another.
fn lower_place(first: Option<u32>, at: u32) -> Option<u32>
    ensures { result ≡ lower_place first at }
{
    match first {
        None => Some(at),
        Some(p) => { if at < p { Some(at) } else { first } }
    }
}

/// The first place from `from` on at which a tap of the segment stands.
fn first_place(layout: &Layout, branches: &Branches, from: u32) -> Option<u32>
    requires { AreBranchesOf layout.now branches.now.segment branches.now.list }
    ensures { IsFirstPlace layout.now branches.now.segment from result }
{
    let list = branches.list.as_slice();
    let mut first = None;
    for branch in list {
        let at = at_of(layout, branch.tap);
        if at < from {
            continue;
        }
        first = lower_place(first, at);
    }
    first
}

/// The last place at which a tap of the segment stands, and 0 if there is none.
fn last_place(layout: &Layout, branches: &Branches) -> u32
    requires { AreBranchesOf layout.now branches.now.segment branches.now.list }
    ensures { IsLastPlace layout.now branches.now.segment result }
{
    let list = branches.list.as_slice();
    let mut last = 0;
    for branch in list {
        let at = at_of(layout, branch.tap);
        if at <= last {
            continue;
        }
        last = at;
    }
    last
}

/// The slack of the gap below the place `high` of a segment whose last tap stands at `last`.
fn gap_slack(
    layout: &Layout,
    branches: &Branches,
    last: u32,
    high: u32,
    over: bool,
) -> Option<(u32, Limit)>
    requires sound { IsSound layout.now }
    requires branches { AreBranchesOf layout.now branches.now.segment branches.now.list }
    requires last { IsLastPlace layout.now branches.now.segment last }
    requires high { HasTapAt layout.now branches.now.segment high }
    requires above { 1 ≤ high }
    requires over { (over ≡ true) ↔ IsOverlong layout.now }
    ensures { IsSlack layout.now (lengthened_gap layout.now branches.now.segment high) result }
{
    if over {
        return None;
    }
    Some(reckoned(GREATEST_PLACE - last, worst_over(layout, branches, high)))
}

/// Puts the gaps of a segment at the end of a list that has those of the segments before it.
fn push_gaps(
    gaps: &mut GapList,
    layout: &Layout,
    branches: &Branches,
    over: bool,
) -> Result<(), OutOfMemory>
    requires sound { IsSound layout.now }
    requires branches { AreBranchesOf layout.now branches.now.segment branches.now.list }
    requires over { (over ≡ true) ↔ IsOverlong layout.now }
    requires gaps { AreGapsBelow layout.now branches.now.segment 0 gaps.old }
    requires slacks { All (IsGapSlack layout.now) gaps.old }
    ensures gaps { OnOk result (AreGapsBelow layout.now (branches.now.segment + 1) 0 gaps.new) }
    ensures slacks { OnOk result (All (IsGapSlack layout.now) gaps.new) }
{
    let last = last_place(layout, branches);
    let Some(first) = first_place(layout, branches, 0) else {
        return Ok(());
    };
    let mut low = first;
    while let Some(high) = first_place(layout, branches, low + 1) {
        gaps.push(GapSlack {
            segment: branches.segment,
            low,
            high,
            slack: gap_slack(layout, branches, last, high, over),
        })?;
        low = high;
    }
    Ok(())
}

fn gap_slacks(
    alloc: Global,
    layout: &Layout,
    network: &Network,
    table: &mut ReachTable,
    over: bool,
) -> Result<GapList, OutOfMemory>
    requires sound { IsSound layout.now }
    requires network { IsNetworkOf layout.now network.now }
    requires table { IsRight layout.now table.old }
    requires over { (over ≡ true) ↔ IsOverlong layout.now }
    ensures gaps { IfOk result (AreGaps layout.now) }
    ensures slacks { IfOk result (All (IsGapSlack layout.now)) }
    ensures table { IsRight layout.now table.new }
{
    let mut gaps = List::new(alloc);
    for segment in 0..layout.segments.len() {
        let branches = branches_of(alloc, layout, network, table, segment as u32)?;
        push_gaps(&mut gaps, layout, &branches, over)?;
    }
    Ok(gaps)
}

/// The slack of a repeater's delay.
fn delay_slack(
    layout: &Layout,
    network: &Network,
    table: &mut ReachTable,
    repeater: u32,
    over: bool,
) -> Option<(u32, Limit)>
    requires sound { IsSound layout.now }
    requires network { IsNetworkOf layout.now network.now }
    requires table { IsRight layout.now table.old }
    requires repeater { repeater < length layout.now.repeaters }
    requires over { (over ≡ true) ↔ IsOverlong layout.now }
    ensures slack { IsSlack layout.now (lengthened_delay layout.now repeater) result }
    ensures table { IsRight layout.now table.new }
{
    if over {
        return None;
    }
    let delay = layout.repeaters.get(repeater as usize).delay;
    Some(reckoned(
        MOST_DELAY - delay,
        worst_through(layout, network, table, repeater),
    ))
}

fn delay_slacks(
    alloc: Global,
    layout: &Layout,
    network: &Network,
    table: &mut ReachTable,
    over: bool,
) -> Result<DelayList, OutOfMemory>
    requires sound { IsSound layout.now }
    requires network { IsNetworkOf layout.now network.now }
    requires table { IsRight layout.now table.old }
    requires over { (over ≡ true) ↔ IsOverlong layout.now }
    ensures repeaters { IfOk result (λ ds. map (λ d. d.repeater) ds ≡ counted_up (length layout.now.repeaters)) }
    ensures slacks { IfOk result (All (IsDelaySlack layout.now)) }
{
    let mut delays = List::new(alloc);
    for k in 0..layout.repeaters.len() {
        let repeater = k as u32;
        delays.push(DelaySlack {
            repeater,
            slack: delay_slack(layout, network, table, repeater, over),
        })?;
    }
    Ok(delays)
}

/// How far each gap between neighbouring taps of a segment and each repeater's delay can grow, so that all places and
/// delays keep their bounds and the worst round trip stays below the slot time, and what stops it one half bit later:
/// the first pair of stations that then has the worst round trip, or a bound. A slack is None exactly where the layout
/// itself is over. Gaps come in order of segments and then of places, delays in the file's order. The only error is
/// want of memory.
pub fn path_slack(alloc: Global, layout: &Layout) -> Result<Slacks, OutOfMemory>
    requires { IsSound layout.now }
    ensures gaps { IfOk result (λ s. AreGaps layout.now s.gaps) }
    ensures gap_slacks { IfOk result (λ s. All (IsGapSlack layout.now) s.gaps) }
    ensures delays { IfOk result (λ s. map (λ d. d.repeater) s.delays ≡ counted_up (length layout.now.repeaters)) }
    ensures delay_slacks { IfOk result (λ s. All (IsDelaySlack layout.now) s.delays) }
{
    let over = is_over(alloc, layout)?;
    let network = network_of(alloc, layout)?;
    let mut table = open_table(alloc, layout.repeaters.len())?;
    let gaps = gap_slacks(alloc, layout, &network, &mut table, over)?;
    let delays = delay_slacks(alloc, layout, &network, &mut table, over)?;
    Ok(Slacks { gaps, delays })
}
