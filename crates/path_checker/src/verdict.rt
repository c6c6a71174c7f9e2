//! The worst round trip of a layout, judged against the slot time.
ghost use Rattle.std.specs.Prelude.{◌≡◌, ◌<◌, ◌≤◌, ◌↔◌, IfOk, length};
ghost use Rattle.std.specs.Option.{ForSome};
ghost use Rattle.layout.specs.Sound.{IsSound};
ghost use Rattle.path_checker.specs.Far.{IsFarthest, IsRight};
ghost use Rattle.path_checker.specs.Propagation.{IsKept};
ghost use Rattle.path_checker.specs.Verdicts.{IsVerdict, IsApart, IsWorstBelow, longer_of, verdict_of_worst};
ghost use Rattle.path_checker.specs.Stops.{IsNetworkOf};

use crate::far::{Far, MOST_TAPS, farthest};
use crate::stops::{Network, Stop, network_of};
use crate::table::{ReachTable, open_table};
use layout::{Attachment, Layout, Way};
use lists::OutOfMemory;
use mac_parameters::{INTERFRAME_GAP, SLOT_TIME};
use std::alloc::Global;

/// The worst round trip of a layout in half bits, with the first pair of stations that has it: `a` is below `b`.
#[derive(Clone, Copy, Debug, PartialEq, Eq)]
pub enum PathVerdict {
    /// Below the slot time.
    Within { worst: u32, a: u32, b: u32 },
    /// The slot time or more.
    Over { worst: u32, a: u32, b: u32 },
    /// There are fewer than two stations.
    NoPair,
}

/// Two stations, and how far apart they are in half bits.
#[derive(Clone, Copy, Debug, PartialEq, Eq)]
pub struct Worst {
    pub length: u32,
    pub a: u32,
    pub b: u32,
}

/// The station that is farthest from a station.
fn farthest_of(
    layout: &Layout,
    network: &Network,
    table: &mut ReachTable,
    station: u32,
) -> Option<Far>
    requires sound { IsSound layout.now }
    requires network { IsNetworkOf layout.now network.now }
    requires table { IsRight layout.now table.old }
    requires station { station < length layout.now.stations }
    ensures far { IsFarthest (IsApart layout.now station) result }
    ensures table { IsRight layout.now table.new }
{
    let line = layout.stations.get(station as usize);
    let from = Stop {
        tap: Attachment::Station(station),
        segment: line.segment,
        at: line.at,
    };
    farthest(layout, network, table, Way::Cable, &from, MOST_TAPS)
}

/// The pair that is farther apart, the earlier one of two that are equally far.
fn longer(worst: Option<Worst>, a: u32, far: Option<Far>) -> Option<Worst>
    ensures { result ≡ longer_of worst a far }
{
    let Some(far) = far else {
        return worst;
    };
    let next = Worst {
        length: far.length,
        a,
        b: far.station,
    };
    match worst {
        None => Some(next),
        Some(w) => {
            if w.length < next.length {
                Some(next)
            } else {
                Some(w)
            }
        }
    }
}

/// The two stations that are farthest apart, the first pair of equally far ones.
fn worst_pair(layout: &Layout, network: &Network, table: &mut ReachTable) -> Option<Worst>
    requires sound { IsSound layout.now }
    requires network { IsNetworkOf layout.now network.now }
    requires table { IsRight layout.now table.old }
    ensures { IsWorstBelow layout.now (length layout.now.stations) result }
{
    let mut worst = None;
    for station in 0..layout.stations.len() {
        let far = farthest_of(layout, network, table, station as u32);
        worst = longer(worst, station as u32, far);
    }
    worst
}

/// What the two stations that are farthest apart say of a layout.
fn verdict_of(worst: Option<Worst>) -> PathVerdict
    requires { ForSome worst (λ w. w.length ≤ 10240000) }
    ensures { result ≡ verdict_of_worst worst }
{
    let Some(Worst { length, a, b }) = worst else {
        return PathVerdict::NoPair;
    };
    let worst = 2 * length + INTERFRAME_GAP;
    if worst < SLOT_TIME {
        PathVerdict::Within { worst, a, b }
    } else {
        PathVerdict::Over { worst, a, b }
    }
}

/// Judges a sound layout by its worst round trip, in half bits (profile, in the manner of clause 13). The only error is
/// want of memory.
pub fn check_paths(alloc: Global, layout: &Layout) -> Result<PathVerdict, OutOfMemory>
    requires { IsSound layout.now }
    ensures no_pair { IfOk result (λ v. (v ≡ PathVerdict.NoPair) ↔ (length layout.now.stations < 2)) }
    ensures verdict { IfOk result (IsVerdict layout.now) }

    // Where the verdict is Within, any two attempts of different stations that overlap over an open path are both hit
    // before the 512th bit of their sendings begins, in every plan with this network (4.1.2.2).
    ensures detected { IfOk result (IsKept layout.now) }
{
    let network = network_of(alloc, layout)?;
    let mut table = open_table(alloc, layout.repeaters.len())?;
    Ok(verdict_of(worst_pair(layout, &network, &mut table)))
}
