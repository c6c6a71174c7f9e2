//! The branches of a segment, and the pair that is farthest apart over a piece of its cable.
ghost use Rattle.std.specs.Prelude.{◌≡◌, ◌<◌, ◌≤◌, IfOk, length};
ghost use Rattle.mac_parameters.specs.Parameters.{greatest_place};
ghost use Rattle.layout.specs.Sound.{IsSound};
ghost use Rattle.layout.specs.declared.ways.Way.TheVariants as way;
ghost use Rattle.path_slack.specs.Crossings.{IsCrossed, OverPiece, ThroughRepeater};
ghost use Rattle.path_checker.specs.Far.{IsStop, IsReach, IsFarthest, IsRight};
ghost use Rattle.path_checker.specs.Stops.{IsNetworkOf};
ghost use Rattle.path_slack.specs.Branches.{AreBranchesOf};
ghost use Rattle.path_slack.specs.Pairs.{IsWorstPair};

use crate::places::at_of;
use crate::worst::{FarthestPair, pair_over, worse};
use layout::{Attachment, Layout, Way};
use lists::{List, OutOfMemory};
use path_checker::{Far, MOST_TAPS, Network, ReachTable, Stop, farther, farthest, lengthened};
use std::alloc::Global;

/// A tap, and the station that is farthest from it off its cable.
#[derive(Clone, Copy)]
pub struct Branch {
    pub tap: Attachment,
    pub far: Option<Far>,
}

/// The branches of a segment, one for each of its taps.
#[derive(Drop)]
pub struct Branches {
    pub segment: u32,
    pub list: List<Branch>,
}

/// The station that is farthest from a tap off its cable: from a station that is itself.
fn off_cable(layout: &Layout, network: &Network, table: &mut ReachTable, stop: &Stop) -> Option<Far>
    requires sound { IsSound layout.now }
    requires network { IsNetworkOf layout.now network.now }
    requires table { IsRight layout.now table.old }
    requires stop { IsStop layout.now stop.now }
    ensures far { IsFarthest (IsReach layout.now way.Repeater stop.now.tap) result }
    ensures table { IsRight layout.now table.new }
{
    if let Attachment::Station(station) = stop.tap {
        return Some(Far { length: 0, station });
    }
    farthest(layout, network, table, Way::Repeater, stop, MOST_TAPS)
}

/// The branches of a segment. The table is that of `farthest`.
pub fn branches_of(
    alloc: Global,
    layout: &Layout,
    network: &Network,
    table: &mut ReachTable,
    segment: u32,
) -> Result<Branches, OutOfMemory>
    requires sound { IsSound layout.now }
    requires network { IsNetworkOf layout.now network.now }
    requires table { IsRight layout.now table.old }
    ensures segment { IfOk result (λ bs. bs.segment ≡ segment) }
    ensures list { IfOk result (λ bs. AreBranchesOf layout.now segment bs.list) }
    ensures table { IsRight layout.now table.new }
{
    let stops = network.taps_on(segment);
    let mut list = List::new(alloc);
    for stop in stops {
        let far = off_cable(layout, network, table, stop);
        list.push(Branch { tap: stop.tap, far })?;
    }
    Ok(Branches { segment, list })
}

/// The pair of stations that is farthest apart over the piece of the segment's cable just below the place `high`.
pub fn worst_over(layout: &Layout, branches: &Branches, high: u32) -> Option<FarthestPair>
    requires sound { IsSound layout.now }
    requires branches { AreBranchesOf layout.now branches.now.segment branches.now.list }
    requires high { high ≤ greatest_place }
    ensures { IsWorstPair (IsCrossed layout.now way.Cable (OverPiece layout.now branches.now.segment high)) result }
{
    let list = branches.list.as_slice();
    let mut below = None;
    let mut above = None;
    for branch in list {
        let at = at_of(layout, branch.tap);
        if at < high {
            below = farther(below, lengthened(high - at, branch.far));
            continue;
        }
        above = farther(above, lengthened(at - high, branch.far));
    }
    pair_over(below, above)
}

/// The pair of stations that is farthest apart through a repeater. The table is that of `farthest`.
pub fn worst_through(
    layout: &Layout,
    network: &Network,
    table: &mut ReachTable,
    repeater: u32,
) -> Option<FarthestPair>
    requires sound { IsSound layout.now }
    requires network { IsNetworkOf layout.now network.now }
    requires table { IsRight layout.now table.old }
    requires repeater { repeater < length layout.now.repeaters }
    ensures worst { IsWorstPair (IsCrossed layout.now way.Repeater (ThroughRepeater layout.now repeater)) result }
    ensures table { IsRight layout.now table.new }
{
    let line = layout.repeaters.get(repeater as usize);
    let mut seen = None;
    let mut worst = None;
    for k in 0..line.ports.len() {
        let port = *line.ports.get(k);
        let stop = Stop {
            tap: Attachment::Port {
                repeater,
                port: k as u32,
            },
            segment: port.segment,
            at: port.at,
        };
        let far = farthest(layout, network, table, Way::Cable, &stop, MOST_TAPS);
        worst = worse(worst, pair_over(seen, lengthened(line.delay, far)));
        seen = farther(seen, far);
    }
    worst
}
