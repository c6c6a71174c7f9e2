//! The lookahead of a layout, and how many windows a run has.
ghost use Rattle.std.specs.Prelude.{◌≡◌, ◌<◌, ◌≤◌, ◌+◌, ◌==◌, ◌&&◌, not, if◌then◌else◌, map, length};
ghost use Rattle.layout.specs.Sound.{IsSound};
ghost use Rattle.layout.specs.Taps.{tap_of, taps_of};
ghost use Rattle.mac_parameters.specs.Distances.{distance};
ghost use Rattle.net_parts.specs.Windows.{lookahead, windows, nearest, least_of_ports, most_lookahead};

use layout::{Layout, PortLine, StationLine};
use load_plan::Plan;

/// The most half bits of a window.
const MOST_LOOKAHEAD: u32 = 4_096;

/// The half bits of a window: the least, over all ports, of the repeater's delay and the way to the nearest other tap
/// of the port's segment, at most 4,096. A port that is alone on its segment counts as 4,096.
pub fn lookahead(layout: &Layout) -> u32
    requires { IsSound layout.now }
    ensures value { result ≡ lookahead layout.now }
    ensures some { 0 < result }
    ensures most { result ≤ most_lookahead }
{
    let repeaters = layout.repeaters.as_slice();
    let mut least = MOST_LOOKAHEAD;
    let mut tap = layout.stations.len();
    for repeater in repeaters {
        least = least.min(least_of_ports(layout, repeater.delay, tap, repeater.ports.as_slice()));
        tap += repeater.ports.len();
    }
    least
}

/// The least, over ports of a repeater with this delay, of the delay and the way to the nearest other tap; the first of
/// the ports is tap `first`, from 0.
fn least_of_ports(layout: &Layout, delay: u32, first: usize, ports: &[PortLine]) -> u32
    requires sound { IsSound layout.now }
    requires delay { delay ≤ 200 }
    requires ports { first + length ports.now ≤ 5120 }
    requires stations { length layout.now.stations ≤ first }
    ensures { result ≡ least_of_ports (taps_of layout.now) delay first ports.now }
{
    let mut least = MOST_LOOKAHEAD;
    for k in 0..ports.len() {
        least = least.min(delay + nearest(layout, first + k, ports[k]));
    }
    least
}

/// The way from a port, which is this tap, to the nearest other tap of its segment.
fn nearest(layout: &Layout, tap: usize, here: PortLine) -> u32
    requires sound { IsSound layout.now }
    requires stations { length layout.now.stations ≤ tap }
    ensures way { result ≡ nearest tap here 0 (taps_of layout.now) }
    ensures most { result ≤ most_lookahead }
{
    let repeaters = layout.repeaters.as_slice();
    let mut least = nearest_station(tap, here, layout.stations.as_slice());
    let mut first = layout.stations.len();
    for repeater in repeaters {
        let ports = repeater.ports.as_slice();
        least = least.min(nearest_port(tap, here, first, ports));
        first += ports.len();
    }
    least
}

/// The way to the nearest of these stations, the first of which is tap 0, from a tap that is none of them.
fn nearest_station(tap: usize, here: PortLine, stations: &[StationLine]) -> u32
    requires { length stations.now ≤ tap }
    ensures way { result ≡ nearest tap here 0 (map tap_of stations.now) }
    ensures most { result ≤ most_lookahead }
{
    let mut least = MOST_LOOKAHEAD;
    for station in stations {
        least = least.min(way(here, station.segment, station.at, false));
    }
    least
}

/// The way from a tap to the nearest other one of these, the first of which is tap `first`.
fn nearest_port(tap: usize, here: PortLine, first: usize, ports: &[PortLine]) -> u32
    requires { first + length ports.now ≤ 5120 }
    ensures way { result ≡ nearest tap here first ports.now }
    ensures most { result ≤ most_lookahead }
{
    let mut least = MOST_LOOKAHEAD;
    for k in 0..ports.len() {
        least = least.min(way(here, ports[k].segment, ports[k].at, first + k == tap));
    }
    least
}

/// The way to a tap of the same segment, unless it is the tap itself.
fn way(here: PortLine, segment: u32, at: u32, itself: bool) -> u32
    ensures { result ≡ if segment == here.segment && not itself then distance here.at at else most_lookahead }
{
    if segment == here.segment && !itself {
        here.at.abs_diff(at)
    } else {
        MOST_LOOKAHEAD
    }
}

/// How many windows a run has.
pub fn windows(plan: &Plan) -> u64
    ensures { result ≡ windows plan.now }
{
    count_windows(plan, lookahead(&plan.layout))
}

/// How many windows of the lookahead's length a run has.
pub fn count_windows(plan: &Plan, length: u32) -> u64
    requires lookahead { length ≡ lookahead plan.now.layout }
    requires some { 0 < length }
    ensures { result ≡ windows plan.now }
{
    let half_bits = plan.layout.half_bits();
    let window = u64::from(length);
    (half_bits + window - 1) / window
}
