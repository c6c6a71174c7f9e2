//! The station that is farthest from a tap.
ghost use Rattle.std.specs.Prelude.{◌≡◌, ℕ, ◌+◌, ◌^◌, ◌<◌, ◌≤◌, Some};
ghost use Rattle.std.specs.Option.{ForSome};
ghost use Rattle.layout.specs.Sound.{IsSound};
ghost use Rattle.layout.specs.Paths.{delay_of, step_length, other_way};
ghost use Rattle.path_checker.specs.Stops.{IsNetworkOf};
ghost use Rattle.path_checker.specs.Far.{IsStop, HasRoom, IsOnward, IsFarthest, IsRight, is_same_tap, farther_of, lengthened};

use crate::stops::{Network, Stop};
use crate::table::{Entry, ReachTable, entry_of, set_entry};
use layout::{Attachment, Layout, Way};

/// As many taps as a layout can have (profile).
pub const MOST_TAPS: u32 = 5_120;

/// A station's number, from 0, and how far it is in half bits.
#[derive(Clone, Copy, Debug)]
pub struct Far {
    pub length: u32,
    pub station: u32,
}

/// The way of the step after one by this way.
fn other_way(way: Way) -> Way
    ensures { result ≡ other_way way }
{
    match way {
        Way::Cable => Way::Repeater,
        Way::Repeater => Way::Cable,
    }
}

/// The delay of a port's repeater in half bits, and 0 for a station.
fn delay_of(layout: &Layout, tap: Attachment) -> u32
    ensures { result ≡ delay_of layout.now tap }
{
    match tap {
        Attachment::Station(_) => 0,
        Attachment::Port { repeater, .. } => {
            if (repeater as usize) < layout.repeaters.len() {
                layout.repeaters.get(repeater as usize).delay
            } else {
                0
            }
        }
    }
}

/// How long a step is in half bits: the distance along a cable, or the delay of a repeater.
fn step_length(layout: &Layout, way: Way, from: &Stop, to: &Stop) -> u32
    requires from { IsStop layout.now from.now }
    requires to { IsStop layout.now to.now }
    ensures { result ≡ step_length layout.now way from.now.tap to.now.tap }
{
    match way {
        Way::Cable => from.at.abs_diff(to.at),
        Way::Repeater => delay_of(layout, from.tap),
    }
}

/// `==` of taps.
fn is_same_tap(a: Attachment, b: Attachment) -> bool
    ensures { result ≡ is_same_tap a b }
{
    match (a, b) {
        (Attachment::Station(k), Attachment::Station(j)) => k == j,
        (
            Attachment::Port {
                repeater: r,
                port: p,
            },
            Attachment::Port {
                repeater: s,
                port: q,
            },
        ) => r == s && p == q,
        _ => false,
    }
}

/// The farther one, and of two equally far the lower station.
pub fn farther(a: Option<Far>, b: Option<Far>) -> Option<Far>
    ensures { result ≡ farther_of a b }
{
    match (a, b) {
        (None, _) => b,
        (Some(_), None) => a,
        (Some(x), Some(y)) => {
            if x.length < y.length {
                return b;
            }
            if y.length < x.length {
                return a;
            }
            if y.station < x.station { b } else { a }
        }
    }
}

/// The same station, so many half bits farther away.
pub fn lengthened(by: u32, far: Option<Far>) -> Option<Far>
    requires { ForSome far (λ f. by + f.length < 2 ^ 32) }
    ensures { result ≡ lengthened by far }
{
    match far {
        None => None,
        Some(f) => Some(Far {
            length: by + f.length,
            station: f.station,
        }),
    }
}

/// The station that is farthest from a tap over walks of one step or more, the first of which is by this way, and of
/// equally far ones the first. The table has what is known of the ports, and gets what is found. `room` bounds the
/// steps of any walk from there.
pub fn farthest(
    layout: &Layout,
    network: &Network,
    table: &mut ReachTable,
    way: Way,
    from: &Stop,
    room: u32,
) -> Option<Far>
    requires sound { IsSound layout.now }
    requires network { IsNetworkOf layout.now network.now }
    requires table { IsRight layout.now table.old }
    requires from { IsStop layout.now from.now }
    requires room { HasRoom layout.now way from.now.tap room }
    requires most { room ≤ 5120 }
    ensures far { IsFarthest (IsOnward layout.now way from.now.tap) result }
    ensures table { IsRight layout.now table.new }
{
    match entry_of(table, way, from.tap) {
        Entry::Found(far) => return far,
        Entry::Open => {}
    }
    let near = network.beside(way, from);
    let mut best = None;
    for stop in near {
        if is_same_tap(stop.tap, from.tap) {
            continue;
        }
        let step = step_length(layout, way, from, stop);
        if let Attachment::Station(station) = stop.tap {
            best = farther(best, lengthened(step, Some(Far { length: 0, station })));
            continue;
        }
        let there = farthest(layout, network, table, other_way(way), stop, room - 1);
        best = farther(best, lengthened(step, there));
    }
    set_entry(table, way, from.tap, best);
    best
}
