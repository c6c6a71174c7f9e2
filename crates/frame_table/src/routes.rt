//! The ways from a station to all others.
ghost use Rattle.std.specs.Prelude.{◌≡◌, ◌≢◌, ◌<◌, ◌++◌, ℕ, List, All, IfOk, OnOk, Some, length, slice_set};
ghost use Rattle.layout.specs.Among.{IsAmong};
ghost use Rattle.layout.specs.Paths.{IsStep, IsWalk, step_length};
ghost use Rattle.layout.specs.Sound.{IsSound};
ghost use Rattle.layout.specs.declared.lines.Layout.{Layout};
ghost use Rattle.layout.specs.declared.ways.Attachment.{Attachment};
ghost use Rattle.layout.specs.declared.ways.Attachment.TheVariants.{Station};
ghost use Rattle.layout.specs.declared.ways.Way.TheVariants as way;
ghost use Rattle.path_checker.specs.Far.{IsStop, is_same_tap};
ghost use Rattle.path_checker.specs.Stops.{IsNetworkOf};
ghost use Rattle.frame_table.specs.Led.{AreLed, HasCome, IsSearched, IsFound, IsLed, StandsThere, gone_on};
ghost use Rattle.frame_table.specs.Ways.{entry_by};
ghost use Rattle.frame_table.specs.declared.routes.Led.{Led};

use layout::{Attachment, Layout, Way};
use lists::{List, OutOfMemory};
use path_checker::{MOST_TAPS, Network, Stop};
use std::alloc::Global;

/// The port by which a way enters a repeater, both from 0, and how many half bits the way has come before.
#[derive(Clone, Copy)]
pub struct WayIn {
    pub repeater: u32,
    pub port: u32,
    pub at: u32,
}

/// Where a way from a station has come to, how long it is, and the ports by which it entered repeaters.
#[derive(Drop)]
pub struct Led {
    pub stop: Stop,
    pub length: u32,
    pub entries: List<WayIn>,
}

/// `==` of taps.
fn is_same_tap(a: Attachment, b: Attachment) -> bool
    ensures { result ≡ is_same_tap a b }
{
    match (a, b) {
        (Attachment::Station(k), Attachment::Station(j)) => k == j,
        (
            Attachment::Port {
                repeater: r,
                port: p,
            },
            Attachment::Port {
                repeater: s,
                port: q,
            },
        ) => r == s && p == q,
        _ => false,
    }
}

/// How long a step is in half bits: the distance along a cable, or the delay of a repeater.
fn step_length(layout: &Layout, way: Way, from: &Stop, to: &Stop) -> u32
    requires from { IsStop layout.now from.now }
    requires to { IsStop layout.now to.now }
    ensures { result ≡ step_length layout.now way from.now.tap to.now.tap }
{
    if matches!(way, Way::Cable) {
        return from.at.abs_diff(to.at);
    }
    match from.tap {
        Attachment::Station(_) => 0,
        Attachment::Port { repeater, .. } => {
            if (repeater as usize) < layout.repeaters.len() {
                layout.repeaters.get(repeater as usize).delay
            } else {
                0
            }
        }
    }
}

/// The entries of a way after a further step from its last tap.
fn entries_after(alloc: Global, way: Way, from: &Led) -> Result<List<WayIn>, OutOfMemory>
    ensures { IfOk result (λ es. es ≡ from.now.entries ++ entry_by way from.now.stop.tap from.now.length) }
{
    let mut entries = List::new(alloc);
    for entry in from.entries.as_slice() {
        entries.push(*entry)?;
    }
    if let (Way::Repeater, Attachment::Port { repeater, port }) = (way, from.stop.tap) {
        entries.push(WayIn {
            repeater,
            port,
            at: from.length,
        })?;
    }
    Ok(entries)
}

/// The way with a further step.
fn gone_on(
    alloc: Global,
    layout: &Layout,
    way: Way,
    from: &Led,
    to: &Stop,
) -> Result<Led, OutOfMemory>
    requires from { IsStop layout.now from.now.stop }
    requires to { IsStop layout.now to.now }
    ensures { IfOk result (λ led. led ≡ gone_on layout.now way from.now to.now) }
{
    let step = step_length(layout, way, &from.stop, to);
    Ok(Led {
        stop: *to,
        length: from.length.checked_add(step).ok_or(OutOfMemory)?,
        entries: entries_after(alloc, way, from)?,
    })
}

/// Goes on from a port through its repeater, to all its other ports.
fn pass(
    alloc: Global,
    layout: &Layout,
    network: &Network,
    led: &Led,
    next: &mut Vec<Led>,
) -> Result<(), OutOfMemory>
    requires sound { IsSound layout.now }
    requires network { IsNetworkOf layout.now network.now }
    requires led { IsStop layout.now led.now.stop }
    ensures led { OnOk result ((a : ℕ) → IsLed layout.now a way.Repeater led.now →
        All (IsLed layout.now a way.Cable) next.old.items → All (IsLed layout.now a way.Cable) next.new.items) }
    ensures stand { OnOk result (All (StandsThere layout.now) next.old.items → All (StandsThere layout.now) next.new.items) }
    ensures kept { OnOk result ((q : Attachment) → HasCome next.old.items q → HasCome next.new.items q) }
    ensures come { OnOk result ((q : Attachment) → IsStep layout.now way.Repeater led.now.stop.tap q →
        HasCome next.new.items q) }
{
    let near = network.beside(Way::Repeater, &led.stop);
    for stop in near {
        if is_same_tap(stop.tap, led.stop.tap) {
            continue;
        }
        next.push(gone_on(alloc, layout, Way::Repeater, led, stop)?)?;
    }
    Ok(())
}

/// A way to this station is found.
fn put(routes: &mut [Option<Led>], station: u32, led: Led)
    ensures { routes.new ≡ slice_set routes.old station (Some led) }
{
    let station = station as usize;
    if station < routes.len() {
        routes[station] = Some(led);
    }
}

/// Goes on from a tap along its cable: to the stations there, and through the repeaters.
fn spread(
    alloc: Global,
    layout: &Layout,
    network: &Network,
    head: &Led,
    routes: &mut [Option<Led>],
    next: &mut Vec<Led>,
) -> Result<(), OutOfMemory>
    requires sound { IsSound layout.now }
    requires network { IsNetworkOf layout.now network.now }
    requires head { IsStop layout.now head.now.stop }
    ensures routes { OnOk result ((a : ℕ) → IsLed layout.now a way.Cable head.now →
        AreLed layout.now a routes.old → AreLed layout.now a routes.new) }
    ensures next { OnOk result ((a : ℕ) → IsLed layout.now a way.Cable head.now →
        All (IsLed layout.now a way.Cable) next.old.items → All (IsLed layout.now a way.Cable) next.new.items) }
    ensures stand { OnOk result (All (StandsThere layout.now) next.old.items → All (StandsThere layout.now) next.new.items) }
    ensures kept { OnOk result ((b : ℕ) → IsFound routes.old b → IsFound routes.new b) }
    ensures come { OnOk result ((q : Attachment) → HasCome next.old.items q → HasCome next.new.items q) }
    ensures done { OnOk result ((p : Attachment) → IsStep layout.now way.Cable head.now.stop.tap p →
        IsSearched layout.now (length routes.old) routes.new next.new.items p) }
{
    let near = network.beside(Way::Cable, &head.stop);
    for stop in near {
        if is_same_tap(stop.tap, head.stop.tap) {
            continue;
        }
        let led = gone_on(alloc, layout, Way::Cable, head, stop)?;
        if let Attachment::Station(station) = stop.tap {
            put(routes, station, led);
            continue;
        }
        pass(alloc, layout, network, &led, next)?;
    }
    Ok(())
}

/// Goes on from these taps along their cables, and answers the taps behind repeaters that are come to.
fn spread_all(
    alloc: Global,
    layout: &Layout,
    network: &Network,
    heads: &[Led],
    routes: &mut [Option<Led>],
) -> Result<Vec<Led>, OutOfMemory>
    requires sound { IsSound layout.now }
    requires network { IsNetworkOf layout.now network.now }
    requires heads { All (StandsThere layout.now) heads.now }
    ensures routes { OnOk result ((a : ℕ) → All (IsLed layout.now a way.Cable) heads.now →
        AreLed layout.now a routes.old → AreLed layout.now a routes.new) }
    ensures next { IfOk result (λ next. (a : ℕ) → All (IsLed layout.now a way.Cable) heads.now →
        All (IsLed layout.now a way.Cable) next.items) }
    ensures stand { IfOk result (λ next. All (StandsThere layout.now) next.items) }
    ensures kept { OnOk result ((b : ℕ) → IsFound routes.old b → IsFound routes.new b) }
    ensures done { IfOk result (λ next. (h : Led) (p : Attachment) → IsAmong h heads.now →
        IsStep layout.now way.Cable h.stop.tap p → IsSearched layout.now (length routes.old) routes.new next.items p) }
{
    let mut next = Vec::new(alloc);
    for head in heads {
        spread(alloc, layout, network, head, routes, &mut next)?;
    }
    Ok(next)
}

/// No way is found yet to any of so many stations.
fn none_found(alloc: Global, stations: usize) -> Result<Vec<Option<Led>>, OutOfMemory>
    ensures count { IfOk result (λ routes. length routes.items ≡ stations) }
    ensures none { (l : Layout) (a : ℕ) → IfOk result (λ routes. AreLed l a routes.items) }
{
    let mut routes = Vec::new(alloc);
    for _k in 0..stations {
        routes.push(None)?;
    }
    Ok(routes)
}

/// Goes on from a way's first tap to all taps that are come to. No walk has more than `MOST_TAPS` steps.
fn spread_on(
    alloc: Global,
    layout: &Layout,
    network: &Network,
    first: Led,
    routes: &mut [Option<Led>],
) -> Result<(), OutOfMemory>
    requires sound { IsSound layout.now }
    requires network { IsNetworkOf layout.now network.now }
    requires first { IsStop layout.now first.stop }
    ensures led { OnOk result ((a : ℕ) → IsLed layout.now a way.Cable first →
        AreLed layout.now a routes.old → AreLed layout.now a routes.new) }
    ensures found { OnOk result ((b : ℕ) (taps : List Attachment) → b < length routes.old →
        IsWalk layout.now way.Cable first.stop.tap taps (Station b) → first.stop.tap ≢ Station b →
        IsFound routes.new b) }
{
    let mut heads = Vec::new(alloc);
    heads.push(first)?;
    for _turn in 0..MOST_TAPS {
        if heads.is_empty() {
            return Ok(());
        }
        heads = spread_all(alloc, layout, network, heads.as_slice(), routes)?;
    }
    Ok(())
}

/// The ways from a station to all others.
pub fn routes_from(
    alloc: Global,
    layout: &Layout,
    network: &Network,
    station: u32,
) -> Result<Vec<Option<Led>>, OutOfMemory>
    requires sound { IsSound layout.now }
    requires network { IsNetworkOf layout.now network.now }
    requires station { station < length layout.now.stations }
    ensures count { IfOk result (λ routes. length routes.items ≡ length layout.now.stations) }
    ensures led { IfOk result (λ routes. AreLed layout.now station routes.items) }
    ensures found { IfOk result (λ routes. (b : ℕ) → b < length layout.now.stations → b ≢ station →
        IsFound routes.items b) }
{
    let line = layout.stations.get(station as usize);
    let stop = Stop {
        tap: Attachment::Station(station),
        segment: line.segment,
        at: line.at,
    };
    let first = Led {
        stop,
        length: 0,
        entries: List::new(alloc),
    };
    let mut routes = none_found(alloc, layout.stations.len())?;
    spread_on(alloc, layout, network, first, routes.as_mut_slice())?;
    Ok(routes)
}
