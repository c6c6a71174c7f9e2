//! The taps of a network, by their segments and by their repeaters.
ghost use Rattle.std.specs.Prelude.{◌≡◌, ◌≤◌, ◌++◌, All, OnOk, IfOk, map, length};
ghost use Rattle.layout.specs.Joined.{counted_up};
ghost use Rattle.layout.specs.Sound.{IsSound};
ghost use Rattle.layout.specs.Limits.{most_repeaters, most_segments, most_stations};
ghost use Rattle.mac_parameters.specs.Parameters.{most_ports};
ghost use Rattle.path_checker.specs.Stops.{station_stops, port_stops, repeater_stops, all_stops, stops_on, repeater_lists, stops_by, list_at, IsNetworkOf};

use layout::{Attachment, Layout, PortLine, RepeaterLine, StationLine, Way};
use lists::{List, OutOfMemory};
use std::alloc::Global;

/// A tap, with its segment's number from 0 and its place there in half bits from the end of the cable.
#[derive(Clone, Copy)]
pub struct Stop {
    pub tap: Attachment,
    pub segment: u32,
    pub at: u32,
}

/// Taps in the file's order.
pub type Stops = List<Stop>;

/// The taps of each segment and of each repeater, in the file's order.
#[derive(Drop)]
pub struct Network {
    pub segments: List<Stops>,
    pub repeaters: List<Stops>,
}

/// Puts the taps of the stations, counted from 0, at the end of a list.
fn push_stations(stops: &mut Stops, stations: &[StationLine]) -> Result<(), OutOfMemory>
    requires { length stations.now ≤ most_stations }
    ensures { OnOk result (stops.new ≡ stops.old ++ station_stops 0 stations.now) }
{
    for k in 0..stations.len() {
        let station = &stations[k];
        stops.push(Stop {
            tap: Attachment::Station(k as u32),
            segment: station.segment,
            at: station.at,
        })?;
    }
    Ok(())
}

/// Puts the taps of the ports of a repeater, both counted from 0, at the end of a list.
fn push_ports(stops: &mut Stops, repeater: u32, ports: &[PortLine]) -> Result<(), OutOfMemory>
    requires { length ports.now ≤ most_ports }
    ensures { OnOk result (stops.new ≡ stops.old ++ port_stops repeater 0 ports.now) }
{
    for k in 0..ports.len() {
        let port = ports[k];
        stops.push(Stop {
            tap: Attachment::Port {
                repeater,
                port: k as u32,
            },
            segment: port.segment,
            at: port.at,
        })?;
    }
    Ok(())
}

/// Puts the taps of the ports of the repeaters, counted from 0, at the end of a list.
fn push_all_ports(stops: &mut Stops, repeaters: &[RepeaterLine]) -> Result<(), OutOfMemory>
    requires count { length repeaters.now ≤ most_repeaters }
    requires ports { All (λ r. length r.ports ≤ most_ports) repeaters.now }
    ensures { OnOk result (stops.new ≡ stops.old ++ repeater_stops 0 repeaters.now) }
{
    for k in 0..repeaters.len() {
        push_ports(stops, k as u32, repeaters[k].ports.as_slice())?;
    }
    Ok(())
}

/// All taps of a layout: those of the stations, then those of the repeaters' ports.
#[tactic(auto, unfolding(crate::specs::Stops::all_stops))]
fn all_stops(alloc: Global, layout: &Layout) -> Result<Stops, OutOfMemory>
    requires { IsSound layout.now }
    ensures { IfOk result (λ stops. stops ≡ all_stops layout.now) }
{
    let mut stops = List::new(alloc);
    push_stations(&mut stops, layout.stations.as_slice())?;
    push_all_ports(&mut stops, layout.repeaters.as_slice())?;
    Ok(stops)
}

/// Those of these taps that are on a segment.
fn on_segment(alloc: Global, all: &[Stop], segment: u32) -> Result<Stops, OutOfMemory>
    ensures { IfOk result (λ stops. stops ≡ stops_on all.now segment) }
{
    let mut stops = List::new(alloc);
    for stop in all {
        if stop.segment != segment {
            continue;
        }
        stops.push(*stop)?;
    }
    Ok(stops)
}

/// The taps of each of the first `count` segments.
fn segment_lists(alloc: Global, all: &[Stop], count: usize) -> Result<List<Stops>, OutOfMemory>
    requires { count ≤ most_segments }
    ensures { IfOk result (λ lists. lists ≡ map (stops_on all.now) (counted_up count)) }
{
    let mut lists = List::new(alloc);
    for segment in 0..count {
        lists.push(on_segment(alloc, all, segment as u32)?)?;
    }
    Ok(lists)
}

/// The taps of the ports of a repeater.
fn ports_of(alloc: Global, repeater: u32, ports: &[PortLine]) -> Result<Stops, OutOfMemory>
    requires { length ports.now ≤ most_ports }
    ensures { IfOk result (λ stops. stops ≡ port_stops repeater 0 ports.now) }
{
    let mut stops = List::new(alloc);
    push_ports(&mut stops, repeater, ports)?;
    Ok(stops)
}

/// The taps of each repeater.
fn repeater_lists(alloc: Global, repeaters: &[RepeaterLine]) -> Result<List<Stops>, OutOfMemory>
    requires count { length repeaters.now ≤ most_repeaters }
    requires ports { All (λ r. length r.ports ≤ most_ports) repeaters.now }
    ensures { IfOk result (λ lists. lists ≡ repeater_lists 0 repeaters.now) }
{
    let mut lists = List::new(alloc);
    for k in 0..repeaters.len() {
        lists.push(ports_of(alloc, k as u32, repeaters[k].ports.as_slice())?)?;
    }
    Ok(lists)
}

/// The taps of a layout by segment and by repeater. The only error is want of memory.
pub fn network_of(alloc: Global, layout: &Layout) -> Result<Network, OutOfMemory>
    requires { IsSound layout.now }
    ensures { IfOk result (IsNetworkOf layout.now) }
{
    let all = all_stops(alloc, layout)?;
    let segments = segment_lists(alloc, all.as_slice(), layout.segments.len())?;
    let repeaters = repeater_lists(alloc, layout.repeaters.as_slice())?;
    Ok(Network {
        segments,
        repeaters,
    })
}

/// List `n` of these, counted from 0, and an empty one where there is no list `n`.
fn list_at(lists: &List<Stops>, n: u32) -> &[Stop]
    ensures { result.now ≡ list_at lists.now n }
{
    if (n as usize) < lists.len() {
        lists.get(n as usize).as_slice()
    } else {
        &[]
    }
}

impl Network {
    /// The taps on segment `n`, counted from 0, and none where there is no such segment.
    pub fn taps_on(&self, n: u32) -> &[Stop]
        ensures { result.now ≡ list_at self.now.segments n }
    {
        list_at(&self.segments, n)
    }

    /// The taps that share a tap's segment or, for a port, its repeater.
    pub fn beside(&self, way: Way, stop: &Stop) -> &[Stop]
        ensures { result.now ≡ stops_by self.now way stop.now }
    {
        match way {
            Way::Cable => list_at(&self.segments, stop.segment),
            Way::Repeater => match stop.tap {
                Attachment::Station(_) => &[],
                Attachment::Port { repeater, .. } => list_at(&self.repeaters, repeater),
            },
        }
    }
}
