//! Layouts with a longer piece of cable, or with a slower repeater.
ghost use Rattle.std.specs.Prelude.{◌≡◌, ◌↔◌, ◌+◌, ◌<◌, ◌≤◌, true, All, IfOk, map, length, slice_get, Some};
ghost use Rattle.mac_parameters.specs.Parameters.{greatest_place, greatest_delay};
ghost use Rattle.layout.specs.declared.lines.RepeaterLine.{RepeaterLine};
ghost use Rattle.layout.specs.Sound.{IsSound};
ghost use Rattle.path_slack.specs.Lengthened.{moved_place, moved_station, moved_port, moved_repeater, slowed_from, lengthened_gap, lengthened_delay, KeepsBounds};

use layout::{
    Layout, Octets, PortLine, PortLines, RepeaterLine, RepeaterLines, SegmentLine, SegmentLines,
    SendLine, SendLines, StationLine, StationLines,
};
use lists::{List, OutOfMemory, Text};
use mac_parameters::{GREATEST_DELAY, GREATEST_PLACE};
use std::alloc::Global;

/// The greatest delay of a repeater in half bits.
pub const MOST_DELAY: u32 = GREATEST_DELAY as u32;

fn copied_text(alloc: Global, text: &Text) -> Result<Text, OutOfMemory>
    ensures { IfOk result (λ t. t ≡ text.now) }
{
    Text::new(alloc, text.as_str())
}

fn copied_load(alloc: Global, load: &Option<Text>) -> Result<Option<Text>, OutOfMemory>
    ensures { IfOk result (λ t. t ≡ load.now) }
{
    match load {
        None => Ok(None),
        Some(text) => Ok(Some(copied_text(alloc, text)?)),
    }
}

fn copied_octets(alloc: Global, octets: &Octets) -> Result<Octets, OutOfMemory>
    ensures { IfOk result (λ os. os ≡ octets.now) }
{
    let mut copy = List::new(alloc);
    copy.extend(octets.as_slice())?;
    Ok(copy)
}

fn copied_segments(alloc: Global, segments: &[SegmentLine]) -> Result<SegmentLines, OutOfMemory>
    ensures { IfOk result (λ rows. rows ≡ segments.now) }
{
    let mut copy = List::new(alloc);
    for segment in segments {
        copy.push(SegmentLine {
            name: copied_text(alloc, &segment.name)?,
        })?;
    }
    Ok(copy)
}

fn copied_sends(alloc: Global, sends: &[SendLine]) -> Result<SendLines, OutOfMemory>
    ensures { IfOk result (λ rows. rows ≡ sends.now) }
{
    let mut copy = List::new(alloc);
    for send in sends {
        copy.push(SendLine {
            station: send.station,
            at: send.at,
            octets: copied_octets(alloc, &send.octets)?,
        })?;
    }
    Ok(copy)
}

/// A station at this place of its segment.
fn station_at(alloc: Global, station: &StationLine, at: u32) -> Result<StationLine, OutOfMemory>
    ensures { IfOk result (λ s. s ≡ record station.now { at = at }) }
{
    Ok(StationLine {
        name: copied_text(alloc, &station.name)?,
        segment: station.segment,
        at,
        load: copied_load(alloc, &station.load)?,
        lose: station.lose,
    })
}

fn copied_stations(alloc: Global, stations: &[StationLine]) -> Result<StationLines, OutOfMemory>
    ensures { IfOk result (λ rows. rows ≡ stations.now) }
{
    let mut copy = List::new(alloc);
    for station in stations {
        copy.push(station_at(alloc, station, station.at)?)?;
    }
    Ok(copy)
}

fn copied_ports(alloc: Global, ports: &[PortLine]) -> Result<PortLines, OutOfMemory>
    ensures { IfOk result (λ rows. rows ≡ ports.now) }
{
    let mut copy = List::new(alloc);
    for port in ports {
        copy.push(*port)?;
    }
    Ok(copy)
}

/// A piece of cable that grows: `by` half bits just below the place `high` of a segment.
#[derive(Clone, Copy)]
struct Piece {
    segment: u32,
    high: u32,
    by: u32,
}

impl Piece {
    /// Where a place of segment `n` comes to lie.
    fn moved_place(self, n: u32, at: u32) -> u32
        requires { moved_place self.segment self.high self.by n at ≤ greatest_place }
        ensures { result ≡ moved_place self.segment self.high self.by n at }
    {
        if n == self.segment && self.high <= at {
            at + self.by
        } else {
            at
        }
    }

    /// Whether a place of segment `n` comes to lie where a tap may be.
    fn fits(self, n: u32, at: u32) -> bool
        ensures { (result ≡ true) ↔ (moved_place self.segment self.high self.by n at ≤ greatest_place) }
    {
        if n == self.segment && self.high <= at {
            at <= GREATEST_PLACE && self.by <= GREATEST_PLACE - at
        } else {
            at <= GREATEST_PLACE
        }
    }

    fn all_fit(self, ports: &[PortLine]) -> bool
        ensures { (result ≡ true)
            ↔ All (λ p. moved_place self.segment self.high self.by p.segment p.at ≤ greatest_place) ports.now }
    {
        for port in ports {
            if !self.fits(port.segment, port.at) {
                return false;
            }
        }
        true
    }

    fn moved_stations(
        self,
        alloc: Global,
        stations: &[StationLine],
    ) -> Result<StationLines, OutOfMemory>
        requires { All (λ s. moved_place self.segment self.high self.by s.segment s.at ≤ greatest_place) stations.now }
        ensures { IfOk result (λ rows. rows ≡ map (moved_station self.segment self.high self.by) stations.now) }
    {
        let mut moved = List::new(alloc);
        for station in stations {
            let at = self.moved_place(station.segment, station.at);
            moved.push(station_at(alloc, station, at)?)?;
        }
        Ok(moved)
    }

    fn moved_ports(self, alloc: Global, ports: &[PortLine]) -> Result<PortLines, OutOfMemory>
        requires { All (λ p. moved_place self.segment self.high self.by p.segment p.at ≤ greatest_place) ports.now }
        ensures { IfOk result (λ rows. rows ≡ map (moved_port self.segment self.high self.by) ports.now) }
    {
        let mut moved = List::new(alloc);
        for port in ports {
            moved.push(PortLine {
                segment: port.segment,
                at: self.moved_place(port.segment, port.at),
            })?;
        }
        Ok(moved)
    }

    fn moved_repeaters(
        self,
        alloc: Global,
        repeaters: &[RepeaterLine],
    ) -> Result<RepeaterLines, OutOfMemory>
        requires { All (λ r. All (λ p. moved_place self.segment self.high self.by p.segment p.at ≤ greatest_place) r.ports)
            repeaters.now }
        ensures { IfOk result (λ rows. rows ≡ map (moved_repeater self.segment self.high self.by) repeaters.now) }
    {
        let mut moved = List::new(alloc);
        for repeater in repeaters {
            moved.push(RepeaterLine {
                name: copied_text(alloc, &repeater.name)?,
                delay: repeater.delay,
                ports: self.moved_ports(alloc, repeater.ports.as_slice())?,
            })?;
        }
        Ok(moved)
    }
}

/// The repeaters, of which number `slow`, counted from 0, has a delay that has grown.
fn slowed_repeaters(
    alloc: Global,
    repeaters: &[RepeaterLine],
    slow: u32,
    by: u32,
) -> Result<RepeaterLines, OutOfMemory>
    requires { (r : RepeaterLine) → slice_get repeaters.now slow ≡ Some r → r.delay + by ≤ greatest_delay }
    ensures { IfOk result (λ rows. rows ≡ slowed_from 0 slow by repeaters.now) }
{
    let mut slowed = List::new(alloc);
    for (k, repeater) in repeaters.iter().enumerate() {
        let delay = if k == slow as usize {
            repeater.delay + by
        } else {
            repeater.delay
        };
        slowed.push(RepeaterLine {
            name: copied_text(alloc, &repeater.name)?,
            delay,
            ports: copied_ports(alloc, repeater.ports.as_slice())?,
        })?;
    }
    Ok(slowed)
}

/// Whether each tap stands where a tap may be when the cable of a segment grows by `x` half bits just below the place
/// `high`: what `lengthen_gap` asks for. Segments count from 0.
pub fn gap_fits(layout: &Layout, segment: u32, high: u32, x: u32) -> bool
    requires { IsSound layout.now }
    ensures { (result ≡ true) ↔ KeepsBounds (lengthened_gap layout.now segment high x) }
{
    let piece = Piece {
        segment,
        high,
        by: x,
    };
    for k in 0..layout.stations.len() {
        let station = layout.stations.get(k);
        if !piece.fits(station.segment, station.at) {
            return false;
        }
    }
    for r in 0..layout.repeaters.len() {
        let ports = layout.repeaters.get(r).ports.as_slice();
        if !piece.all_fit(ports) {
            return false;
        }
    }
    true
}

/// Whether a repeater's delay is one that repeaters can have when it grows by `x` half bits: what `lengthen_delay` asks
/// for. Repeaters count from 0.
pub fn delay_fits(layout: &Layout, repeater: u32, x: u32) -> bool
    requires sound { IsSound layout.now }
    requires repeater { repeater < length layout.now.repeaters }
    ensures { (result ≡ true) ↔ KeepsBounds (lengthened_delay layout.now repeater x) }
{
    x <= MOST_DELAY - layout.repeaters.get(repeater as usize).delay
}

/// The layout when the cable of a segment grows by `x` half bits between the tap at `high` and the one below it: all
/// taps of the segment from `high` on stand `x` farther from the cable's end. Segments count from 0. The only error is
/// want of memory.
#[tactic(auto, unfolding(crate::specs::Lengthened::lengthened_gap))]
pub fn lengthen_gap(
    alloc: Global,
    layout: &Layout,
    segment: u32,
    high: u32,
    x: u32,
) -> Result<Layout, OutOfMemory>
    requires sound { IsSound layout.now }
    requires bounds { KeepsBounds (lengthened_gap layout.now segment high x) }
    ensures layout { IfOk result (λ m. m ≡ lengthened_gap layout.now segment high x) }
    ensures sound { IfOk result IsSound }
{
    let piece = Piece {
        segment,
        high,
        by: x,
    };
    Ok(Layout {
        format: layout.format,
        seed: layout.seed,
        until_bits: layout.until_bits,
        segments: copied_segments(alloc, layout.segments.as_slice())?,
        stations: piece.moved_stations(alloc, layout.stations.as_slice())?,
        repeaters: piece.moved_repeaters(alloc, layout.repeaters.as_slice())?,
        sends: copied_sends(alloc, layout.sends.as_slice())?,
    })
}

/// The layout when a repeater's delay grows by `x` half bits. Repeaters count from 0. The only error is want of memory.
#[tactic(auto, unfolding(crate::specs::Lengthened::lengthened_delay))]
pub fn lengthen_delay(
    alloc: Global,
    layout: &Layout,
    repeater: u32,
    x: u32,
) -> Result<Layout, OutOfMemory>
    requires sound { IsSound layout.now }
    requires bounds { KeepsBounds (lengthened_delay layout.now repeater x) }
    ensures layout { IfOk result (λ m. m ≡ lengthened_delay layout.now repeater x) }
    ensures sound { IfOk result IsSound }
{
    Ok(Layout {
        format: layout.format,
        seed: layout.seed,
        until_bits: layout.until_bits,
        segments: copied_segments(alloc, layout.segments.as_slice())?,
        stations: copied_stations(alloc, layout.stations.as_slice())?,
        repeaters: slowed_repeaters(alloc, layout.repeaters.as_slice(), repeater, x)?,
        sends: copied_sends(alloc, layout.sends.as_slice())?,
    })
}
