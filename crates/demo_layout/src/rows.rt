//! The rows of segments, stations and repeaters.
ghost use Rattle.std.specs.Prelude.{◌≡◌, ◌≤◌, ◌+◌, ◌*◌, ◌++◌, decimal, map, IfOk};
ghost use Rattle.std.specs.List.{range_with_len};
ghost use Rattle.layout.specs.Limits.{most_repeaters};
ghost use Rattle.demo_layout.specs.Demo.{demo_segment, demo_station, demo_port_in, demo_port_out, demo_repeater};

use layout::{
    PortLine, RepeaterLine, RepeaterLines, SegmentLine, SegmentLines, StationLine, StationLines,
};
use lists::{List, OutOfMemory, Text};
use std::alloc::Global;

/// Where a segment's four stations are, in half bits from the cable's end (profile).
const STATION_PLACES: [u32; 4] = [10, 20, 30, 50];

/// The half bits of each repeater (profile).
const DELAY: u32 = 28;

/// That letter and the number.
fn name(alloc: Global, letter: &str, number: u32) -> Result<Text, OutOfMemory>
    ensures { IfOk result (λ name. name ≡ letter.now ++ decimal number) }
{
    let text = format!(in alloc; "{letter}{number}")?;
    Text::new(alloc, text.as_str())
}

/// The segment of that number.
fn segment(alloc: Global, number: u32) -> Result<SegmentLine, OutOfMemory>
    ensures { IfOk result (λ row. row ≡ demo_segment number) }
{
    Ok(SegmentLine {
        name: name(alloc, "g", number)?,
    })
}

/// The station of that number.
fn station(alloc: Global, number: u32) -> Result<StationLine, OutOfMemory>
    ensures { IfOk result (λ row. row ≡ demo_station number) }
{
    Ok(StationLine {
        name: name(alloc, "s", number)?,
        segment: number / 4,
        at: STATION_PLACES[(number % 4) as usize],
        load: None,
        lose: 0,
    })
}

/// The port of a repeater on its earlier segment.
fn port_in(repeater: u32) -> PortLine
    requires { 1 ≤ repeater }
    ensures { result ≡ demo_port_in repeater }
{
    PortLine {
        segment: (repeater - 1) / 2,
        at: if repeater % 2 == 1 { 40 } else { 60 },
    }
}

/// The port of a repeater on its own segment.
fn port_out(repeater: u32) -> PortLine
    ensures { result ≡ demo_port_out repeater }
{
    PortLine {
        segment: repeater,
        at: 0,
    }
}

/// The repeater of that number.
fn repeater(alloc: Global, number: u32) -> Result<RepeaterLine, OutOfMemory>
    requires { 1 ≤ number }
    ensures { IfOk result (λ row. row ≡ demo_repeater number) }
{
    let mut ports = List::new(alloc);
    ports.push(port_in(number))?;
    ports.push(port_out(number))?;
    Ok(RepeaterLine {
        name: name(alloc, "r", number)?,
        delay: DELAY,
        ports,
    })
}

/// The segments of demo of that number.
#[tactic(auto, using(crate::proofs::RowsInOrder::one_more))]
pub fn segments(alloc: Global, number: u32) -> Result<SegmentLines, OutOfMemory>
    requires { number ≤ most_repeaters }
    ensures { IfOk result (λ rows. rows ≡ map demo_segment (range_with_len 0 (number + 1))) }
{
    let mut rows = List::new(alloc);
    for place in 0..number + 1 {
        rows.push(segment(alloc, place)?)?;
    }
    Ok(rows)
}

/// The stations of demo of that number.
#[tactic(auto, using(crate::proofs::RowsInOrder::one_more))]
pub fn stations(alloc: Global, number: u32) -> Result<StationLines, OutOfMemory>
    requires { number ≤ most_repeaters }
    ensures { IfOk result (λ rows. rows ≡ map demo_station (range_with_len 0 (4 * (number + 1)))) }
{
    let mut rows = List::new(alloc);
    for place in 0..4 * (number + 1) {
        rows.push(station(alloc, place)?)?;
    }
    Ok(rows)
}

/// The repeaters of demo of that number, which count from 1.
#[tactic(auto, using(crate::proofs::RowsInOrder::one_more_from_1))]
pub fn repeaters(alloc: Global, number: u32) -> Result<RepeaterLines, OutOfMemory>
    requires { number ≤ most_repeaters }
    ensures { IfOk result (λ rows. rows ≡ map demo_repeater (range_with_len 1 number)) }
{
    let mut rows = List::new(alloc);
    for place in 0..number {
        rows.push(repeater(alloc, place + 1)?)?;
    }
    Ok(rows)
}
