//! The taps of a layout: those of the stations, then those of the repeaters' ports; their places and delays.
ghost use Rattle.std.specs.Prelude.{◌≡◌, ◌++◌, replicate, IfOk, OnOk};
ghost use Rattle.layout.specs.Taps.{taps_of, positions_on, delays_of};

use crate::lines::{Layout, PortLine, RepeaterLine};
use lists::OutOfMemory;
use std::alloc::Global;

/// The taps of the stations, then those of the repeaters' ports.
pub fn taps_of(alloc: Global, layout: &Layout) -> Result<Vec<PortLine>, OutOfMemory>
    ensures { IfOk result (λ taps. taps.items ≡ taps_of layout.now) }
{
    let mut taps = Vec::new(alloc);
    for station in layout.stations.as_slice() {
        taps.push(PortLine {
            segment: station.segment,
            at: station.at,
        })?;
    }
    for repeater in layout.repeaters.as_slice() {
        taps.extend_from_slice(repeater.ports.as_slice())?;
    }
    Ok(taps)
}

/// The places of those of these taps that are on a segment, in half bits from its end.
pub fn places_on(alloc: Global, taps: &[PortLine], segment: usize) -> Result<Vec<u32>, OutOfMemory>
    ensures { IfOk result (λ places. places.items ≡ positions_on segment taps.now) }
{
    let mut places = Vec::new(alloc);
    for tap in taps {
        if tap.segment as usize != segment {
            continue;
        }
        places.push(tap.at)?;
    }
    Ok(places)
}

/// Puts a delay behind the others, once for each of so many ports.
fn push_delays(delays: &mut Vec<u32>, delay: u32, ports: usize) -> Result<(), OutOfMemory>
    ensures { OnOk result (delays.new.items ≡ delays.old.items ++ replicate ports delay) }
{
    for _port in 0..ports {
        delays.push(delay)?;
    }
    Ok(())
}

/// The delay of each port of these repeaters.
pub fn delays_of(alloc: Global, repeaters: &[RepeaterLine]) -> Result<Vec<u32>, OutOfMemory>
    ensures { IfOk result (λ delays. delays.items ≡ delays_of repeaters.now) }
{
    let mut delays = Vec::new(alloc);
    for repeater in repeaters {
        push_delays(&mut delays, repeater.delay, repeater.ports.len())?;
    }
    Ok(delays)
}
