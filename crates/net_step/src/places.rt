//! The taps of a layout, and where each is.
ghost use Rattle.std.specs.Prelude.{◌≡◌, ◌<◌, ◌≤◌, ◌^◌, length, IfOk};
ghost use Rattle.net_step.specs.Wires.{places_from};
ghost use Rattle.network.specs.TapsOnSegments.{count_on};

use layout::PortLine;
use lists::OutOfMemory;
use std::alloc::Global;

/// Where a tap is: its segment, and its number among the taps of that segment, both counted from 0.
#[derive(Clone, Copy)]
pub struct TapOnSegment {
    pub segment: u32,
    pub local: u32,
}

/// How many of these taps are on a segment.
fn count_on(taps: &[PortLine], segment: u32) -> usize
    ensures count { result ≡ count_on segment taps.now }
    ensures few { result ≤ length taps.now }
{
    taps.iter().filter(|tap| tap.segment == segment).count()
}

/// The place of each tap.
pub fn places_of(alloc: Global, taps: &[PortLine]) -> Result<Vec<TapOnSegment>, OutOfMemory>
    requires { length taps.now < 2 ^ 32 }
    ensures { IfOk result (λ places. places.items ≡ places_from 0 taps.now taps.now) }
{
    let mut places = Vec::new(alloc);
    for q in 0..taps.len() {
        let segment = taps[q].segment;
        let local = count_on(&taps[..q], segment) as u32;
        places.push(TapOnSegment { segment, local })?;
    }
    Ok(places)
}
