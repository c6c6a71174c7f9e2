//! The edges of a part, and the parcels with which a run begins.
ghost use Rattle.std.specs.Prelude.{◌≡◌, ◌<◌, ◌≤◌, ◌+◌, ◌*◌, ◌++◌, length, IfOk, OnOk, false, replicate};
ghost use Rattle.layout.specs.Sound.{IsSound};
ghost use Rattle.manchester_line.specs.declared.Sym.TheVariants.{Idle};
ghost use Rattle.net_parts.specs.Parts.{edges_of_part, parts};
ghost use Rattle.net_parts.specs.Parcels.{arrived};
ghost use Rattle.net_parts.specs.RepeaterParts.{edges_at, edges_before};
ghost use Rattle.network.specs.TapsOnSegments.{numbers_on};
ghost use Rattle.net_parts.specs.SegmentParts.{wiring};

use crate::pace::Pace;
use crate::parcel::{Parcel, ParcelList, Symbols};
use layout::{Layout, PortLine};
use lists::{List, OutOfMemory};
use load_plan::Plan;
use std::alloc::Global;

/// The edges of a part, ascending.
pub fn edges_of(alloc: Global, plan: &Plan, part: u32) -> Result<List<u32>, OutOfMemory>
    requires { part < parts plan.now }
    ensures { IfOk result (λ edges. edges ≡ edges_of_part plan.now part) }
{
    let part = part as usize;
    let segments = plan.layout.segments.len();
    if part < segments {
        edges_on_segment(alloc, &plan.layout, part)
    } else {
        edges_at_repeater(alloc, &plan.layout, part - segments)
    }
}

/// The edges of the ports on a segment.
fn edges_on_segment(
    alloc: Global,
    layout: &Layout,
    segment: usize,
) -> Result<List<u32>, OutOfMemory>
    requires { IsSound layout.now }
    ensures { IfOk result (λ edges. edges ≡ (wiring layout.now segment).edges) }
{
    let repeaters = layout.repeaters.as_slice();
    let mut edges = List::new(alloc);
    let mut first = 0u32;
    for repeater in repeaters {
        let ports = repeater.ports.as_slice();
        push_edges(&mut edges, segment, first, ports)?;
        first += ports.len() as u32;
    }
    Ok(edges)
}

/// Puts the edges of those of these ports that are on a segment behind the others; the first of the ports is edge
/// `first`.
fn push_edges(
    edges: &mut List<u32>,
    segment: usize,
    first: u32,
    ports: &[PortLine],
) -> Result<(), OutOfMemory>
    requires { first + length ports.now ≤ 4096 }
    ensures { OnOk result (edges.new ≡ edges.old ++ numbers_on segment first ports.now) }
{
    for k in 0..ports.len() {
        if ports[k].segment as usize != segment {
            continue;
        }
        edges.push(first + k as u32)?;
    }
    Ok(())
}

/// The edges of the ports of a repeater.
fn edges_at_repeater(
    alloc: Global,
    layout: &Layout,
    repeater: usize,
) -> Result<List<u32>, OutOfMemory>
    requires sound { IsSound layout.now }
    requires within { repeater < length layout.now.repeaters }
    ensures { IfOk result (λ edges. edges ≡ edges_at layout.now repeater) }
{
    let first = edges_before(layout, repeater);
    let ports = layout.repeaters.as_slice()[repeater].ports.len();
    let mut edges = List::new(alloc);
    for p in 0..ports {
        edges.push(first + p as u32)?;
    }
    Ok(edges)
}

/// How many ports the repeaters before this one have.
fn edges_before(layout: &Layout, repeater: usize) -> u32
    requires sound { IsSound layout.now }
    requires within { repeater < length layout.now.repeaters }
    ensures value { result ≡ edges_before layout.now.repeaters repeater }
    ensures few { result ≤ 32 * repeater }
{
    let repeaters = layout.repeaters.as_slice();
    let mut edges = 0u32;
    for k in 0..repeater {
        edges += repeaters[k].ports.len() as u32;
    }
    edges
}

/// The parcels that a segment gets for the first window: full of Idle.
pub fn opening(alloc: Global, plan: &Plan, segment: u32) -> Result<ParcelList, OutOfMemory>
    requires { segment < length plan.now.layout.segments }
    ensures { IfOk result (λ parcels. parcels ≡ arrived plan.now segment 0) }
{
    paced_opening(alloc, plan, &Pace::of(plan), segment)
}

/// The same at a pace that was reckoned before.
pub fn paced_opening(
    alloc: Global,
    plan: &Plan,
    pace: &Pace,
    segment: u32,
) -> Result<ParcelList, OutOfMemory>
    requires pace { pace.now.plan.value ≡ plan.now }
    requires within { segment < length plan.now.layout.segments }
    ensures { IfOk result (λ parcels. parcels ≡ arrived plan.now segment 0) }
{
    let mut parcels = List::new(alloc);
    let half_bits = pace.lookahead as usize;
    let edges = edges_of(alloc, plan, segment)?;
    for k in 0..edges.len() {
        parcels.push(opening_parcel(alloc, edges.as_slice()[k], half_bits)?)?;
    }
    Ok(parcels)
}

/// The parcel of an edge on the way to its segment, with stamp 0 and so many times Idle.
fn opening_parcel(alloc: Global, edge: u32, half_bits: usize) -> Result<Parcel, OutOfMemory>
    ensures { IfOk result (λ parcel. parcel ≡
        record { edge = edge; window = 0; to_repeater = false; symbols = replicate half_bits Idle; spoiled = false }) }
{
    Ok(Parcel {
        edge,
        window: 0,
        to_repeater: false,
        symbols: Symbols::idle(alloc, half_bits)?,
        spoiled: false,
    })
}
