//! A segment of a plan: its stations, its edges, and the windows of the run.
ghost use Rattle.std.specs.Prelude.{◌≡◌, ◌<◌, ◌*◌, length, map, IfOk};
ghost use Rattle.layout.specs.Taps.{tap_of};
ghost use Rattle.load_plan.specs.declared.plan.Plan.{Plan};
ghost use Rattle.network.specs.Outputs.{half_bits as half_bits_of};
ghost use Rattle.network.specs.TapsOnSegments.{numbers_on};
ghost use Rattle.net_parts.specs.Windows.{lookahead as lookahead_of, windows as windows_of};
ghost use Rattle.net_parts.specs.Parts.{parts};
ghost use Rattle.net_parts.specs.SegmentParts.{wiring};

use layout::{Layout, PortLine, StationLine};
use lists::{List, OutOfMemory};
use load_plan::Plan;
use net_parts::{Pace, edges_of};
use std::alloc::Global;
use std::snapshot::Snapshot;

/// A segment of a plan: its number, the numbers of its stations and edges, the half bits of a window and of the run,
/// and how many windows the run has.
#[derive(Drop)]
pub struct Segment {
    pub plan: Snapshot<Plan>,
    pub number: u32,
    pub stations: Vec<u32>,
    pub edges: List<u32>,
    pub lookahead: u32,
    pub half_bits: u64,
    pub windows: u64,
    ghost within: { number < length plan.value.layout.segments },
    ghost within_parts: { number < parts plan.value },
    ghost station_numbers: { stations.items ≡ (wiring plan.value.layout number).stations },
    ghost edge_numbers: { edges ≡ (wiring plan.value.layout number).edges },
    ghost window_length: { lookahead ≡ lookahead_of plan.value.layout },
    ghost run_length: { half_bits ≡ half_bits_of plan.value },
    ghost window_count: { windows ≡ windows_of plan.value },
}

/// The numbers of the stations on a segment.
fn stations_on(
    alloc: Global,
    stations: &[StationLine],
    segment: u32,
) -> Result<Vec<u32>, OutOfMemory>
    requires { length stations.now < 4294967296 }
    ensures { IfOk result (λ numbers. numbers.items ≡ numbers_on segment 0 (map tap_of stations.now)) }
{
    let mut numbers = Vec::new(alloc);
    for k in 0..stations.len() {
        if stations[k].segment != segment {
            continue;
        }
        numbers.push(k as u32)?;
    }
    Ok(numbers)
}

impl Segment {
    /// Segment number `number`, from 0, of a plan whose run has this pace.
    pub fn new(alloc: Global, plan: &Plan, pace: &Pace, number: u32) -> Result<Segment, OutOfMemory>
        requires pace { pace.now.plan.value ≡ plan.now }
        requires within { number < length plan.now.layout.segments }
        ensures plan { IfOk result (λ segment. segment.plan.value ≡ plan.now) }
        ensures number { IfOk result (λ segment. segment.number ≡ number) }
    {
        Ok(Segment {
            plan: Snapshot::of(plan),
            number,
            stations: stations_on(alloc, plan.layout.stations.as_slice(), number)?,
            edges: edges_of(alloc, plan, number)?,
            lookahead: pace.lookahead,
            half_bits: plan.layout.half_bits(),
            windows: pace.windows,
        })
    }
}
