//! What a run begins with.
ghost use Rattle.std.specs.Prelude.{◌≡◌, ◌≤◌, IfOk, false, length};
ghost use Rattle.net_parts.specs.Windows.{edge_ports};
ghost use Rattle.layout.specs.Sound.{IsSound};
ghost use Rattle.turn_run.specs.ParcelsInTurn.{all_parcels, edges};
ghost use Rattle.turn_run.specs.PartsInTurn.{AreAtWindow};

use crate::kind::PartKind;
use layout::Layout;
use lists::OutOfMemory;
use load_plan::Plan;
use net_parts::{Pace, Parcel, Symbols};
use std::alloc::Global;

/// All parts of a kind, in order of their numbers.
pub fn make_parts<K: PartKind>(
    alloc: Global,
    plan: &Plan,
    pace: &Pace,
    count: u32,
) -> Result<Vec<K>, OutOfMemory>
    requires paced { pace.now.plan.value ≡ plan.now }
    requires count { count ≡ K.many plan.now }
    ensures { IfOk result (λ parts. AreAtWindow K.plan K.number K.at plan.now (K.first plan.now) count 0 parts.items) }
{
    let mut parts = Vec::new(alloc);
    for number in 0..count {
        parts.push(K::make(alloc, plan, pace, number)?)?;
    }
    Ok(parts)
}

/// How many edges a plan has.
pub fn count_edges(plan: &Plan) -> u32
    ensures value { result ≡ edges plan.now }
    ensures few { result ≤ 4096 }
{
    count_ports(&plan.layout)
}

/// How many ports the repeaters of a layout have.
fn count_ports(layout: &Layout) -> u32
    requires { IsSound layout.now }
    ensures value { result ≡ length (edge_ports layout.now) }
    ensures few { result ≤ 4096 }
{
    let repeaters = layout.repeaters.as_slice();
    let mut ports = 0u32;
    for repeater in repeaters {
        ports += repeater.ports.len() as u32;
    }
    ports
}

/// The parcels of all edges with which a run begins, each at the place of its edge: on the way to the segments, and
/// full of Idle.
pub fn first_parcels(
    alloc: Global,
    plan: &Plan,
    pace: &Pace,
    count: u32,
) -> Result<Vec<Parcel>, OutOfMemory>
    requires paced { pace.now.plan.value ≡ plan.now }
    requires count { count ≡ edges plan.now }
    ensures { IfOk result (λ parcels. parcels.items ≡ all_parcels plan.now false 0) }
{
    let half_bits = pace.lookahead as usize;
    let mut parcels = Vec::new(alloc);
    for edge in 0..count {
        parcels.push(Parcel {
            edge,
            window: 0,
            to_repeater: false,
            symbols: Symbols::idle(alloc, half_bits)?,
            spoiled: false,
        })?;
    }
    Ok(parcels)
}

/// So many parcels without symbols, which take no memory but their own.
pub fn empty_hand(alloc: Global, count: u32) -> Result<Vec<Parcel>, OutOfMemory>
    ensures { IfOk result (λ hand. length hand.items ≡ count) }
{
    let mut hand = Vec::new(alloc);
    for edge in 0..count {
        hand.push(Parcel {
            edge,
            window: 0,
            to_repeater: false,
            symbols: Symbols::none(alloc),
            spoiled: true,
        })?;
    }
    Ok(hand)
}
