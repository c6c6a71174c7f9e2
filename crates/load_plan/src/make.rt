//! The plan of a layout with loads.
ghost use Rattle.std.specs.Prelude.{◌≡◌, ◌≤◌, ◌==◌, length, map, IfOk, All};
ghost use Rattle.mac_parameters.specs.Parameters.{IsMost, most_octets};
ghost use Rattle.layout.specs.Limits.{most_sends, most_stations};
ghost use Rattle.layout.specs.Sound.{IsSound};
ghost use Rattle.load_plan.specs.Loads.{most_records_of_load, planned_queues, planned_skips, queues_from, skips_of};

use crate::loads::{queue_of_load, skips_of, start_of};
use crate::{Plan, Queues, SkipList};
use capture_file::Records;
use layout::{Layout, SendLine};
use lists::{List, OutOfMemory};
use mac_parameters::most_octets;
use std::alloc::Global;

/// The records of the stations' loads, in the order of the stations' numbers.
pub type RecordsList = List<Records>;

fn queues_of_loads(
    alloc: Global,
    start: u64,
    most: u32,
    sends: &[SendLine],
    loads: &[Records],
) -> Result<Queues, OutOfMemory>
    requires most { IsMost most }
    requires sends { length sends.now ≤ most_sends }
    requires stations { length loads.now ≤ most_stations }
    requires records { All (λ rs. length rs ≤ most_records_of_load) loads.now }
    ensures queues { IfOk result (λ queues. queues ≡ queues_from start most sends.now 0 loads.now) }
    ensures count { IfOk result (λ queues. length queues ≡ length loads.now) }
{
    let mut queues = Queues::new(alloc);
    for (station, load) in loads.iter().enumerate() {
        let queue = queue_of_load(alloc, start, most, sends, station as u32, load.as_slice())?;
        queues.push(queue)?;
    }
    Ok(queues)
}

fn skips_of_loads(alloc: Global, most: u32, loads: &[Records]) -> Result<SkipList, OutOfMemory>
    requires { All (λ rs. length rs ≤ most_records_of_load) loads.now }
    ensures { IfOk result (λ skips. skips ≡ map (skips_of most) loads.now) }
{
    let mut skips = SkipList::new(alloc);
    for load in loads {
        skips.push(skips_of(most, load.as_slice()))?;
    }
    Ok(skips)
}

/// The plan of a layout whose stations have these loads, empty where a station has none. Each station has
/// the records of its load that aren't skipped and after them its sends, both in the file's order. A record
/// is ready in the half bit of 50 ns that it comes in after the least time of all records, and each frame no
/// earlier than the one before it. A record is skipped as snapped where octets of it weren't kept, else as
/// short below the 14 octets of addresses and type, else as long above 1,514, or 1,518 in format 2.
#[tactic(auto, unfolding(crate::specs::Loads::planned_queues, crate::specs::Loads::planned_skips))]
pub fn make_plan(alloc: Global, layout: Layout, records: RecordsList) -> Result<Plan, OutOfMemory>
    requires sound { IsSound layout }
    requires loads { length records ≡ length layout.stations }
    requires few { All (λ rs. length rs ≤ most_records_of_load) records }
    ensures layout { IfOk result (λ plan. plan.layout ≡ layout) }
    ensures queues { IfOk result (λ plan. plan.queues ≡ planned_queues layout records) }
    ensures skips { IfOk result (λ plan. plan.skips ≡ planned_skips layout records) }
{
    let most = most_octets(layout.format == 2);
    let start = start_of(&records);
    let loads = records.as_slice();
    let queues = queues_of_loads(alloc, start, most, layout.sends.as_slice(), loads)?;
    let skips = skips_of_loads(alloc, most, loads)?;
    Ok(Plan {
        layout,
        queues,
        skips,
    })
}
