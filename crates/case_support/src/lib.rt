//! What the crates of tests and the measurements share: plans of layouts whose stations have no loads.
#![tactic(auto)]

ghost use Rattle.std.specs.Prelude.{◌≡◌, ◌≤◌, All, IfOk, length};
ghost use Rattle.layout.specs.Sound.{IsSound};

use capture_file::Records;
use layout_file::{LayoutFault, read_layout};
use lists::OutOfMemory;
use load_plan::{Plan, RecordsList, make_plan};
use std::alloc::Global;

/// No records for so many stations.
pub fn no_loads(alloc: Global, stations: usize) -> Result<RecordsList, OutOfMemory>
    ensures count { IfOk result (λ loads. length loads ≡ stations) }
    ensures few { IfOk result (λ loads. All (λ rs. length rs ≤ 4000000000) loads) }
{
    let mut loads = RecordsList::new(alloc);
    for _station in 0..stations {
        loads.push(Records::new(alloc))?;
    }
    Ok(loads)
}

/// The plan of a layout file's text, or its first fault. No station has a load.
pub fn plan_of(alloc: Global, text: &str) -> Result<Plan, LayoutFault>
    ensures { IfOk result (λ plan. IsSound plan.layout) }
{
    let layout = read_layout(alloc, text.as_bytes())?;
    let loads = no_loads(alloc, layout.stations.len())?;
    Ok(make_plan(alloc, layout, loads)?)
}
