//! The plan of a layout file and its loads.
ghost use Rattle.std.specs.Prelude.{◌≡◌, IfOk, IfErr, OnOk};
ghost use Rattle.layout.specs.Sound.{IsSound};
ghost use Rattle.run_endings.specs.Endings.{IsBeforeRun, IsPlanned, IsUnloadedSaid, HasOnlyRead};
ghost use Rattle.run_endings.specs.Runs.{IsPlanOf};
ghost use Rattle.run_endings.specs.WrittenNames.{AreNamesFree};
ghost use Rattle.run_forms.specs.WrittenBy.{written_by};

use crate::judge::read_network;
use crate::loads::read_network_loads;
use crate::world::World;
use crate::written::{Written, judge_names};
use layout::Layout;
use load_plan::{Plan, make_plan};
use outside::{Sink, Store};
use run_endings::Ending;
use std::alloc::Global;

/// Reads the loads of a network and makes their plan, or says why there is none.
pub fn plan_network<S: Store, K: Sink>(
    alloc: Global,
    network: Layout,
    world: &mut World<S, K>,
) -> Result<Plan, Ending>
    requires { IsSound network }
    ensures planned { IfOk result (λ plan. IsPlanOf world.old.held network plan) }
    ensures sound { IfOk result (λ plan. IsSound plan.layout) }
    ensures read { OnOk result (HasOnlyRead world.old world.new) }
    ensures unloaded { IfErr result (λ e. IsUnloadedSaid network world.old world.new e) }
    ensures held { world.new.held ≡ world.old.held }
{
    let loads = read_network_loads(alloc, &network, world)?;
    let plan = make_plan(alloc, network, loads)?;
    Ok(plan)
}

/// Reads a layout file, tests that no file to be written has its name or that of a load, reads its loads and makes their
/// plan, or says why there is none.
pub fn read_plan<S: Store, K: Sink>(
    alloc: Global,
    layout: &str,
    written: Written,
    prefix: &str,
    world: &mut World<S, K>,
) -> Result<Plan, Ending>
    ensures planned { IfOk result (λ plan. IsPlanned layout.now world.old.held plan) }
    ensures free { IfOk result (λ plan. AreNamesFree layout.now (written_by written prefix.now) plan.layout) }
    ensures sound { IfOk result (λ plan. IsSound plan.layout) }
    ensures read { OnOk result (HasOnlyRead world.old world.new) }
    ensures unplanned { IfErr result (λ e. IsBeforeRun layout.now (written_by written prefix.now) world.old world.new e) }
{
    let network = read_network(alloc, layout, world)?;
    judge_names(alloc, layout, written, prefix, &network, world)?;
    let plan = plan_network(alloc, network, world)?;
    Ok(plan)
}
