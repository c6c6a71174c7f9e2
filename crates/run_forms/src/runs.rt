//! The form that runs the network of a layout file on one thread, and what each run writes.
ghost use Rattle.std.specs.Prelude.{◌≡◌, All, IfOk};
ghost use Rattle.layout.specs.Sound.{IsSound};
ghost use Rattle.network.specs.Outputs.{captures, rows};
ghost use Rattle.run_endings.specs.Answers.{ending_of};
ghost use Rattle.run_endings.specs.Endings.{IsPlainEnd, IsRunEnd};
ghost use Rattle.run_endings.specs.Runs.{IsSummary, IsSummaryOver, output_files, run_files};
ghost use Rattle.run_texts.specs.Captures.{AreShort};
ghost use Rattle.run_texts.specs.Counts.{AreLeft, counts_of};

use crate::outputs::file_outputs;
use crate::plans::read_plan;
use crate::world::World;
use crate::written::Written;
use lists::{List, OutOfMemory};
use load_plan::Plan;
use network::Outputs;
use outside::{Gate, Sink, Store};
use program_texts::verdict_line;
use run_endings::Ending;
use run_texts::laws::{captures_are_short, frames_are_left};
use run_texts::totals_of_rows;
use std::alloc::Global;
use turn_run::run_in_turn;

/// The summary of a run of a plan.
pub fn summary_of(alloc: Global, plan: &Plan, outputs: &Outputs) -> Result<List<u8>, OutOfMemory>
    requires sound { IsSound plan.now.layout }
    ensures { IfOk result (λ text. IsSummaryOver plan.now outputs.now.rows text) }
{
    let mut text = verdict_line(alloc, &plan.layout)?;
    let totals = totals_of_rows(alloc, plan, outputs.rows.as_slice())?;
    text.extend(totals.as_slice())?;
    Ok(text)
}

/// Writes the files of a prefix by what a run of a plan gave, and then the summary.
pub fn file_run<S: Store, K: Sink>(
    alloc: Global,
    plan: &Plan,
    outputs: &Outputs,
    prefix: &str,
    world: &mut World<S, K>,
) -> Result<(), Ending>
    requires sound { IsSound plan.now.layout }
    requires left { AreLeft (counts_of plan.now outputs.now.rows) }
    requires short { All AreShort outputs.now.captures }
    ensures { IsRunEnd (output_files prefix.now plan.now outputs.now.rows outputs.now.captures)
        (IsSummaryOver plan.now outputs.now.rows) world.old world.new (ending_of result) }
{
    let summary = summary_of(alloc, plan, outputs)?;
    file_outputs(alloc, plan, outputs, prefix, world)?;
    world.tell(summary.as_slice())
}

/// The same of a plan's whole run.
pub fn file_whole_run<S: Store, K: Sink>(
    alloc: Global,
    plan: &Plan,
    outputs: &Outputs,
    prefix: &str,
    world: &mut World<S, K>,
) -> Result<(), Ending>
    requires sound { IsSound plan.now.layout }
    requires rows { outputs.now.rows ≡ rows plan.now }
    requires captures { outputs.now.captures ≡ captures plan.now }
    ensures { IsRunEnd (run_files prefix.now plan.now) (IsSummary plan.now) world.old world.new (ending_of result) }
{
    frames_are_left(plan);
    captures_are_short(plan);
    file_run(alloc, plan, outputs, prefix, world)
}

/// Runs the network of a layout file and its loads on one thread, writes the files of a prefix, and says the summary.
pub fn plain<G: Gate, S: Store, K: Sink>(
    alloc: Global,
    layout: &str,
    prefix: &str,
    gate: &G,
    world: &mut World<S, K>,
) -> Result<(), Ending>
    ensures { IsPlainEnd layout.now prefix.now world.old world.new (ending_of result) }
{
    let plan = read_plan(alloc, layout, Written::Run, prefix, world)?;
    let outputs = run_in_turn(alloc, &plan, gate)?;
    file_whole_run(alloc, &plan, &outputs, prefix, world)
}
