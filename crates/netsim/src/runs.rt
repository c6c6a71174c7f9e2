//! The form that runs the network of a layout file on workers.
ghost use Rattle.std.specs.Prelude.{◌≤◌};
ghost use Rattle.program_words.specs.WordLimits.{most_workers};
ghost use Rattle.run_endings.specs.Answers.{ending_of};
ghost use Rattle.run_endings.specs.Endings.{IsPlainEnd};

use outside::{Gate, Sink, Store};
use run_endings::Ending;
use run_forms::{World, Written, file_whole_run, read_plan};
use std::alloc::Global;
use std::sync::Wait;
use std::thread::{Threads, available_parallelism};
use window_run::run_by_windows;

/// Runs the network of a layout file and its loads on 1 to 64 workers, of which no more are at work than there are
/// processors, writes the files of a prefix, and says the summary. It may wait.
pub(crate) fn run<X: Threads + Wait + Sync, G: Gate, S: Store, K: Sink>(
    rt: &X,
    alloc: Global,
    layout: &str,
    prefix: &str,
    workers: u32,
    gate: &G,
    world: &mut World<S, K>,
) -> Result<(), Ending>
    requires least { 1 ≤ workers }
    requires most { workers ≤ most_workers }
    ensures { IsPlainEnd layout.now prefix.now world.old world.new (ending_of result) }
{
    let plan = read_plan(alloc, layout, Written::Run, prefix, world)?;
    let outputs = run_by_windows(rt, alloc, &plan, workers_at_once(rt, workers), gate)?;
    file_whole_run(alloc, &plan, &outputs, prefix, world)
}

/// So many workers, or as many as there are processors where these are fewer and the system says how many there are.
pub(crate) fn workers_at_once<X: Threads>(rt: &X, workers: u32) -> u32
    requires { 1 ≤ workers }
    ensures least { 1 ≤ result }
    ensures most { result ≤ workers }
{
    match available_parallelism(rt) {
        Ok(processors) => workers.min(u32::try_from(processors.get()).unwrap_or(workers)),
        Err(_) => workers,
    }
}
