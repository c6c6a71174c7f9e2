//! The form that runs the layout of demo of a number.
ghost use Rattle.std.specs.Prelude.{◌≡◌, ◌≤◌, ◌++◌, [], All, IfOk, OnOk, decimal, length, replicate};
ghost use Rattle.run_endings.specs.FileLimits.{most_load_records};
ghost use Rattle.demo_layout.specs.Demo.{demo_of};
ghost use Rattle.layout.specs.Limits.{most_repeaters};
ghost use Rattle.layout.specs.Sound.{IsSound};
ghost use Rattle.run_endings.specs.Answers.{ending_of};
ghost use Rattle.program_endings.specs.Demos.{IsDemoText, empty_loads, line_of_demo};
ghost use Rattle.program_endings.specs.Endings.{IsDemoEnd};
ghost use Rattle.run_endings.specs.Runs.{IsMadeOf, IsSummary};
ghost use Rattle.program_words.specs.WordLimits.{most_workers};

use crate::runs::workers_at_once;
use demo_layout::demo as demo_layout_of;
use layout::Layout;
use lists::{List, OutOfMemory};
use load_plan::{Plan, RecordsList, make_plan};
use outside::{Gate, Sink, Store};
use program_texts::add_count;
use run_endings::Ending;
use run_forms::{World, summary_of};
use std::alloc::Global;
use std::sync::Wait;
use std::thread::Threads;
use window_run::run_by_windows;

/// Puts a word and a count in decimal at the end of a line.
fn add_counted(line: &mut List<u8>, word: &[u8], count: usize) -> Result<(), OutOfMemory>
    ensures { OnOk result (line.new ≡ (line.old ++ word.now) ++ decimal count) }
{
    line.extend(word)?;
    add_count(line, count)
}

/// The line that says how large the layout of demo of a number is.
fn line_of_demo(alloc: Global, number: u32, network: &Layout) -> Result<List<u8>, OutOfMemory>
    ensures { IfOk result (λ line. line ≡ line_of_demo number network.now) }
{
    let mut line = List::new(alloc);
    add_counted(&mut line, b"demo ", number as usize)?;
    add_counted(&mut line, b" segments ", network.segments.len())?;
    add_counted(&mut line, b" repeaters ", network.repeaters.len())?;
    add_counted(&mut line, b" stations ", network.stations.len())?;
    line.extend(b"\n")?;
    Ok(line)
}

/// So many loads without a record.
fn no_loads(alloc: Global, count: usize) -> Result<RecordsList, OutOfMemory>
    ensures loads { IfOk result (λ loads. loads ≡ replicate count []) }
    ensures count { IfOk result (λ loads. length loads ≡ count) }
    ensures few { IfOk result (λ loads. All (λ rs. length rs ≤ most_load_records) loads) }
{
    let mut loads = List::new(alloc);
    for _station in 0..count {
        loads.push(List::new(alloc))?;
    }
    Ok(loads)
}

/// The plan of the layout of demo of a number, none of whose stations has a load.
fn plan_of_demo(alloc: Global, number: u32) -> Result<Plan, OutOfMemory>
    requires least { 1 ≤ number }
    requires most { number ≤ most_repeaters }
    ensures sound { IfOk result (λ plan. IsSound plan.layout) }
    ensures made { IfOk result (λ plan. IsMadeOf (demo_of number) (empty_loads (demo_of number)) plan) }
{
    let network = demo_layout_of(alloc, number)?;
    let loads = no_loads(alloc, network.stations.len())?;
    Ok(make_plan(alloc, network, loads)?)
}

/// The summary of a plan's run on 1 to 64 workers, of which no more are at work than there are processors. It may wait.
fn summary_of_run<X: Threads + Wait + Sync, G: Gate>(
    rt: &X,
    alloc: Global,
    plan: &Plan,
    workers: u32,
    gate: &G,
) -> Result<List<u8>, OutOfMemory>
    requires sound { IsSound plan.now.layout }
    requires least_workers { 1 ≤ workers }
    requires most_workers { workers ≤ most_workers }
    ensures { IfOk result (λ summary. IsSummary plan.now summary) }
{
    let outputs = run_by_windows(rt, alloc, plan, workers_at_once(rt, workers), gate)?;
    summary_of(alloc, plan, &outputs)
}

/// The line of the layout of demo, and the summary of its plan's run. It may wait.
fn text_of_plan<X: Threads + Wait + Sync, G: Gate>(
    rt: &X,
    alloc: Global,
    number: u32,
    plan: &Plan,
    workers: u32,
    gate: &G,
) -> Result<List<u8>, OutOfMemory>
    requires sound { IsSound plan.now.layout }
    requires made { IsMadeOf (demo_of number) (empty_loads (demo_of number)) plan.now }
    requires least_workers { 1 ≤ workers }
    requires most_workers { workers ≤ most_workers }
    ensures { IfOk result (λ text. IsDemoText number text) }
{
    let summary = summary_of_run(rt, alloc, plan, workers, gate)?;
    let mut text = line_of_demo(alloc, number, &plan.layout)?;
    text.extend(summary.as_slice())?;
    Ok(text)
}

/// The text of the layout of demo of a number, run on 1 to 64 workers. It may wait.
fn text_of_demo<X: Threads + Wait + Sync, G: Gate>(
    rt: &X,
    alloc: Global,
    number: u32,
    workers: u32,
    gate: &G,
) -> Result<List<u8>, OutOfMemory>
    requires least { 1 ≤ number }
    requires most { number ≤ most_repeaters }
    requires least_workers { 1 ≤ workers }
    requires most_workers { workers ≤ most_workers }
    ensures { IfOk result (λ text. IsDemoText number text) }
{
    let plan = plan_of_demo(alloc, number)?;
    text_of_plan(rt, alloc, number, &plan, workers, gate)
}

/// Runs the layout of demo of a number on 1 to 64 workers, and says its size and the summary. It may wait.
pub(crate) fn demo<X: Threads + Wait + Sync, G: Gate, S: Store, K: Sink>(
    rt: &X,
    alloc: Global,
    number: u32,
    workers: u32,
    gate: &G,
    world: &mut World<S, K>,
) -> Result<(), Ending>
    requires least { 1 ≤ number }
    requires most { number ≤ most_repeaters }
    requires least_workers { 1 ≤ workers }
    requires most_workers { workers ≤ most_workers }
    ensures { IsDemoEnd number world.old world.new (ending_of result) }
{
    let text = text_of_demo(rt, alloc, number, workers, gate)?;
    world.tell(text.as_slice())
}
