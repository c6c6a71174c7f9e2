//! The files of a run.
ghost use Rattle.std.specs.Prelude.{◌≡◌, All, OnOk, OnErr, IfErr};
ghost use Rattle.layout.specs.Sound.{IsSound};
ghost use Rattle.run_texts.specs.Captures.{AreShort, pcap_of_taken};
ghost use Rattle.run_texts.specs.Counts.{AreLeft, counts_of};
ghost use Rattle.run_endings.specs.Endings.{HasOnlyFiled, IsFileEnd};
ghost use Rattle.run_endings.specs.Writing.{IsBroken, IsBrokenAmong, put_file, put_all};
ghost use Rattle.run_endings.specs.Runs.{capture_files, output_files};
ghost use Rattle.run_texts.specs.Texts.{counters_of_rows, log_of_rows};
ghost use Rattle.program_texts.specs.Texts.{name_of_capture, name_of_counters, name_of_log};

use crate::world::World;
use layout::StationLine;
use load_plan::Plan;
use network::{Outputs, TakenList};
use outside::{Sink, Store};
use program_texts::{name_of_capture, name_of_counters, name_of_log};
use run_endings::Ending;
use run_texts::{counters_of_rows, log_of_rows, pcap_of};
use std::alloc::Global;

/// Writes the log of a run of a plan.
fn file_log<S: Store, K: Sink>(
    alloc: Global,
    plan: &Plan,
    outputs: &Outputs,
    prefix: &str,
    world: &mut World<S, K>,
) -> Result<(), Ending>
    requires sound { IsSound plan.now.layout }
    ensures ok { OnOk result (world.new.held ≡ put_file (name_of_log prefix.now) (log_of_rows plan.now.layout outputs.now.rows) world.old.held) }
    ensures err { OnErr result (IsBroken (name_of_log prefix.now) (log_of_rows plan.now.layout outputs.now.rows) world.old.held world.new.held) }
    ensures ended { IfErr result (λ e. IsFileEnd world.old world.new e) }
    ensures only { HasOnlyFiled world.old world.new }
{
    let name = name_of_log(alloc, prefix)?;
    let text = log_of_rows(alloc, &plan.layout, outputs.rows.as_slice())?;
    world.file(name.as_str(), text.as_slice())
}

/// Writes the counters of a run of a plan.
fn file_counters<S: Store, K: Sink>(
    alloc: Global,
    plan: &Plan,
    outputs: &Outputs,
    prefix: &str,
    world: &mut World<S, K>,
) -> Result<(), Ending>
    requires sound { IsSound plan.now.layout }
    requires left { AreLeft (counts_of plan.now outputs.now.rows) }
    ensures ok { OnOk result (world.new.held ≡ put_file (name_of_counters prefix.now) (counters_of_rows plan.now outputs.now.rows) world.old.held) }
    ensures err { OnErr result (IsBroken (name_of_counters prefix.now) (counters_of_rows plan.now outputs.now.rows) world.old.held world.new.held) }
    ensures ended { IfErr result (λ e. IsFileEnd world.old world.new e) }
    ensures only { HasOnlyFiled world.old world.new }
{
    let name = name_of_counters(alloc, prefix)?;
    let text = counters_of_rows(alloc, plan, outputs.rows.as_slice())?;
    world.file(name.as_str(), text.as_slice())
}

/// Writes the capture of a station.
fn file_capture<S: Store, K: Sink>(
    alloc: Global,
    station: &StationLine,
    taken: &TakenList,
    prefix: &str,
    world: &mut World<S, K>,
) -> Result<(), Ending>
    requires { AreShort taken.now }
    ensures ok { OnOk result (world.new.held ≡ put_file (name_of_capture prefix.now station.now.name) (pcap_of_taken taken.now) world.old.held) }
    ensures err { OnErr result (IsBroken (name_of_capture prefix.now station.now.name) (pcap_of_taken taken.now) world.old.held world.new.held) }
    ensures ended { IfErr result (λ e. IsFileEnd world.old world.new e) }
    ensures only { HasOnlyFiled world.old world.new }
{
    let name = name_of_capture(alloc, prefix, station.name.as_str())?;
    let capture = pcap_of(alloc, taken)?;
    world.file(name.as_str(), capture.bytes())
}

/// Writes the captures of stations, one after the other.
fn file_captures<S: Store, K: Sink>(
    alloc: Global,
    stations: &[StationLine],
    captures: &[TakenList],
    prefix: &str,
    world: &mut World<S, K>,
) -> Result<(), Ending>
    requires { All AreShort captures.now }
    ensures ok { OnOk result (world.new.held ≡ put_all (capture_files prefix.now stations.now captures.now) world.old.held) }
    ensures err { OnErr result (IsBrokenAmong (capture_files prefix.now stations.now captures.now) world.old.held world.new.held) }
    ensures ended { IfErr result (λ e. IsFileEnd world.old world.new e) }
    ensures only { HasOnlyFiled world.old world.new }
{
    let count = stations.len().min(captures.len());
    for k in 0..count {
        file_capture(alloc, &stations[k], &captures[k], prefix, world)?;
    }
    Ok(())
}

/// Writes the files of a run of a plan: its log, its counters and the capture of each station.
pub fn file_outputs<S: Store, K: Sink>(
    alloc: Global,
    plan: &Plan,
    outputs: &Outputs,
    prefix: &str,
    world: &mut World<S, K>,
) -> Result<(), Ending>
    requires sound { IsSound plan.now.layout }
    requires left { AreLeft (counts_of plan.now outputs.now.rows) }
    requires short { All AreShort outputs.now.captures }
    ensures ok { OnOk result (world.new.held ≡ put_all (output_files prefix.now plan.now outputs.now.rows outputs.now.captures) world.old.held) }
    ensures err { OnErr result (IsBrokenAmong (output_files prefix.now plan.now outputs.now.rows outputs.now.captures) world.old.held world.new.held) }
    ensures ended { IfErr result (λ e. IsFileEnd world.old world.new e) }
    ensures only { HasOnlyFiled world.old world.new }
{
    file_log(alloc, plan, outputs, prefix, world)?;
    file_counters(alloc, plan, outputs, prefix, world)?;
    let stations = plan.layout.stations.as_slice();
    file_captures(alloc, stations, outputs.captures.as_slice(), prefix, world)
}
