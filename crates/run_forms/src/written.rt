//! The files that a form writes, and whether one of them has the name of a file that it reads.
ghost use Rattle.std.specs.Prelude.{◌≡◌, IfErr, IfOk, OnOk, option_map, string_bytes};
ghost use Rattle.run_forms.specs.WrittenBy.{written_by};
ghost use Rattle.run_endings.specs.Endings.{HasOnlyRead, IsTakenEnd};
ghost use Rattle.run_endings.specs.WrittenNames.{AreNamesFree, capture_names, first_name_of_input, first_taken_name, is_name_of_input, is_name_of_load};

use crate::world::World;
use layout::{Layout, StationLine};
use lists::OutOfMemory;
use outside::{Sink, Store};
use program_texts::{
    line_of_output_fault, name_of_capture, name_of_counters, name_of_log, name_of_state,
};
use run_endings::Ending;
use std::alloc::Global;

/// Which files of a prefix a form writes.
#[derive(Clone, Copy)]
pub enum Written {
    /// Those of a run.
    Run,
    /// The state.
    State,
}

/// Whether the load of one of these stations has a name.
fn is_name_of_load(stations: &[StationLine], name: &str) -> bool
    ensures { result ≡ is_name_of_load stations.now name.now }
{
    for station in stations {
        if let Some(load) = &station.load {
            if load.as_str() == name {
                return true;
            }
        }
    }
    false
}

/// Whether a name is that of the layout or of the load of one of its stations.
fn is_name_of_input(layout: &str, network: &Layout, name: &str) -> bool
    ensures { result ≡ is_name_of_input layout.now network.now name.now }
{
    layout == name || is_name_of_load(network.stations.as_slice(), name)
}

/// The name of the first capture of a run that is that of an input.
fn taken_capture(
    alloc: Global,
    layout: &str,
    network: &Layout,
    prefix: &str,
) -> Result<Option<String>, OutOfMemory>
    ensures { IfOk result (λ taken. option_map string_bytes taken ≡
        first_name_of_input layout.now network.now (capture_names prefix.now network.now.stations)) }
{
    let stations = network.stations.as_slice();
    for station in stations {
        let name = name_of_capture(alloc, prefix, station.name.as_str())?;
        if is_name_of_input(layout, network, name.as_str()) {
            return Ok(Some(name));
        }
    }
    Ok(None)
}

/// The first name of a file to be written, in the order of writing, that is that of the layout or of a load.
#[tactic(auto, unfolding(run_endings::specs::WrittenNames::first_taken_name))]
fn taken_name(
    alloc: Global,
    layout: &str,
    written: Written,
    prefix: &str,
    network: &Layout,
) -> Result<Option<String>, OutOfMemory>
    ensures { IfOk result (λ taken. option_map string_bytes taken ≡ first_taken_name layout.now (written_by written prefix.now) network.now) }
{
    match written {
        Written::Run => {
            let log = name_of_log(alloc, prefix)?;
            if is_name_of_input(layout, network, log.as_str()) {
                return Ok(Some(log));
            }
            let counters = name_of_counters(alloc, prefix)?;
            if is_name_of_input(layout, network, counters.as_str()) {
                return Ok(Some(counters));
            }
            taken_capture(alloc, layout, network, prefix)
        }
        Written::State => {
            let state = name_of_state(alloc, prefix)?;
            if is_name_of_input(layout, network, state.as_str()) {
                return Ok(Some(state));
            }
            Ok(None)
        }
    }
}

/// Tests that no file to be written has the name of the layout or of a load, or says which is the first that has.
pub fn judge_names<S: Store, K: Sink>(
    alloc: Global,
    layout: &str,
    written: Written,
    prefix: &str,
    network: &Layout,
    world: &mut World<S, K>,
) -> Result<(), Ending>
    ensures free { OnOk result (AreNamesFree layout.now (written_by written prefix.now) network.now) }
    ensures read { OnOk result (HasOnlyRead world.old world.new) }
    ensures taken { IfErr result (λ e. IsTakenEnd layout.now (written_by written prefix.now) network.now world.old world.new e) }
    ensures held { world.new.held ≡ world.old.held }
{
    let Some(name) = taken_name(alloc, layout, written, prefix, network)? else {
        return Ok(());
    };
    let line = line_of_output_fault(alloc, name.as_str())?;
    world.say(line.as_slice());
    Err(Ending::Output)
}
