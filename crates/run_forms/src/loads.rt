//! The loads of a layout, read and judged.
ghost use Rattle.std.specs.Prelude.{◌≡◌, ◌≤◌, length, All, IfOk, IfErr, OnOk, option_map};
ghost use Rattle.layout.specs.Sound.{IsSound};
ghost use Rattle.load_files.specs.Loaded.{IsLoaded, Whole, load_of};
ghost use Rattle.run_forms.specs.LoadLines.{IsLineOfFaultyLoad, IsLineOfUnreadLoad};
ghost use Rattle.run_endings.specs.Endings.{HasOnlyRead, IsUnloadedSaid};
ghost use Rattle.run_endings.specs.FileLimits.{most_load_records};

use crate::world::World;
use capture_file::CaptureFault;
use layout::{Layout, StationLine};
use lists::{List, OutOfMemory};
use load_files::{LoadStop, read_loads};
use load_plan::RecordsList;
use outside::{Sink, Store};
use program_texts::{line_of_load_fault, line_of_read_fault};
use run_endings::Ending;
use std::alloc::Global;

/// The line that says that the load of a station, numbered from 0, has a fault.
fn line_of_faulty(
    alloc: Global,
    stations: &[StationLine],
    station: u32,
    fault: &CaptureFault,
) -> Result<List<u8>, OutOfMemory>
    ensures { IfOk result (λ line. IsLineOfFaultyLoad stations.now station fault.now line) }
{
    let Some(line) = stations.get(station as usize) else {
        return Err(OutOfMemory);
    };
    line_of_load_fault(alloc, line.name.as_str(), fault)
}

/// The name of a station's load, if it has one.
fn load_of(stations: &[StationLine], station: u32) -> Option<&str>
    ensures { option_map (λ name. name.now) result ≡ load_of stations.now station }
{
    match &stations.get(station as usize)?.load {
        Some(name) => Some(name.as_str()),
        None => None,
    }
}

/// The line that says that the load of a station, numbered from 0, can't be read.
fn line_of_unread(
    alloc: Global,
    stations: &[StationLine],
    station: u32,
) -> Result<List<u8>, OutOfMemory>
    ensures { IfOk result (λ line. IsLineOfUnreadLoad stations.now station line) }
{
    let Some(name) = load_of(stations, station) else {
        return Err(OutOfMemory);
    };
    line_of_read_fault(alloc, name)
}

/// Reads and judges the loads of a network, or says why they can't be read.
pub fn read_network_loads<S: Store, K: Sink>(
    alloc: Global,
    network: &Layout,
    world: &mut World<S, K>,
) -> Result<RecordsList, Ending>
    requires { IsSound network.now }
    ensures loaded { IfOk result (λ loads. IsLoaded world.old.held network.now.stations (Whole loads)) }
    ensures count { IfOk result (λ loads. length loads ≡ length network.now.stations) }
    ensures few { IfOk result (λ loads. All (λ rs. length rs ≤ most_load_records) loads) }
    ensures read { OnOk result (HasOnlyRead world.old world.new) }
    ensures unloaded { IfErr result (λ e. IsUnloadedSaid network.now world.old world.new e) }
    ensures held { world.new.held ≡ world.old.held }
{
    let stations = network.stations.as_slice();
    match read_loads(alloc, &mut world.store, stations) {
        Ok(loads) => Ok(loads),
        Err(LoadStop::Fault { station, fault }) => {
            let line = line_of_faulty(alloc, stations, station, &fault)?;
            world.say(line.as_slice());
            Err(Ending::Load)
        }
        Err(LoadStop::Unread { station }) => {
            let line = line_of_unread(alloc, stations, station)?;
            world.say(line.as_slice());
            Err(Ending::Read)
        }
        Err(LoadStop::OutOfMemory) => Err(Ending::Memory),
    }
}
