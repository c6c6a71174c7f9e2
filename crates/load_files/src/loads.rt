//! The loads of all stations.
ghost use Rattle.std.specs.Prelude.{◌≡◌, ◌≤◌, ◌<◌, ◌+◌, length, All, IfOk, IfErr};
ghost use Rattle.layout.specs.Limits.{most_stations};
ghost use Rattle.load_files.specs.Loaded.{IsLoadOf, IsLoaded, IsStopped, IsUnloadedOf, Whole, most_of_loads, stop_at};

use crate::load::{Load, Unloaded, read_load};
use crate::stop::LoadStop;
use capture_file::Records;
use layout::StationLine;
use lists::OutOfMemory;
use load_plan::RecordsList;
use outside::Store;
use std::alloc::Global;

/// The most octets of one load (profile).
const MOST_OF_LOAD: usize = 67_108_864;

/// The most octets of all loads together (profile).
const MOST_OF_LOADS: usize = 268_435_456;

/// The most octets that are read at once (profile).
pub(crate) const PIECE: usize = 65_536;

impl From<OutOfMemory> for LoadStop {
    ghost use Rattle.std.specs.Prelude.{◌≡◌};
    ghost use Rattle.load_files.specs.declared.stop.LoadStop.TheVariants as stop;

    ghost from_gives = { λ _ s. s ≡ stop.OutOfMemory };

    fn from(_: OutOfMemory) -> Self {
        LoadStop::OutOfMemory
    }
}

/// Why the loads of all stations can't be read, where that of this station can't.
fn stop_at(station: u32, unloaded: Unloaded) -> LoadStop
    ensures { result ≡ stop_at station unloaded }
{
    match unloaded {
        Unloaded::Fault(fault) => LoadStop::Fault { station, fault },
        Unloaded::Unread => LoadStop::Unread { station },
        Unloaded::OutOfMemory => LoadStop::OutOfMemory,
    }
}

/// Reads a station's load where the loads before it have so many octets; no records where it has none.
fn read_station<S: Store>(
    alloc: Global,
    store: &mut S,
    station: &StationLine,
    before: usize,
    room: &mut [u8],
) -> Result<Load, Unloaded>
    requires before { before ≤ most_of_loads }
    requires room { 0 < length room.old }
    ensures load { IfOk result (λ load. IsLoadOf before station.now.load (S.held store.old) load) }
    ensures before { IfOk result (λ load. before + load.octets ≤ most_of_loads) }
    ensures few { IfOk result (λ load. length load.records ≤ 4194304) }
    ensures stopped { IfErr result (λ u. IsUnloadedOf before station.now.load (S.held store.old) (S.read_faults store.old) (S.read_faults store.new) u) }
    ensures held { S.held store.new ≡ S.held store.old }
    ensures reads { S.read_faults store.old ≤ S.read_faults store.new }
    ensures writes { S.write_faults store.old ≤ S.write_faults store.new }
{
    match &station.load {
        Some(name) => {
            let most = MOST_OF_LOAD.min(MOST_OF_LOADS - before);
            read_load(alloc, store, name.as_str(), most, room)
        }
        None => Ok(Load {
            records: Records::new(alloc),
            octets: 0,
        }),
    }
}

/// Room for what is read at once.
fn piece_room(alloc: Global) -> Result<Vec<u8>, OutOfMemory>
    ensures { IfOk result (λ room. 0 < length room.items) }
{
    vec![in alloc; 0; PIECE].map_err(|_| OutOfMemory)
}

/// Reads the loads of stations in their order: the records of each, and none where a station has no load. A load that
/// two stations name is read for each. The first load with a fault, of more than 67,108,864 octets, or with which all
/// loads so far have more than 268,435,456, stops it, and so does the first that isn't held or can't be read; a load is
/// read to its end or one octet past its limit, by pieces of at most 65,536 octets (profile). Want of memory alone is
/// free.
pub fn read_loads<S: Store>(
    alloc: Global,
    store: &mut S,
    stations: &[StationLine],
) -> Result<RecordsList, LoadStop>
    requires { length stations.now ≤ most_stations }
    ensures whole { IfOk result (λ records. IsLoaded (S.held store.old) stations.now (Whole records)) }
    ensures count { IfOk result (λ records. length records ≡ length stations.now) }
    ensures few { IfOk result (λ records. All (λ rs. length rs ≤ 4194304) records) }
    ensures stopped { IfErr result (λ s. IsStopped (S.held store.old) stations.now (S.read_faults store.old) (S.read_faults store.new) s) }
    ensures held { S.held store.new ≡ S.held store.old }
    ensures reads { S.read_faults store.old ≤ S.read_faults store.new }
    ensures writes { S.write_faults store.old ≤ S.write_faults store.new }
{
    let mut room = piece_room(alloc)?;
    let mut loads = RecordsList::new(alloc);
    let mut before = 0;
    for (k, station) in stations.iter().enumerate() {
        match read_station(alloc, store, station, before, room.as_mut_slice()) {
            Ok(load) => {
                before += load.octets;
                loads.push(load.records)?;
            }
            Err(unloaded) => return Err(stop_at(k as u32, unloaded)),
        }
    }
    Ok(loads)
}
