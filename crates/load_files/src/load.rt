//! One load, read through a reader of captures.
ghost use Rattle.std.specs.Prelude.{◌≡◌, ◌≤◌, ◌<◌, ◌+◌, ℕ, List, length, Ok, Err, IfOk, IfErr};
ghost use Rattle.capture_file.specs.Captures.{capture_fault};
ghost use Rattle.capture_file.specs.Reading.{Reads};
ghost use Rattle.capture_file.specs.declared.fault.CaptureFault.{CaptureFault};
ghost use Rattle.load_files.specs.Loaded.{IsJudgedLoad, IsLongAs, IsUnloaded, judged_by, most_of_load};
ghost use Rattle.load_files.specs.declared.load.Unloaded.TheVariants as unloaded;

use capture_file::{CaptureFault, CaptureReader, Records};
use file_pieces::{Taker, read_pieces};
use lists::OutOfMemory;
use outside::{Store, StoreFail};
use std::alloc::Global;

/// Why one load can't be read.
#[derive(Clone, Copy)]
pub(crate) enum Unloaded {
    Fault(CaptureFault),
    Unread,
    OutOfMemory,
}

impl From<OutOfMemory> for Unloaded {
    ghost use Rattle.std.specs.Prelude.{◌≡◌};
    ghost use Rattle.load_files.specs.declared.load.Unloaded.TheVariants as unloaded;

    ghost from_gives = { λ _ u. u ≡ unloaded.OutOfMemory };

    fn from(_: OutOfMemory) -> Self {
        Unloaded::OutOfMemory
    }
}

/// The records of a load, with the number of its octets.
#[derive(Drop)]
pub(crate) struct Load {
    pub records: Records,
    pub octets: usize,
}

/// The reader of a load, which takes its pieces.
#[derive(Drop)]
struct LoadReader {
    reader: CaptureReader,
}

impl Taker for LoadReader {
    ghost use Rattle.capture_file.specs.Reading.{Reads};

    ghost given = { λ load octets. Reads octets load.reader };

    fn take(&mut self, piece: &[u8]) -> Result<(), OutOfMemory> {
        self.reader.feed(piece)
    }
}

/// What a reader of a whole load answers.
fn finish(reader: CaptureReader, octets: usize) -> Result<Load, Unloaded>
    ensures whole { IfOk result (λ load. (load.octets ≡ octets) × ((stream : List ℕ) → Reads stream reader → judged_by (capture_fault stream) stream ≡ Ok load.records)) }
    ensures few { IfOk result (λ load. length load.records ≤ 4194304) }
    ensures fault { IfErr result (λ u. (f : CaptureFault) × (u ≡ unloaded.Fault f) × ((stream : List ℕ) → Reads stream reader → judged_by (capture_fault stream) stream ≡ Err f)) }
{
    match reader.end() {
        Ok(records) => Ok(Load { records, octets }),
        Err(fault) => Err(Unloaded::Fault(fault)),
    }
}

/// Reads a load that may have so many octets, to its end or to one octet past them, by pieces that fit the room.
pub(crate) fn read_load<S: Store>(
    alloc: Global,
    store: &mut S,
    name: &str,
    most: usize,
    room: &mut [u8],
) -> Result<Load, Unloaded>
    requires most { most ≤ most_of_load }
    requires room { 0 < length room.old }
    ensures records { IfOk result (λ load. IsJudgedLoad most name.now (S.held store.old) (Ok load.records)) }
    ensures octets { IfOk result (λ load. IsLongAs name.now (S.held store.old) load.octets) }
    ensures most { IfOk result (λ load. load.octets ≤ most) }
    ensures few { IfOk result (λ load. length load.records ≤ 4194304) }
    ensures stopped { IfErr result (λ u. IsUnloaded most name.now (S.held store.old) (S.read_faults store.old) (S.read_faults store.new) u) }
    ensures held { S.held store.new ≡ S.held store.old }
    ensures reads { S.read_faults store.old ≤ S.read_faults store.new }
    ensures writes { S.write_faults store.old ≤ S.write_faults store.new }
{
    let mut load = LoadReader {
        reader: CaptureReader::new(alloc),
    };
    match read_pieces(store, name, most, room, &mut load) {
        Ok(seen) if seen <= most => finish(load.reader, seen),
        Ok(_) => Err(Unloaded::Fault(CaptureFault::TooLarge)),
        Err(StoreFail::OutOfMemory) => Err(Unloaded::OutOfMemory),
        Err(_) => Err(Unloaded::Unread),
    }
}
