//! What is known of the ports of a network.
ghost use Rattle.std.specs.Prelude.{◌≡◌, ◌*◌, ◌≤◌, replicate, IfOk};
ghost use Rattle.layout.specs.Limits.{most_repeaters};
ghost use Rattle.path_checker.specs.Far.{way_number, entry_place, entry_of, with_entry};
ghost use Rattle.path_checker.specs.declared.table.Entry.TheVariants.{Open};

use crate::far::Far;
use layout::{Attachment, Way};
use lists::{List, OutOfMemory};
use std::alloc::Global;

/// What is known of a port by one way: the farthest station, if there is any.
#[derive(Clone, Copy)]
pub enum Entry {
    Open,
    Found(Option<Far>),
}

/// An entry for each way and each port that a repeater can have.
pub type ReachTable = List<Entry>;

/// A table for so many repeaters in which nothing is known.
pub fn open_table(alloc: Global, repeaters: usize) -> Result<ReachTable, OutOfMemory>
    requires { repeaters ≤ most_repeaters }
    ensures { IfOk result (λ table. table ≡ replicate (64 * repeaters) Open) }
{
    let mut table = List::new(alloc);
    for _place in 0..64 * repeaters {
        table.push(Entry::Open)?;
    }
    Ok(table)
}

/// The number of a way: 0 along a cable, 1 through a repeater.
fn way_number(way: Way) -> usize
    ensures { result ≡ way_number way }
{
    match way {
        Way::Cable => 0,
        Way::Repeater => 1,
    }
}

/// Where a table has the entry of a port by a way, with room for 32 ports of each repeater.
fn entry_place(way: Way, repeater: u32, port: u32) -> usize
    ensures { result ≡ entry_place way repeater port }
{
    64 * repeater as usize + 2 * port as usize + way_number(way)
}

/// The entry of a tap by a way; a station has none, and is always `Open`.
pub fn entry_of(table: &ReachTable, way: Way, tap: Attachment) -> Entry
    ensures { result ≡ entry_of table.now way tap }
{
    let Attachment::Port { repeater, port } = tap else {
        return Entry::Open;
    };
    let place = entry_place(way, repeater, port);
    if place < table.len() {
        *table.get(place)
    } else {
        Entry::Open
    }
}

/// Puts down what is found for a tap by a way; nothing is kept of a station.
pub fn set_entry(table: &mut ReachTable, way: Way, tap: Attachment, far: Option<Far>)
    ensures { table.new ≡ with_entry table.old way tap far }
{
    let Attachment::Port { repeater, port } = tap else {
        return;
    };
    let place = entry_place(way, repeater, port);
    if place < table.len() {
        table.set(place, Entry::Found(far));
    }
}
