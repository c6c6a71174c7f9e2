//! Reads a layout from octets.
ghost use Rattle.std.specs.Prelude.{◌≡◌, Some, Ok, Err, IfOk, IfErr, map};
ghost use Rattle.toml.specs.View.{table_view};
ghost use Rattle.layout_file.specs.Arounds.{around};
ghost use Rattle.layout_file.specs.Faults.{first_fault_in, first_network_fault, first_fault, document, is_too_long, judged_document, judged_tree, judged, IsMemory};
ghost use Rattle.layout_file.specs.Sites.{seen};
ghost use Rattle.layout_file.specs.JointFaults.{file_fault};
ghost use Rattle.layout.specs.Sound.{IsSound};
ghost use Rattle.layout_file.specs.declared.fault.Key.TheVariants as key;

use crate::fault::{Key, LayoutCode, LayoutFault, Table};
use crate::graph::first_graph_fault;
use crate::joint::{first_crowd, first_same_name, first_taken};
use crate::lines::layout;
use crate::rows::{RowTest, Surroundings, first_of};
use crate::sites::{Site, sites};
use crate::tree::{count_rows, names_in, number};
use layout::Layout;
use lists::OutOfMemory;
use std::alloc::Global;
use toml::Table as TomlTable;

/// The octets of the longest layout file (profile).
const LONGEST_FILE: usize = 1_048_576;

/// The tests of what each key by itself holds.
const KEY_TESTS: [RowTest; 5] = [
    RowTest::UnknownKey,
    RowTest::Missing,
    RowTest::WrongType,
    RowTest::BadName,
    RowTest::OutOfRange,
];

/// The tests of what is named.
const NAME_TESTS: [RowTest; 2] = [RowTest::NoSuchSegment, RowTest::NoSuchStation];

/// The tests of what is sent.
const FRAME_TESTS: [RowTest; 1] = [RowTest::BadFrame];

impl From<OutOfMemory> for LayoutFault {
    ghost use Rattle.layout_file.specs.Faults.{IsMemory};

    ghost from_gives = { λ _ f. IsMemory f };

    fn from(_: OutOfMemory) -> Self {
        file_fault(LayoutCode::OutOfMemory)
    }
}

/// A fault of the file as a whole.
fn file_fault(code: LayoutCode) -> LayoutFault
    ensures { result ≡ file_fault code key.None }
{
    LayoutFault::of_row(code, Table::File, 0, Key::None)
}

/// The layout that the octets spell, or its first fault: TooMany exactly above 1,048,576 octets, then NotToml exactly
/// where the octets are no TOML document, both with the file as their place. After them every code from UnknownKey to
/// BadFrame is tried in the order of their numbers, at every place before the next code: the file's keys, the segments,
/// the stations, the repeaters with their ports and the sends, each row's keys in their order. Want of memory alone is
/// free. A layout that is answered is sound: its numbers are in their ranges, its names are different, what its rows
/// name is there, no two taps share a place, and its network is a tree.
#[tactic(auto, unfolding(crate::specs::Faults::judged))]
pub fn read_layout(alloc: Global, bytes: &[u8]) -> Result<Layout, LayoutFault>
    ensures layout { IfOk result (λ layout. judged bytes.now ≡ Ok layout) }
    ensures fault { IfErr result (λ fault. ¬ IsMemory fault → judged bytes.now ≡ Err fault) }
    ensures sound { IfOk result (λ layout. IsSound layout) }
{
    if is_too_long(bytes) {
        return Err(file_fault(LayoutCode::TooMany));
    }
    judged_tree(alloc, &parse(alloc, bytes)?)
}

/// The layout of a document, or its first fault.
#[tactic(auto, using(crate::proofs::SoundLayouts::sound))]
fn judged_tree(alloc: Global, document: &TomlTable) -> Result<Layout, LayoutFault>
    ensures layout { IfOk result (λ layout. judged_tree (table_view document.now) (first_fault (table_view document.now)) ≡ Ok layout) }
    ensures fault { IfErr result (λ fault. ¬ IsMemory fault → judged_tree (table_view document.now) (first_fault (table_view document.now)) ≡ Err fault) }
    ensures sound { IfOk result (λ layout. IsSound layout) }
{
    match first_fault(alloc, document)? {
        Some(fault) => Err(fault),
        None => Ok(layout(alloc, document)?),
    }
}

#[tactic(auto, unfolding(crate::specs::Faults::is_too_long))]
fn is_too_long(bytes: &[u8]) -> bool
    ensures { result ≡ is_too_long bytes.now }
{
    bytes.len() > LONGEST_FILE
}

/// The document that the octets are.
pub fn parse(alloc: Global, bytes: &[u8]) -> Result<TomlTable, LayoutFault>
    ensures ok { IfOk result (λ table. document bytes.now ≡ Some (table_view table)) }
    ensures none { IfErr result (λ fault. ¬ IsMemory fault → judged_document (document bytes.now) ≡ Err fault) }
{
    match toml::table_from_slice(alloc, bytes) {
        Ok(table) => Ok(table),
        Err(error) if error.is_memory() => Err(file_fault(LayoutCode::OutOfMemory)),
        Err(_) => Err(file_fault(LayoutCode::NotToml)),
    }
}

/// The first fault of a document: for each code all places are tried before the next code.
#[tactic(auto, unfolding(crate::specs::Faults::around_of, crate::specs::Faults::first_fault, crate::specs::Faults::first_network_fault))]
pub fn first_fault(alloc: Global, document: &TomlTable) -> Result<Option<LayoutFault>, OutOfMemory>
    ensures { IfOk result (λ fault. fault ≡ first_fault (table_view document.now)) }
{
    let segments = names_in(alloc, document, Key::Segment)?;
    let stations = names_in(alloc, document, Key::Station)?;
    let sites = sites(alloc, document)?;
    let surroundings = Surroundings {
        two: number(document, Key::Format) == 2,
        segments: &segments,
        stations: &stations,
    };
    first_fault_in(alloc, &surroundings, document, &sites)
}

/// The first fault of a document whose tables these are.
fn first_fault_in(
    alloc: Global,
    surroundings: &Surroundings,
    document: &TomlTable,
    sites: &[Site],
) -> Result<Option<LayoutFault>, OutOfMemory>
    ensures { IfOk result (λ fault. fault ≡ first_fault_in (around surroundings.now) (table_view document.now) (map seen sites.now)) }
{
    if let Some(fault) = first_of(surroundings, &KEY_TESTS, sites) {
        return Ok(Some(fault));
    }
    if let Some(fault) = first_crowd(alloc, document)? {
        return Ok(Some(fault));
    }
    if let Some(fault) = first_same_name(alloc, document)? {
        return Ok(Some(fault));
    }
    let repeaters = count_rows(alloc, document, Key::Repeater)?;
    first_network_fault(alloc, repeaters, surroundings, sites)
}

/// The first fault of what is named, joined and sent.
#[tactic(auto, unfolding(crate::specs::Faults::first_network_fault))]
fn first_network_fault(
    alloc: Global,
    repeaters: usize,
    surroundings: &Surroundings,
    sites: &[Site],
) -> Result<Option<LayoutFault>, OutOfMemory>
    ensures { IfOk result (λ fault. fault ≡ first_network_fault repeaters (around surroundings.now) (map seen sites.now)) }
{
    if let Some(fault) = first_of(surroundings, &NAME_TESTS, sites) {
        return Ok(Some(fault));
    }
    if let Some(fault) = first_taken(alloc, sites)? {
        return Ok(Some(fault));
    }
    if let Some(fault) = first_graph_fault(alloc, repeaters, surroundings.segments, sites)? {
        return Ok(Some(fault));
    }
    Ok(first_of(surroundings, &FRAME_TESTS, sites))
}
