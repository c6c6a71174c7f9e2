//! The tests that need more than one row.
ghost use Rattle.std.specs.Prelude.{◌≡◌, [], IfOk, map, option_map};
ghost use Rattle.std.specs.List.{list_any};
ghost use Rattle.toml.specs.View.{table_view};
ghost use Rattle.layout_file.specs.JointFaults.{crowd_at, crowd_of_ports, crowd_of_bits, first_crowd, first_same, same_segment_fault, same_device_fault, first_same_segment, first_same_device, first_same_name, has_tap, tap_of_spot, shares_place, first_taken};
ghost use Rattle.layout_file.specs.Sites.{seen, seen_tap};
ghost use Rattle.layout_file.specs.Tree.{names_at};
ghost use Rattle.layout_file.specs.declared.fault.Key.TheVariants as key;

use crate::fault::{Key, LayoutCode, LayoutFault, Table};
use crate::rows::is_among;
use crate::rules::Shape;
use crate::sites::Site;
use crate::tree::{count_rows, names_in, next_number, number, rows, text};
use layout::{MOST_DEVICE_BITS, MOST_REPEATERS, MOST_SEGMENTS, MOST_SENDS, MOST_STATIONS};
use lists::OutOfMemory;
use mac_parameters::MOST_PORTS;
use std::alloc::Global;
use toml::Table as TomlTable;

/// An array of the file with more than that many rows.
fn crowd_at(
    alloc: Global,
    document: &TomlTable,
    key: Key,
    most: usize,
) -> Result<Option<LayoutFault>, OutOfMemory>
    ensures { IfOk result (λ fault. fault ≡ crowd_at (table_view document.now) key most) }
{
    if count_rows(alloc, document, key)? > most {
        Ok(Some(LayoutFault::of_row(LayoutCode::TooMany, Table::File, 0, key)))
    } else {
        Ok(None)
    }
}

/// The first repeater with too many ports.
fn crowd_of_ports(
    alloc: Global,
    repeaters: &[&TomlTable],
) -> Result<Option<LayoutFault>, OutOfMemory>
    ensures { IfOk result (λ fault. fault ≡ crowd_of_ports 1 (map (λ t. table_view t.now) repeaters.now)) }
{
    let mut row = 0u32;
    for members in repeaters {
        row = next_number(row)?;
        if count_rows(alloc, *members, Key::Port)? > MOST_PORTS {
            return Ok(Some(LayoutFault::of_row(
                LayoutCode::TooMany,
                Table::Repeater,
                row,
                Key::Port,
            )));
        }
    }
    Ok(None)
}

/// More bits of the run, over all devices, than are run.
#[tactic(auto, unfolding(crate::specs::JointFaults::crowd_of_bits))]
fn crowd_of_bits(alloc: Global, document: &TomlTable) -> Result<Option<LayoutFault>, OutOfMemory>
    ensures { IfOk result (λ fault. fault ≡ crowd_of_bits (table_view document.now)) }
{
    let stations = count_rows(alloc, document, Key::Station)? as u64;
    let repeaters = count_rows(alloc, document, Key::Repeater)? as u64;
    let devices = stations.checked_add(repeaters).ok_or(OutOfMemory)?;
    if number(document, Key::UntilBits).saturating_mul(devices) > MOST_DEVICE_BITS {
        Ok(Some(LayoutFault::of_row(LayoutCode::TooMany, Table::File, 0, Key::UntilBits)))
    } else {
        Ok(None)
    }
}

/// Too many rows of a kind, or too many bits.
#[tactic(auto, unfolding(crate::specs::JointFaults::first_crowd))]
pub fn first_crowd(alloc: Global, document: &TomlTable) -> Result<Option<LayoutFault>, OutOfMemory>
    ensures { IfOk result (λ fault. fault ≡ first_crowd (table_view document.now)) }
{
    if let Some(fault) = crowd_at(alloc, document, Key::Segment, MOST_SEGMENTS)? {
        return Ok(Some(fault));
    }
    if let Some(fault) = crowd_at(alloc, document, Key::Station, MOST_STATIONS)? {
        return Ok(Some(fault));
    }
    if let Some(fault) = crowd_at(alloc, document, Key::Repeater, MOST_REPEATERS)? {
        return Ok(Some(fault));
    }
    if let Some(fault) = crowd_of_ports(alloc, &rows(alloc, document, Key::Repeater)?)? {
        return Ok(Some(fault));
    }
    if let Some(fault) = crowd_at(alloc, document, Key::Send, MOST_SENDS)? {
        return Ok(Some(fault));
    }
    crowd_of_bits(alloc, document)
}

/// The first name that stands earlier too, counted from 1.
fn first_same(names: &[&str]) -> Result<Option<u32>, OutOfMemory>
    ensures { IfOk result (λ row. row ≡ first_same [] 1 (map (λ s. s.now) names.now)) }
{
    let mut row = 0u32;
    for (i, name) in names.iter().enumerate() {
        row = next_number(row)?;
        if is_among(*name, &names[..i]) {
            return Ok(Some(row));
        }
    }
    Ok(None)
}

fn same_segment_fault(row: Option<u32>) -> Option<LayoutFault>
    ensures { result ≡ option_map same_segment_fault row }
{
    row.map(|row| LayoutFault::of_row(LayoutCode::SameName, Table::Segment, row, Key::Name))
}

fn same_device_fault(stations: u32, device: u32) -> LayoutFault
    ensures { result ≡ same_device_fault stations device }
{
    if device <= stations {
        LayoutFault::of_row(LayoutCode::SameName, Table::Station, device, Key::Name)
    } else {
        LayoutFault::of_row(
            LayoutCode::SameName,
            Table::Repeater,
            device - stations,
            Key::Name,
        )
    }
}

/// A segment has the name of an earlier segment, or a device that of an earlier device.
#[tactic(auto, unfolding(crate::specs::JointFaults::first_same_name))]
pub fn first_same_name(
    alloc: Global,
    document: &TomlTable,
) -> Result<Option<LayoutFault>, OutOfMemory>
    ensures { IfOk result (λ fault. fault ≡ first_same_name (table_view document.now)) }
{
    if let Some(fault) = first_same_segment(alloc, document)? {
        return Ok(Some(fault));
    }
    first_same_device(alloc, document)
}

fn first_same_segment(
    alloc: Global,
    document: &TomlTable,
) -> Result<Option<LayoutFault>, OutOfMemory>
    ensures { IfOk result (λ fault. fault ≡ first_same_segment (names_at (table_view document.now) key.Segment)) }
{
    let row = first_same(&names_in(alloc, document, Key::Segment)?)?;
    Ok(same_segment_fault(row))
}

fn first_same_device(
    alloc: Global,
    document: &TomlTable,
) -> Result<Option<LayoutFault>, OutOfMemory>
    ensures { IfOk result (λ fault. fault ≡ first_same_device (names_at (table_view document.now) key.Station) (names_at (table_view document.now) key.Repeater)) }
{
    let stations = names_in(alloc, document, Key::Station)?;
    let repeaters = names_in(alloc, document, Key::Repeater)?;
    first_same_among(stations, &repeaters)
}

/// The stations are the first devices, and the repeaters follow them.
fn first_same_among<'a>(
    stations: Vec<&'a str>,
    repeaters: &[&'a str],
) -> Result<Option<LayoutFault>, OutOfMemory>
    ensures { IfOk result (λ fault. fault ≡ first_same_device (map (λ s. s.now) stations.entry.items) (map (λ s. s.now) repeaters.now)) }
{
    let Ok(last_station) = u32::try_from(stations.len()) else {
        return Err(OutOfMemory);
    };
    let mut devices = stations;
    devices.extend_from_slice(repeaters)?;
    match first_same(&devices)? {
        Some(device) => Ok(Some(same_device_fault(last_station, device))),
        None => Ok(None),
    }
}

fn has_tap(shape: Shape) -> bool
    ensures { result ≡ has_tap shape }
{
    matches!(shape, Shape::Station | Shape::Port)
}

/// The tap of a table that has one: its segment and its place.
#[derive(Clone, Copy)]
struct Tap<'a> {
    segment: &'a str,
    at: u64,
}

/// Where the tap of a table is that has one.
fn tap_of<'a>(site: &Site<'a>) -> Option<Tap<'a>>
    ensures { option_map seen_tap result ≡ tap_of_spot (seen site.now) }
{
    if !has_tap(site.shape) {
        return None;
    }
    Some(Tap {
        segment: text(site.members, Key::Segment),
        at: number(site.members, Key::At),
    })
}

/// Whether one of the taps stands where that one does.
fn is_taken(tap: &Tap, taps: &[Tap]) -> bool
    ensures { result ≡ list_any (shares_place (seen_tap tap.now)) (map seen_tap taps.now) }
{
    for other in taps {
        if other.at == tap.at && other.segment == tap.segment {
            return true;
        }
    }
    false
}

/// The first tap that stands where an earlier one does.
#[tactic(auto, using(crate::proofs::TapsOfTables::first_taken_after_none))]
pub fn first_taken(alloc: Global, sites: &[Site]) -> Result<Option<LayoutFault>, OutOfMemory>
    ensures { IfOk result (λ fault. fault ≡ first_taken [] (map seen sites.now)) }
{
    let mut taps = Vec::new(alloc);
    for site in sites {
        let Some(tap) = tap_of(site) else {
            continue;
        };
        if is_taken(&tap, &taps) {
            return Ok(Some(site.fault(LayoutCode::TapTaken, Key::At)));
        }
        taps.push(tap)?;
    }
    Ok(None)
}
