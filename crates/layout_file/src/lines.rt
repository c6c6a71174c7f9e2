//! Makes a layout of what the values of a document spell.
ghost use Rattle.std.specs.Prelude.{◌≡◌, [], ◌∷◌, ◌++◌, IfOk, OnOk, map};
ghost use Rattle.toml.specs.View.{table_view};
ghost use Rattle.layout_file.specs.Lines.{place_from, place_of, segment_of, station_of, port_of, repeater_of, send_of, layout_by, layout_of};
ghost use Rattle.layout_file.specs.Tree.{rows_at};
ghost use Rattle.layout_file.specs.declared.fault.Key.TheVariants as key;

use crate::fault::Key;
use crate::texts::octets;
use crate::tree::{names_in, next_number, number, optional_text, rows, short_number, text};
use layout::{
    Layout, PortLine, PortLines, RepeaterLine, RepeaterLines, SegmentLine, SegmentLines, SendLine,
    SendLines, StationLine, StationLines,
};
use lists::{List, OutOfMemory, Text};
use std::alloc::Global;
use toml::Table as TomlTable;

/// The number of the first of the names that is this one, from 0, and 0 where there is none.
pub fn place_of(names: &[&str], name: &str) -> Result<u32, OutOfMemory>
    ensures { IfOk result (λ n. n ≡ place_of (map (λ s. s.now) names.now) name.now) }
{
    let mut number = 0u32;
    for other in names {
        if *other == name {
            return Ok(number);
        }
        number = next_number(number)?;
    }
    Ok(0)
}

fn push_segment(
    alloc: Global,
    segments: &mut SegmentLines,
    row: &TomlTable,
) -> Result<(), OutOfMemory>
    ensures { OnOk result (segments.new ≡ segments.old ++ segment_of (table_view row.now) ∷ []) }
{
    let name = Text::new(alloc, text(row, Key::Name))?;
    segments.push(SegmentLine { name })
}

fn segments(alloc: Global, rows: &[&TomlTable]) -> Result<SegmentLines, OutOfMemory>
    ensures { IfOk result (λ segments. segments ≡ map segment_of (map (λ t. table_view t.now) rows.now)) }
{
    let mut segments = List::new(alloc);
    for row in rows {
        push_segment(alloc, &mut segments, *row)?;
    }
    Ok(segments)
}

#[tactic(auto, unfolding(crate::specs::Lines::station_of))]
fn push_station(
    alloc: Global,
    stations: &mut StationLines,
    segments: &[&str],
    row: &TomlTable,
) -> Result<(), OutOfMemory>
    ensures { OnOk result (stations.new ≡ stations.old ++ station_of (map (λ s. s.now) segments.now) (table_view row.now) ∷ []) }
{
    stations.push(StationLine {
        segment: place_of(segments, text(row, Key::Segment))?,
        at: short_number(row, Key::At)?,
        lose: short_number(row, Key::LoseBits)?,
        name: Text::new(alloc, text(row, Key::Name))?,
        load: optional_text(alloc, row, Key::Load)?,
    })
}

fn stations(
    alloc: Global,
    segments: &[&str],
    rows: &[&TomlTable],
) -> Result<StationLines, OutOfMemory>
    ensures { IfOk result (λ stations. stations ≡ map (station_of (map (λ s. s.now) segments.now)) (map (λ t. table_view t.now) rows.now)) }
{
    let mut stations = List::new(alloc);
    for row in rows {
        push_station(alloc, &mut stations, segments, *row)?;
    }
    Ok(stations)
}

#[tactic(auto, unfolding(crate::specs::Lines::port_of))]
fn push_port(ports: &mut PortLines, segments: &[&str], row: &TomlTable) -> Result<(), OutOfMemory>
    ensures { OnOk result (ports.new ≡ ports.old ++ port_of (map (λ s. s.now) segments.now) (table_view row.now) ∷ []) }
{
    ports.push(PortLine {
        segment: place_of(segments, text(row, Key::Segment))?,
        at: short_number(row, Key::At)?,
    })
}

fn ports(alloc: Global, segments: &[&str], rows: &[&TomlTable]) -> Result<PortLines, OutOfMemory>
    ensures { IfOk result (λ ports. ports ≡ map (port_of (map (λ s. s.now) segments.now)) (map (λ t. table_view t.now) rows.now)) }
{
    let mut ports = List::new(alloc);
    for row in rows {
        push_port(&mut ports, segments, *row)?;
    }
    Ok(ports)
}

fn ports_in(
    alloc: Global,
    segments: &[&str],
    repeater: &TomlTable,
) -> Result<PortLines, OutOfMemory>
    ensures { IfOk result (λ ports. ports ≡ map (port_of (map (λ s. s.now) segments.now)) (rows_at (table_view repeater.now) key.Port)) }
{
    ports(alloc, segments, &rows(alloc, repeater, Key::Port)?)
}

#[tactic(auto, unfolding(crate::specs::Lines::repeater_of))]
fn push_repeater(
    alloc: Global,
    repeaters: &mut RepeaterLines,
    segments: &[&str],
    row: &TomlTable,
) -> Result<(), OutOfMemory>
    ensures { OnOk result (repeaters.new ≡ repeaters.old ++ repeater_of (map (λ s. s.now) segments.now) (table_view row.now) ∷ []) }
{
    repeaters.push(RepeaterLine {
        delay: short_number(row, Key::Delay)?,
        name: Text::new(alloc, text(row, Key::Name))?,
        ports: ports_in(alloc, segments, row)?,
    })
}

fn repeaters(
    alloc: Global,
    segments: &[&str],
    rows: &[&TomlTable],
) -> Result<RepeaterLines, OutOfMemory>
    ensures { IfOk result (λ repeaters. repeaters ≡ map (repeater_of (map (λ s. s.now) segments.now)) (map (λ t. table_view t.now) rows.now)) }
{
    let mut repeaters = List::new(alloc);
    for row in rows {
        push_repeater(alloc, &mut repeaters, segments, *row)?;
    }
    Ok(repeaters)
}

#[tactic(auto, unfolding(crate::specs::Lines::send_of))]
fn push_send(
    alloc: Global,
    sends: &mut SendLines,
    stations: &[&str],
    row: &TomlTable,
) -> Result<(), OutOfMemory>
    ensures { OnOk result (sends.new ≡ sends.old ++ send_of (map (λ s. s.now) stations.now) (table_view row.now) ∷ []) }
{
    sends.push(SendLine {
        station: place_of(stations, text(row, Key::Station))?,
        at: number(row, Key::At),
        octets: octets(alloc, text(row, Key::Octets))?,
    })
}

fn sends(alloc: Global, stations: &[&str], rows: &[&TomlTable]) -> Result<SendLines, OutOfMemory>
    ensures { IfOk result (λ sends. sends ≡ map (send_of (map (λ s. s.now) stations.now)) (map (λ t. table_view t.now) rows.now)) }
{
    let mut sends = List::new(alloc);
    for row in rows {
        push_send(alloc, &mut sends, stations, *row)?;
    }
    Ok(sends)
}

fn segments_in(alloc: Global, document: &TomlTable) -> Result<SegmentLines, OutOfMemory>
    ensures { IfOk result (λ segments. segments ≡ map segment_of (rows_at (table_view document.now) key.Segment)) }
{
    segments(alloc, &rows(alloc, document, Key::Segment)?)
}

fn stations_in(
    alloc: Global,
    segments: &[&str],
    document: &TomlTable,
) -> Result<StationLines, OutOfMemory>
    ensures { IfOk result (λ stations. stations ≡ map (station_of (map (λ s. s.now) segments.now)) (rows_at (table_view document.now) key.Station)) }
{
    stations(alloc, segments, &rows(alloc, document, Key::Station)?)
}

fn repeaters_in(
    alloc: Global,
    segments: &[&str],
    document: &TomlTable,
) -> Result<RepeaterLines, OutOfMemory>
    ensures { IfOk result (λ repeaters. repeaters ≡ map (repeater_of (map (λ s. s.now) segments.now)) (rows_at (table_view document.now) key.Repeater)) }
{
    repeaters(alloc, segments, &rows(alloc, document, Key::Repeater)?)
}

fn sends_in(
    alloc: Global,
    stations: &[&str],
    document: &TomlTable,
) -> Result<SendLines, OutOfMemory>
    ensures { IfOk result (λ sends. sends ≡ map (send_of (map (λ s. s.now) stations.now)) (rows_at (table_view document.now) key.Send)) }
{
    sends(alloc, stations, &rows(alloc, document, Key::Send)?)
}

/// The layout that a document spells.
#[tactic(auto, unfolding(crate::specs::Lines::layout_of))]
pub fn layout(alloc: Global, document: &TomlTable) -> Result<Layout, OutOfMemory>
    ensures { IfOk result (λ layout. layout ≡ layout_of (table_view document.now)) }
{
    let segments = names_in(alloc, document, Key::Segment)?;
    let stations = names_in(alloc, document, Key::Station)?;
    layout_by(alloc, &segments, &stations, document)
}

/// The layout, where the segments and the stations have these names.
fn layout_by(
    alloc: Global,
    segments: &[&str],
    stations: &[&str],
    document: &TomlTable,
) -> Result<Layout, OutOfMemory>
    ensures { IfOk result (λ layout. layout ≡ layout_by (map (λ s. s.now) segments.now) (map (λ s. s.now) stations.now) (table_view document.now)) }
{
    Ok(Layout {
        format: short_number(document, Key::Format)?,
        seed: number(document, Key::Seed),
        until_bits: number(document, Key::UntilBits),
        segments: segments_in(alloc, document)?,
        stations: stations_in(alloc, segments, document)?,
        repeaters: repeaters_in(alloc, segments, document)?,
        sends: sends_in(alloc, stations, document)?,
    })
}
