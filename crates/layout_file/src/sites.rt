//! The tables of a document in the order in which they are judged.
ghost use Rattle.std.specs.Prelude.{◌≡◌, ◌++◌, IfOk, OnOk, map};
ghost use Rattle.toml.specs.View.{table_view};
ghost use Rattle.layout_file.specs.Spots.{spots, spots_of_rows, ports, with_ports, repeaters, with_rows};
ghost use Rattle.layout_file.specs.Sites.{seen};
ghost use Rattle.layout_file.specs.Tree.{rows_at};
ghost use Rattle.layout_file.specs.declared.fault.Key.TheVariants as key;

use crate::fault::{Key, LayoutCode, LayoutFault, Place};
use crate::rules::Shape;
use crate::tree::{next_number, rows};
use lists::OutOfMemory;
use std::alloc::Global;
use toml::Table as TomlTable;

/// A table of the document, with the place that its faults name.
#[derive(Clone, Copy)]
pub struct Site<'a> {
    pub shape: Shape,
    pub row: u32,
    pub port: u32,
    pub members: &'a TomlTable,
}

impl Site<'_> {
    ghost use Rattle.std.specs.Prelude.{◌≡◌};
    ghost use Rattle.layout_file.specs.Spots.{fault};
    ghost use Rattle.layout_file.specs.Sites.{seen};

    /// A fault at this table.
    pub fn fault(&self, code: LayoutCode, key: Key) -> LayoutFault
        ensures { result ≡ fault code (seen self.now) key }
    {
        LayoutFault {
            code,
            place: Place {
                table: self.shape.table(),
                row: self.row,
                port: self.port,
                key,
            },
        }
    }
}

/// All tables of a document: the file's own, the segments, the stations, the repeaters with their ports, and the sends.
#[tactic(auto, unfolding(crate::specs::Spots::spots))]
pub fn sites<'a>(alloc: Global, document: &'a TomlTable) -> Result<Vec<Site<'a>>, OutOfMemory>
    ensures { IfOk result (λ sites. map seen sites.items ≡ spots (table_view document.now)) }
{
    let mut sites = Vec::new(alloc);
    sites.push(Site {
        shape: Shape::File,
        row: 0,
        port: 0,
        members: document,
    })?;
    push_all(alloc, &mut sites, document)?;
    Ok(sites)
}

/// The tables of the file's arrays, after what is there.
fn push_all<'a>(
    alloc: Global,
    sites: &mut Vec<Site<'a>>,
    document: &'a TomlTable,
) -> Result<(), OutOfMemory>
    ensures { OnOk result (map seen sites.new.items ≡ with_rows (map seen sites.old.items) (table_view document.now)) }
{
    push_rows_at(alloc, sites, Shape::Segment, document, Key::Segment)?;
    push_rows_at(alloc, sites, Shape::Station, document, Key::Station)?;
    push_repeaters_at(alloc, sites, document)?;
    push_rows_at(alloc, sites, Shape::Send, document, Key::Send)
}

fn push_rows_at<'a>(
    alloc: Global,
    sites: &mut Vec<Site<'a>>,
    shape: Shape,
    document: &'a TomlTable,
    key: Key,
) -> Result<(), OutOfMemory>
    ensures { OnOk result (map seen sites.new.items ≡ map seen sites.old.items ++ spots_of_rows shape 1 (rows_at (table_view document.now) key)) }
{
    push_rows(sites, shape, &rows(alloc, document, key)?)
}

fn push_repeaters_at<'a>(
    alloc: Global,
    sites: &mut Vec<Site<'a>>,
    document: &'a TomlTable,
) -> Result<(), OutOfMemory>
    ensures { OnOk result (map seen sites.new.items ≡ map seen sites.old.items ++ repeaters 1 (rows_at (table_view document.now) key.Repeater)) }
{
    push_repeaters(alloc, sites, &rows(alloc, document, Key::Repeater)?)
}

fn push_rows<'a>(
    sites: &mut Vec<Site<'a>>,
    shape: Shape,
    rows: &[&'a TomlTable],
) -> Result<(), OutOfMemory>
    ensures { OnOk result (map seen sites.new.items ≡ map seen sites.old.items ++ spots_of_rows shape 1 (map (λ t. table_view t.now) rows.now)) }
{
    let mut row = 0u32;
    for members in rows {
        row = next_number(row)?;
        sites.push(Site {
            shape,
            row,
            port: 0,
            members: *members,
        })?;
    }
    Ok(())
}

fn push_ports<'a>(
    sites: &mut Vec<Site<'a>>,
    row: u32,
    rows: &[&'a TomlTable],
) -> Result<(), OutOfMemory>
    ensures { OnOk result (map seen sites.new.items ≡ map seen sites.old.items ++ ports row 1 (map (λ t. table_view t.now) rows.now)) }
{
    let mut port = 0u32;
    for members in rows {
        port = next_number(port)?;
        sites.push(Site {
            shape: Shape::Port,
            row,
            port,
            members: *members,
        })?;
    }
    Ok(())
}

/// The table of a repeater, and those of its ports.
fn push_repeater<'a>(
    alloc: Global,
    sites: &mut Vec<Site<'a>>,
    row: u32,
    members: &'a TomlTable,
) -> Result<(), OutOfMemory>
    ensures { OnOk result (map seen sites.new.items ≡ map seen sites.old.items ++ with_ports row (table_view members.now)) }
{
    let ports = rows(alloc, members, Key::Port)?;
    sites.push(Site {
        shape: Shape::Repeater,
        row,
        port: 0,
        members,
    })?;
    push_ports(sites, row, &ports)
}

fn push_repeaters<'a>(
    alloc: Global,
    sites: &mut Vec<Site<'a>>,
    repeater_rows: &[&'a TomlTable],
) -> Result<(), OutOfMemory>
    ensures { OnOk result (map seen sites.new.items ≡ map seen sites.old.items ++ repeaters 1 (map (λ t. table_view t.now) repeater_rows.now)) }
{
    let mut row = 0u32;
    for members in repeater_rows {
        row = next_number(row)?;
        push_repeater(alloc, sites, row, *members)?;
    }
    Ok(())
}
