//! The text of a log.
ghost use Rattle.std.specs.Prelude.{◌≡◌, ◌≤◌, ◌++◌, length, map, All, IfOk, OnOk};
ghost use Rattle.layout.specs.Sound.{IsSound};
ghost use Rattle.run_texts.specs.Texts.{line_of_row, lines_of_rows, log_of_rows};

use crate::names::{device_names, name_of_device};
use collision_log::{Row, row_text};
use layout::Layout;
use lists::{List, OutOfMemory};
use std::alloc::Global;

/// The greatest length of a row's line, in octets (profile).
const MOST_LINE: usize = 200;

/// Puts the line of a row at the end of a text.
#[tactic(auto, unfolding(crate::specs::Texts::line_of_row))]
fn add_row(
    text: &mut List<u8>,
    names: &[&str],
    stations: usize,
    row: &Row,
) -> Result<(), OutOfMemory>
    requires { All (λ name. length name ≤ 32) (map (λ name. name.now) names.now) }
    ensures { OnOk result (text.new ≡ text.old ++ line_of_row (map (λ name. name.now) names.now) stations row.now) }
{
    let mut line = [0; MOST_LINE];
    let name = name_of_device(names, row.device);
    let count = row_text(row, row.device as usize >= stations, name, &mut line);
    text.extend(&line[..count.min(MOST_LINE)])
}

/// The lines of rows, in their order.
fn lines_of_rows(
    alloc: Global,
    names: &[&str],
    stations: usize,
    rows: &[Row],
) -> Result<List<u8>, OutOfMemory>
    requires { All (λ name. length name ≤ 32) (map (λ name. name.now) names.now) }
    ensures { IfOk result (λ text. text ≡ lines_of_rows (map (λ name. name.now) names.now) stations rows.now) }
{
    let mut text = List::new(alloc);
    for row in rows {
        add_row(&mut text, names, stations, row)?;
    }
    Ok(text)
}

/// The log of a sound layout's run that gave these rows, one line a row (profile).
#[tactic(auto, unfolding(crate::specs::Texts::log_of_rows))]
pub fn log_of_rows(alloc: Global, layout: &Layout, rows: &[Row]) -> Result<List<u8>, OutOfMemory>
    requires { IsSound layout.now }
    ensures { IfOk result (λ text. text ≡ log_of_rows layout.now rows.now) }
{
    let names = device_names(alloc, layout)?;
    lines_of_rows(alloc, names.as_slice(), layout.stations.len(), rows)
}
