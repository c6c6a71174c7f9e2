//! The lines of a page that are lines of the run's log.
ghost use Rattle.std.specs.Prelude.{◌≡◌, ◌++◌, OnOk};
ghost use Rattle.layout.specs.Sound.{IsSound};
ghost use Rattle.run_page.specs.RowLines.{is_shown, shown_row, shown_rows, start_of_sending};

use crate::names::name_of_device;
use collision_log::{Body, Row, row_text};
use layout::Layout;
use lists::{List, OutOfMemory};

/// The greatest length of a row's line in the log, in octets (profile).
const MOST_LINE: usize = 200;

/// The half bit in which the sending began that a row with this body tells of, if it tells of one.
fn start_of_sending(body: &Body) -> Option<u64>
    ensures { result ≡ start_of_sending body.now }
{
    match *body {
        Body::Sent { start, .. } => Some(start),
        Body::Collided { start, .. } => Some(start),
        Body::GivenUp { start, .. } => Some(start),
        Body::Cut { start, .. } => Some(start),
        _ => None,
    }
}

/// Whether a row is shown by a page of the half bits from `from` to below `to`.
fn is_shown(row: &Row, from: u64, to: u64) -> bool
    ensures { result ≡ is_shown from to row.now }
{
    match start_of_sending(&row.body) {
        Some(start) => start < to && from <= row.t,
        None => from <= row.t && row.t < to,
    }
}

/// Puts the line of a row at the end of a text.
#[tactic(auto, unfolding(crate::specs::RowLines::shown_row, run_texts::specs::Texts::line_of_row))]
fn add_row(text: &mut List<u8>, layout: &Layout, row: &Row) -> Result<(), OutOfMemory>
    requires { IsSound layout.now }
    ensures { OnOk result (text.new ≡ text.old ++ shown_row layout.now row.now) }
{
    let device = row.device as usize;
    let name = name_of_device(layout, device);
    let mut line = [0; MOST_LINE];
    let count = row_text(row, device >= layout.stations.len(), name, &mut line);
    text.extend(b"row ")?;
    text.extend(&line[..count])
}

/// Puts the lines of those of these rows that are shown at the end of a text.
pub fn add_rows(
    text: &mut List<u8>,
    layout: &Layout,
    from: u64,
    to: u64,
    rows: &[Row],
) -> Result<(), OutOfMemory>
    requires { IsSound layout.now }
    ensures { OnOk result (text.new ≡ text.old ++ shown_rows layout.now from to rows.now) }
{
    for row in rows {
        if !is_shown(row, from, to) {
            continue;
        }
        add_row(text, layout, row)?;
    }
    Ok(())
}
