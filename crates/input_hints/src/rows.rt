//! The rows of a layout file's tables, and the taps that they name.

use crate::layouts::{number_at, text_at};
use crate::message::Message;
use lists::List;
use toml::{Table, Value};

/// The rows of an array of tables.
pub fn rows_of<'a>(table: &'a Table, key: &str) -> &'a [Value] {
    match table.get(key) {
        Some(Value::Array(rows)) => rows.as_slice(),
        _ => &[],
    }
}

/// What a row has as a text.
pub fn word_of<'a>(row: &'a Value, key: &str) -> Option<&'a str> {
    text_at(row.as_table()?, key)
}

/// Whether a row has a text.
pub fn is_named(row: &Value, key: &str, text: &str) -> bool {
    match word_of(row, key) {
        Some(known) => known == text,
        None => false,
    }
}

/// The row of a name, from 1.
pub fn row_named(rows: &[Value], name: &str) -> Option<usize> {
    let mut number = 0usize;
    for row in rows {
        number = number.saturating_add(1);
        if is_named(row, "name", name) {
            return Some(number);
        }
    }
    None
}

/// No place is beyond this.
const MOST_AT: i64 = 4_294_967_295;

/// A tap: its row, its port or 0 for a station's, its segment's row, each from 1, and its place there.
#[derive(Clone, Copy)]
pub struct TapRow {
    pub row: usize,
    pub port: usize,
    pub segment: usize,
    pub at: u64,
}

fn place_of(line: &Table) -> Option<u64> {
    match number_at(line, "at") {
        Some(at) if at <= MOST_AT => u64::try_from(at).ok(),
        _ => None,
    }
}

fn tap_of(document: &Table, line: &Value, row: usize, port: usize) -> Option<TapRow> {
    let line = line.as_table()?;
    let segment = text_at(line, "segment")?;
    let segment = row_named(rows_of(document, "segment"), segment)?;
    let at = place_of(line)?;
    Some(TapRow {
        row,
        port,
        segment,
        at,
    })
}

/// Takes the taps of lines: of stations, or of the ports of a repeater in a row.
fn take_taps(
    out: &mut Message,
    taps: &mut List<TapRow>,
    document: &Table,
    lines: &[Value],
    repeater: usize,
) {
    let mut number = 0usize;
    for line in lines {
        number = number.saturating_add(1);
        let (row, port) = if repeater == 0 {
            (number, 0)
        } else {
            (repeater, number)
        };
        if let Some(tap) = tap_of(document, line, row, port) {
            let done = taps.push(tap);
            out.note(done);
        }
    }
}

/// All taps: those of stations, then those of ports, as the file has them.
pub fn taps_of(out: &mut Message, document: &Table) -> List<TapRow> {
    let mut taps = List::new(out.alloc);
    take_taps(out, &mut taps, document, rows_of(document, "station"), 0);
    let mut number = 0usize;
    for repeater in rows_of(document, "repeater") {
        number = number.saturating_add(1);
        if let Some(repeater) = repeater.as_table() {
            let ports = rows_of(repeater, "port");
            take_taps(out, &mut taps, document, ports, number);
        }
    }
    taps
}
