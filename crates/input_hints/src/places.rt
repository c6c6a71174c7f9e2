//! Where a table and its keys stand in the text of a layout file.

use crate::asked::after;

/// A place as the program's line of a layout's fault names it.
#[derive(Clone, Copy)]
pub struct NamedPlace<'a> {
    pub code: usize,
    pub table: &'a str,
    pub row: usize,
    pub port: usize,
    pub key: &'a str,
}

fn count_after(said: &str, word: &str) -> Option<usize> {
    match after(said, word)?.parse::<u64>() {
        Ok(count) => Some(count as usize),
        Err(_) => None,
    }
}

/// The place that a line `layout fault ..` names.
pub fn place_in(said: &str) -> Option<NamedPlace<'_>> {
    Some(NamedPlace {
        code: count_after(said, "fault")?,
        table: after(said, "table")?,
        row: count_after(said, "row")?,
        port: count_after(said, "port")?,
        key: after(said, "key")?,
    })
}

/// A line and a column, both from 1.
#[derive(Clone, Copy)]
pub struct Spot {
    pub line: usize,
    pub column: usize,
}

/// The name of a header line, as `station` of `[[station]]`.
fn header_of(line: &str) -> Option<&str> {
    let inner = line.trim().strip_prefix('[')?;
    let (name, _) = inner.split_once(']')?;
    match name.strip_prefix('[') {
        Some(name) => Some(name.trim()),
        None => Some(name.trim()),
    }
}

/// What was seen of a file's headers so far.
#[derive(Clone, Copy)]
struct Seen<'a> {
    header: Option<&'a str>,
    rows: usize,
    ports: usize,
}

impl<'a> Seen<'a> {
    fn take(&mut self, table: &str, header: &'a str) {
        self.header = Some(header);
        if header == table {
            self.rows = self.rows.saturating_add(1);
            self.ports = 0;
        } else if header == "repeater.port" {
            self.ports = self.ports.saturating_add(1);
        }
    }

    fn is_at(&self, place: &NamedPlace<'_>) -> bool {
        match self.header {
            None => place.row == 0,
            Some(_) if place.row == 0 || self.rows != place.row => false,
            Some(header) if place.port > 0 => header == "repeater.port" && self.ports == place.port,
            Some(header) => header == place.table,
        }
    }
}

/// The spot in a line at which its rest begins.
fn spot_before(number: usize, line: &str, rest: &str) -> Spot {
    Spot {
        line: number,
        column: line.len().saturating_sub(rest.len()).saturating_add(1),
    }
}

/// Where the value of a key stands in a line that has it.
fn spot_in_entry(number: usize, line: &str, key: &str) -> Option<Spot> {
    let (known, value) = line.split_once('=')?;
    if known.trim().trim_matches('"') == key {
        Some(spot_before(number, line, value.trim_start()))
    } else {
        None
    }
}

/// Where the value of a key of a place stands, or the header of its row where the key isn't there.
pub fn spot_of(text: &str, place: &NamedPlace<'_>, key: &str) -> Option<Spot> {
    let mut seen = Seen {
        header: None,
        rows: 0,
        ports: 0,
    };
    let mut row = None;
    let mut number = 0usize;
    for line in text.lines() {
        number = number.saturating_add(1);
        if let Some(header) = header_of(line) {
            seen.take(place.table, header);
            if seen.is_at(place) || (place.row == 0 && header == key) {
                row = Some(spot_before(number, line, line.trim_start()));
            }
        } else if seen.is_at(place) {
            let spot = spot_in_entry(number, line, key);
            if spot.is_some() {
                return spot;
            }
        }
    }
    row
}
