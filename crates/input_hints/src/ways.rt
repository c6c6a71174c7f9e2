//! The loop that a port closes.

use crate::asked::or_empty;
use crate::layouts::{name_at, show_row};
use crate::message::Message;
use crate::places::NamedPlace;
use crate::rows::{TapRow, row_named, rows_of, taps_of};
use lists::List;
use toml::Table;

/// The most segments of a loop that are told, and how many of a longer loop's.
const MOST_TOLD: usize = 8;

const FIRST_TOLD: usize = 4;

/// More segments and repeaters than a network has.
const DEVICES: usize = 512;

fn at_segment(ports: &[TapRow], segment: usize) -> Option<TapRow> {
    for port in ports {
        if port.segment == segment {
            return Some(*port);
        }
    }
    None
}

fn at_repeater(ports: &[TapRow], repeater: usize) -> Option<TapRow> {
    for port in ports {
        if port.row == repeater {
            return Some(*port);
        }
    }
    None
}

/// Whether a port before a place joins what was reached to what wasn't.
fn leads_on(reached: &[TapRow], port: &TapRow, place: &NamedPlace<'_>) -> bool {
    let is_own = port.row == place.row;
    if port.port == 0 || port.row > place.row || (is_own && port.port >= place.port) {
        return false;
    }
    let repeater = is_own || at_repeater(reached, port.row).is_some();
    repeater != at_segment(reached, port.segment).is_some()
}

/// The ports before a place over which its repeater is reached, in an order in which each is joined to one before it.
/// So the first one of a segment or of another repeater leads to it. They make no loop yet.
fn reached_before(out: &mut Message, taps: &[TapRow], place: &NamedPlace<'_>) -> List<TapRow> {
    let mut reached = List::new(out.alloc);
    for _round in 0..DEVICES {
        let before = reached.len();
        for port in taps {
            if leads_on(reached.as_slice(), port, place) {
                let done = reached.push(*port);
                out.note(done);
            }
        }
        if reached.len() == before {
            break;
        }
    }
    reached
}

/// The way from a segment to the repeater of a place: a port for each segment of it, with the repeater after it.
fn way_of(
    out: &mut Message,
    reached: &[TapRow],
    from: usize,
    place: &NamedPlace<'_>,
) -> List<TapRow> {
    let mut way = List::new(out.alloc);
    let mut segment = from;
    for _step in 0..DEVICES {
        let Some(port) = at_segment(reached, segment) else {
            break;
        };
        let done = way.push(port);
        out.note(done);
        match at_repeater(reached, port.row) {
            Some(next) if port.row != place.row => segment = next.segment,
            _ => break,
        }
    }
    way
}

fn show_named(out: &mut Message, document: &Table, table: &str, row: usize) {
    out.add(table);
    out.add(" ");
    out.show_word(or_empty(name_at(document, table, row)));
}

/// Tells a way: all of a short one and its first segment again, or how many segments there are and the first ones.
fn tell_way(out: &mut Message, document: &Table, way: &[TapRow]) {
    let is_long = way.len() > MOST_TOLD;
    if is_long {
        out.add(" of ");
        out.add_number(way.len() as u64);
        out.add(" segments");
    }
    out.add(": ");
    let told = if is_long { FIRST_TOLD } else { MOST_TOLD };
    for port in way.iter().take(told) {
        show_named(out, document, "segment", port.segment);
        out.add(", ");
        show_named(out, document, "repeater", port.row);
        out.add(", ");
    }
    match way.first() {
        Some(port) if !is_long => show_named(out, document, "segment", port.segment),
        _ => out.add(".."),
    }
}

/// Tells of a port that closes a loop: the loop from its segment on.
pub fn tell_loop(out: &mut Message, document: &Table, place: &NamedPlace<'_>, segment: &str) {
    show_row(out, document, place);
    let taps = taps_of(out, document);
    let reached = reached_before(out, taps.as_slice(), place);
    let from = row_named(rows_of(document, "segment"), segment).unwrap_or(0);
    let way = way_of(out, reached.as_slice(), from, place);
    out.add(" closes a loop");
    tell_way(out, document, way.as_slice());
    out.add("; no network has one: take a port of it away");
}
