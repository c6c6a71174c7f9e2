//! Which tap stands where another one is put, and where there is room for it.

use crate::asked::or_empty;
use crate::layouts::{show_row, text_of};
use crate::message::Message;
use crate::places::NamedPlace;
use crate::rows::{TapRow, taps_of};
use mac_parameters::GREATEST_PLACE;
use toml::Table;

/// The first tap at a place of a segment.
fn tap_at(taps: &[TapRow], segment: usize, at: u64) -> Option<TapRow> {
    for tap in taps {
        if tap.segment == segment && tap.at == at {
            return Some(*tap);
        }
    }
    None
}

/// The first tap that stands where that of a place does.
fn earlier_tap(taps: &[TapRow], place: &NamedPlace<'_>) -> Option<TapRow> {
    for tap in taps {
        if tap.row == place.row && tap.port == place.port {
            return tap_at(taps, tap.segment, tap.at);
        }
    }
    None
}

/// The least free place of a segment above one, else the greatest below.
fn next_free(taps: &[TapRow], segment: usize, at: u64) -> Option<u64> {
    let greatest = u64::from(GREATEST_PLACE);
    let at = at.min(greatest);
    for place in at..=greatest {
        if tap_at(taps, segment, place).is_none() {
            return Some(place);
        }
    }
    for step in 1..=at {
        let place = at.saturating_sub(step);
        if tap_at(taps, segment, place).is_none() {
            return Some(place);
        }
    }
    None
}

/// Tells of a tap's place that is taken: by which tap, and which place is free.
pub fn tell_taken(out: &mut Message, document: &Table, place: &NamedPlace<'_>) {
    show_row(out, document, place);
    let taps = taps_of(out, document);
    match earlier_tap(taps.as_slice(), place) {
        Some(earlier) => {
            out.add(" stands at ");
            out.add_number(earlier.at);
            out.add(" of segment ");
            out.show_word(or_empty(text_of(document, place, "segment")));
            out.add(", where ");
            let stands = NamedPlace {
                code: 0,
                table: if earlier.port == 0 {
                    "station"
                } else {
                    "repeater"
                },
                row: earlier.row,
                port: earlier.port,
                key: "at",
            };
            show_row(out, document, &stands);
            out.add(" stands: ");
            match next_free(taps.as_slice(), earlier.segment, earlier.at) {
                Some(free) => {
                    out.add_number(free);
                    out.add(" is the next free place");
                }
                None => out.add("no place of it is free"),
            }
        }
        None => out.add(
            " stands where an earlier tap of its segment stands: give it another place",
        ),
    }
}
