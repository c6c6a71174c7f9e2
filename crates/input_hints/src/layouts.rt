//! What is wrong with a layout file, by the program's own line and by the file, which is read again.

use crate::asked::{Ended, or_empty, word_at};
use crate::digits::tell_digits;
use crate::files::read_file;
use crate::message::Message;
use crate::near::{Nearest, nearest_in, take_names, tell_nearest};
use crate::places::{NamedPlace, Spot, place_in, spot_of};
use crate::rows::{row_named, rows_of};
use crate::said::{EARLIER, LIMITS, NAMES, WANTED, keys_of, said_in};
use crate::tables::{is_table, tell_no_table};
use crate::taken::tell_taken;
use crate::tomls::{tell_no_text, tell_no_toml};
use crate::ways::tell_loop;
use lists::OutOfMemory;
use outside::Store;
use std::alloc::Global;
use toml::{Table, Value};

/// The octets of the longest layout file.
pub const LONGEST_FILE: usize = 1_048_576;

/// A row of an array of tables, from 1.
fn row_of<'a>(document: &'a Table, table: &str, row: usize) -> Option<&'a Table> {
    rows_of(document, table)
        .get(row.saturating_sub(1))?
        .as_table()
}

/// The table of a place: the file's own, a row's, or a port's.
fn table_of<'a>(document: &'a Table, place: &NamedPlace<'_>) -> Option<&'a Table> {
    if place.row == 0 {
        return Some(document);
    }
    let row = row_of(document, place.table, place.row);
    if place.port == 0 {
        return row;
    }
    row_of(row?, "port", place.port)
}

pub fn text_at<'a>(table: &'a Table, key: &str) -> Option<&'a str> {
    match table.get(key) {
        Some(Value::String(text)) => Some(text.as_str()),
        _ => None,
    }
}

pub fn number_at(table: &Table, key: &str) -> Option<i64> {
    match table.get(key) {
        Some(Value::Integer(number)) => Some(*number),
        _ => None,
    }
}

/// The text of a key of a place.
pub fn text_of<'a>(document: &'a Table, place: &NamedPlace<'_>, key: &str) -> Option<&'a str> {
    text_at(table_of(document, place)?, key)
}

/// The name of a row, from 1.
pub fn name_at<'a>(document: &'a Table, table: &str, row: usize) -> Option<&'a str> {
    text_at(row_of(document, table, row)?, "name")
}

/// Shows where a place is: the row with its name, or the file's head.
pub fn show_row(out: &mut Message, document: &Table, place: &NamedPlace<'_>) {
    if place.row == 0 {
        out.add("the head of the file");
        return;
    }
    if place.port > 0 {
        out.add("port ");
        out.add_number(place.port as u64);
        out.add(" of ");
    }
    out.add("[[");
    out.add(place.table);
    out.add("]] ");
    match name_at(document, place.table, place.row) {
        Some(name) => out.show_word(name),
        None => out.add_number(place.row as u64),
    }
}

/// Begins a sentence on a file.
pub fn begin(out: &mut Message, file: &str) {
    out.add("netsim: ");
    out.show(file);
}

/// Begins a sentence on a file, at a line and a column where they are known.
pub fn begin_at(out: &mut Message, file: &str, spot: Option<Spot>) {
    begin(out, file);
    if let Some(spot) = spot {
        out.add(":");
        out.add_number(spot.line as u64);
        out.add(":");
        out.add_number(spot.column as u64);
    }
    out.add(": ");
}

/// Tells that no more can be told of a file, since a pipe is read only once.
pub fn tell_unread(out: &mut Message, file: &str) {
    begin(out, file);
    out.add(": it can't be read again to say more: save it as a file\n");
}

fn is_listed(keys: &str, key: &str) -> bool {
    for known in keys.split_whitespace() {
        if known == key {
            return true;
        }
    }
    false
}

/// The first key of a table that isn't listed.
fn stranger<'a>(table: &'a Table, keys: &str) -> Option<&'a str> {
    for key in table.keys() {
        if !is_listed(keys, key.as_str()) {
            return Some(key.as_str());
        }
    }
    None
}

/// Goes on after an unknown key: what may have been meant.
fn tell_meant(out: &mut Message, keys: &str, key: &str) {
    if key == "lose_bits" {
        out.add(": it needs format = 2");
        return;
    }
    match nearest_in(out, keys, key) {
        Some(known) => {
            out.add(": did you mean '");
            out.add(known);
            out.add("'?");
        }
        None if is_listed("format seed until_bits", key) => {
            out.add(": it belongs to the head of the file, before the first table");
        }
        None => {
            out.add(" is none of its keys: ");
            out.add(keys);
        }
    }
}

/// Tells that nothing has this name, and which one is near.
fn tell_no_such(out: &mut Message, document: &Table, table: &str, name: &str) {
    out.add("there is no [[");
    out.add(table);
    out.add("]] ");
    out.show_word(name);
    if table == "station" && row_named(rows_of(document, "repeater"), name).is_some() {
        out.add(": it is a repeater, and repeaters send no frames of their own");
        return;
    }
    let mut nearest = Nearest::new(out.alloc, name);
    take_names(out, &mut nearest, rows_of(document, table));
    tell_nearest(out, nearest.found());
}

/// Tells that a place lacks its key.
fn tell_lack(out: &mut Message, document: &Table, place: &NamedPlace<'_>) {
    if place.row == 0 && place.key == "segment" {
        out.add("the file has no [[segment]]");
        return;
    }
    show_row(out, document, place);
    out.add(" lacks its key '");
    out.add(place.key);
    out.add("': ");
    out.add(said_in(WANTED, place.table, place.key));
}

/// The sentence of a fault, after its place.
fn tell_fault(out: &mut Message, document: &Table, place: &NamedPlace<'_>) {
    let text = or_empty(text_of(document, place, place.key));
    match place.code {
        3 => tell_lack(out, document, place),
        4 | 6 => {
            out.add(place.key);
            out.add(" wants ");
            out.add(said_in(WANTED, place.table, place.key));
        }
        9 => tell_no_such(out, document, "segment", text),
        10 => tell_no_such(out, document, "station", text),
        11 => tell_taken(out, document, place),
        12 => tell_loop(out, document, place, text),
        14 => tell_digits(out, text, number_at(document, "format").unwrap_or(0)),
        5 => out.add(said_in(NAMES, place.table, place.key)),
        7 => out.add(said_in(LIMITS, place.table, place.key)),
        8 => out.add(said_in(EARLIER, place.table, place.key)),
        13 => out.add("no path over repeaters joins this segment to the first one"),
        _ => out.add("it has a fault"),
    }
}

/// Tells of a key that a table may not have.
fn tell_stranger_key(
    out: &mut Message,
    file: &str,
    text: &str,
    document: &Table,
    place: &NamedPlace<'_>,
) {
    let keys = keys_of(place, number_at(document, "format").unwrap_or(0));
    let key = match table_of(document, place) {
        Some(table) => stranger(table, keys).unwrap_or("-"),
        None => "-",
    };
    begin_at(out, file, spot_of(text, place, key));
    if place.row == 0 && is_table(document, key) {
        tell_no_table(out, key);
        return;
    }
    out.show_word(key);
    out.add(" in ");
    show_row(out, document, place);
    tell_meant(out, keys, key);
}

/// Tells of a layout's fault, by its text.
fn tell_in(out: &mut Message, file: &str, text: &str, place: &NamedPlace<'_>) {
    match toml::table_from_str(out.alloc, text) {
        Ok(document) => {
            if place.code == 2 {
                tell_stranger_key(out, file, text, &document, place);
            } else {
                begin_at(out, file, spot_of(text, place, place.key));
                tell_fault(out, &document, place);
            }
            out.add("\n");
        }
        Err(error) => tell_no_toml(out, file, text, &error),
    }
}

/// Tells of a layout's fault, by the octets of the file.
fn tell_octets(out: &mut Message, file: &str, octets: &[u8], place: &NamedPlace<'_>) {
    if octets.len() > LONGEST_FILE {
        begin(out, file);
        out.add(": a layout file has at most 1048576 octets\n");
        return;
    }
    match str::from_utf8(octets) {
        Ok(text) => tell_in(out, file, text, place),
        Err(_) => tell_no_text(out, file, octets),
    }
}

/// Tells of a layout's fault.
pub fn tell_layout<S: Store>(
    alloc: Global,
    out: &mut String,
    ended: &Ended<'_>,
    store: &mut S,
) -> Result<(), OutOfMemory> {
    let file = word_at(ended.words, 1);
    let Some(place) = place_in(ended.said) else {
        return Ok(());
    };
    let mut message = Message::new(alloc);
    match read_file(alloc, store, file, LONGEST_FILE)? {
        Some(octets) => tell_octets(&mut message, file, octets.as_slice(), &place),
        None => tell_unread(&mut message, file),
    }
    message.put_into(out)
}

/// The document of a layout file that has no fault.
pub fn document_of<S: Store>(
    alloc: Global,
    file: &str,
    store: &mut S,
) -> Result<Option<Table>, OutOfMemory> {
    let Some(octets) = read_file(alloc, store, file, LONGEST_FILE)? else {
        return Ok(None);
    };
    Ok(toml::table_from_slice(alloc, octets.as_slice()).ok())
}
