//! What is wrong with a load.

use crate::captures::tell_record;
use crate::heads::{other_form, tell_link, tell_short, tell_version};
use input_hints::{
    Ended, Message, after, begin, document_of, is_named, or_empty, read_file, rows_of, tell_unread,
    word_at, word_of,
};
use lists::OutOfMemory;
use outside::Store;
use std::alloc::Global;
use toml::Table;

/// The octets of a capture's head.
const HEAD: usize = 24;

/// The number of a line after the first word that is as given.
pub fn number_after(line: &str, word: &str) -> Option<u64> {
    after(line, word)?.parse::<u64>().ok()
}

/// The load of the station of a name.
fn load_of<'a>(document: &'a Table, station: &str) -> Option<&'a str> {
    for row in rows_of(document, "station") {
        if is_named(row, "name", station) {
            return word_of(row, "load");
        }
    }
    None
}

/// Tells of a record whose place isn't known.
fn tell_unplaced(out: &mut Message, code: u64, record: &str) {
    if code == 5 {
        out.add("record ");
        out.add(record);
        out.add(" says that it has more than 262144 octets: the file is damaged");
    } else {
        out.add("it ends within record ");
        out.add(record);
        out.add(": was it still being written, or copied in part?");
    }
}

/// Tells what is wrong with a record, by the program's own line.
fn tell_records<S: Store>(out: &mut Message, store: &mut S, load: &str, code: u64, said: &str) {
    let record = after(said, "record").unwrap_or("0");
    let told = match record.parse::<u64>() {
        Ok(number) => tell_record(out, store, load, code, number),
        Err(_) => false,
    };
    if !told {
        tell_unplaced(out, code, record);
    }
}

/// Tells what is wrong with a load by the code and the capture's head, where it isn't a record.
fn tell_code(out: &mut Message, code: u64, head: &[u8]) {
    match code {
        1 => tell_short(out, head.len()),
        2 => out.add(other_form(head)),
        3 => tell_version(out, head),
        4 => tell_link(out, head),
        7 => out.add(
            "a load has at most 67108864 octets, and all loads 268435456; editcap -c cuts a capture",
        ),
        _ => out.add("it is no capture"),
    }
}

/// Tells of the fault of the load of a station.
fn tell_of<S: Store>(
    out: &mut Message,
    store: &mut S,
    load: &str,
    station: &str,
    said: &str,
    head: &[u8],
) {
    begin(out, load);
    out.add(", the load of station ");
    out.add(station);
    out.add(": ");
    let code = number_after(said, "fault").unwrap_or(0);
    if code == 5 || code == 6 {
        tell_records(out, store, load, code, said);
    } else {
        tell_code(out, code, head);
    }
    out.add("\n");
}

/// Tells of a load's fault, by the layout.
fn tell_in<S: Store>(
    out: &mut Message,
    store: &mut S,
    document: &Table,
    said: &str,
) -> Result<(), OutOfMemory> {
    let station = or_empty(after(said, "station"));
    if let Some(load) = load_of(document, station) {
        match read_file(out.alloc, store, load, HEAD)? {
            Some(octets) => tell_of(out, store, load, station, said, octets.as_slice()),
            None => tell_unread(out, load),
        }
    }
    Ok(())
}

/// Tells of a load's fault.
pub fn tell_load<S: Store>(
    alloc: Global,
    out: &mut String,
    ended: &Ended<'_>,
    store: &mut S,
) -> Result<(), OutOfMemory> {
    let layout = word_at(ended.words, 1);
    let mut message = Message::new(alloc);
    match document_of(alloc, layout, store)? {
        Some(document) => tell_in(&mut message, store, &document, ended.said)?,
        None => tell_unread(&mut message, layout),
    }
    message.put_into(out)
}
