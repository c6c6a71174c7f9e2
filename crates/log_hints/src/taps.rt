//! What is wrong with the taps and the half bits of a probe.

use input_hints::{
    Ended, Message, Nearest, document_of, is_named, number_at, or_empty, rows_of, take_names,
    tell_nearest, word_at,
};
use lists::OutOfMemory;
use outside::Store;
use std::alloc::Global;
use toml::{Table, Value};

/// Tells that TO is past the end of the run.
pub fn tell_range<S: Store>(
    alloc: Global,
    out: &mut String,
    ended: &Ended<'_>,
    store: &mut S,
) -> Result<(), OutOfMemory> {
    let mut message = Message::new(alloc);
    message.add("netsim: TO ");
    message.add(word_at(ended.words, 3));
    message.add(" is past the end of the run");
    if let Some(document) = document_of(alloc, word_at(ended.words, 1), store)? {
        if let Some(bits) = number_at(&document, "until_bits") {
            message.add(", which has ");
            message.add_signed(bits.saturating_mul(2));
            message.add(" half bits, two for each of until_bits");
        }
    }
    message.add("\n");
    message.put_into(out)
}

/// How many ports the repeater of a name has.
fn ports_of(document: &Table, name: &str) -> Option<u64> {
    for row in rows_of(document, "repeater") {
        if is_named(row, "name", name) {
            if let Some(row) = row.as_table() {
                if let Some(Value::Array(ports)) = row.get("port") {
                    return Some(ports.len() as u64);
                }
            }
        }
    }
    None
}

/// Goes on after a tap that isn't there: what may have been meant.
fn tell_meant(out: &mut Message, document: &Table, tap: &str) {
    let name = match tap.split_once(':') {
        Some((name, _)) => name,
        None => tap,
    };
    if let Some(ports) = ports_of(document, name) {
        out.add(": that repeater has the taps ");
        out.add(name);
        out.add(":1 to ");
        out.add(name);
        out.add(":");
        out.add_number(ports);
        return;
    }
    let mut nearest = Nearest::new(out.alloc, name);
    take_names(out, &mut nearest, rows_of(document, "station"));
    take_names(out, &mut nearest, rows_of(document, "repeater"));
    tell_nearest(out, nearest.found());
}

/// Tells that a tap isn't in the layout.
pub fn tell_tap<S: Store>(
    alloc: Global,
    out: &mut String,
    ended: &Ended<'_>,
    store: &mut S,
) -> Result<(), OutOfMemory> {
    let layout = word_at(ended.words, 1);
    let line = or_empty(ended.said.lines().next());
    let Some(tap) = line.strip_prefix("probe fault tap ") else {
        return Ok(());
    };
    let mut message = Message::new(alloc);
    message.add("netsim: ");
    message.show(layout);
    message.add(" has no tap ");
    message.show_word(tap);
    if let Some(document) = document_of(alloc, layout, store)? {
        tell_meant(&mut message, &document, tap);
    }
    message.add("\n");
    message.put_into(out)
}
