//! Tables that no layout file has.

use crate::message::Message;
use crate::near::nearest_in;
use toml::{Table, Value};

/// Whether a key of the file is a table, or an array of them.
pub fn is_table(document: &Table, key: &str) -> bool {
    match document.get(key) {
        Some(Value::Table(_)) => true,
        Some(Value::Array(rows)) => {
            for row in rows.as_slice() {
                if row.is_table() {
                    return true;
                }
            }
            false
        }
        _ => false,
    }
}

/// Tells that there is no table of a name, and which one may have been meant.
pub fn tell_no_table(out: &mut Message, name: &str) {
    out.add("there is no table ");
    out.show_word(name);
    match nearest_in(out, "segment station repeater send", name) {
        Some(known) => {
            out.add(": did you mean [[");
            out.add(known);
            out.add("]]?");
        }
        None => out.add(
            ": the tables are [[segment]], [[station]], [[repeater]], [[repeater.port]] and [[send]]",
        ),
    }
}
