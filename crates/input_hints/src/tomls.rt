//! Why a layout file is no TOML document.

use crate::asked::or_empty;
use crate::layouts::begin_at;
use crate::message::Message;
use crate::places::Spot;
use toml::de::Error;

/// Where octet `place` stands, counted in characters.
fn spot_at(octets: &[u8], place: usize) -> Spot {
    let mut line = 1usize;
    let mut column = 1usize;
    for octet in octets.get(..place).unwrap_or(octets) {
        if *octet == b'\n' {
            line = line.saturating_add(1);
            column = 1;
        } else if *octet & 0xc0 != 0x80 {
            column = column.saturating_add(1);
        }
    }
    Spot { line, column }
}

/// Tells of octets that are no UTF-8.
pub fn tell_no_text(out: &mut Message, file: &str, octets: &[u8]) {
    let place = match str::from_utf8(octets) {
        Ok(_) => 0,
        Err(error) => error.valid_up_to(),
    };
    begin_at(out, file, Some(spot_at(octets, place)));
    if octets.starts_with(&[0xff, 0xfe]) || octets.starts_with(&[0xfe, 0xff]) {
        out.add("the file is UTF-16: save it as UTF-8\n");
    } else {
        let octet = octets.get(place).copied().unwrap_or(0);
        out.add("the octet 0x");
        out.add_octet(octet);
        out.add(" is no UTF-8: save the file as UTF-8\n");
    }
}

/// How many characters stand before the first quote that isn't straight.
fn smart_at(text: &str) -> Option<usize> {
    let mut count = 0usize;
    for sign in text.chars() {
        if matches!(sign, '\u{2018}'..='\u{201f}' | '\u{ab}' | '\u{bb}') {
            return Some(count);
        }
        count = count.saturating_add(1);
    }
    None
}

/// Begins a sentence on a file, in a line after its first `length` characters or octets.
fn begin_after(out: &mut Message, file: &str, line: usize, length: usize) {
    let column = length.saturating_add(1);
    begin_at(out, file, Some(Spot { line, column }));
}

/// Tells what is often wrong with a line, and whether it is.
fn tell_often(out: &mut Message, file: &str, number: usize, line: &str) -> bool {
    let front = match line.split_once('#') {
        Some((front, _)) => front,
        None => line,
    };
    if let Some(column) = smart_at(front) {
        begin_after(out, file, number, column);
        out.add("a text stands between straight quotes, \"\"\n");
        return true;
    }
    let Some((key, value)) = front.split_once('=') else {
        return tell_colon(out, file, number, front);
    };
    let value = value.trim();
    let first = value.as_bytes().first().copied().unwrap_or(b' ');
    if !first.is_ascii_alphabetic() || value == "true" || value == "false" {
        return false;
    }
    let column = front.trim_end().len().saturating_sub(value.len());
    begin_after(out, file, number, column);
    out.add("a text needs quotes: ");
    out.show(key.trim());
    out.add(" = \"");
    out.show(value.trim_matches('"'));
    out.add("\"\n");
    true
}

/// Tells of a colon in place of `=`, and whether there is one.
fn tell_colon(out: &mut Message, file: &str, number: usize, front: &str) -> bool {
    match front.split_once(':') {
        Some((key, value)) => {
            begin_after(out, file, number, key.len());
            out.add("'=' stands between a key and its value: ");
            out.show(key.trim());
            out.add(" = ");
            out.show(value.trim());
            out.add("\n");
            true
        }
        None => false,
    }
}

/// Tells why a text is no TOML document.
pub fn tell_no_toml(out: &mut Message, file: &str, text: &str, error: &Error) {
    let Some(span) = error.span() else {
        out.add("netsim: there was not enough memory\n");
        return;
    };
    let spot = spot_at(text.as_bytes(), span.start);
    let line = or_empty(text.lines().nth(spot.line.saturating_sub(1)));
    if !tell_often(out, file, spot.line, line) {
        begin_at(out, file, Some(spot));
        out.add("this is no TOML, ");
        out.show(error.message());
        out.add(": ");
        out.show_word(line);
        out.add("\n");
    }
}
