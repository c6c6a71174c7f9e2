//! What is wrong with the digits of a frame.

use crate::message::Message;
use mac_parameters::{CHECK_SEQUENCE, most_octets};

/// The first sign that is no hexadecimal digit, and its place from 1.
fn no_digit(digits: &str) -> Option<(u64, char)> {
    let mut place = 0u64;
    for sign in digits.chars() {
        place = place.saturating_add(1);
        if !sign.is_ascii_hexdigit() {
            return Some((place, sign));
        }
    }
    None
}

/// Tells which digit is none.
fn tell_digit(out: &mut Message, place: u64, sign: char) {
    out.add("octets wants hexadecimal digits alone: digit ");
    out.add_number(place);
    if sign == ' ' {
        out.add(" is a blank");
    } else {
        out.add(" is '");
        out.show(sign.encode_utf8(&mut [0u8; 4]));
        out.add("'");
    }
}

/// Tells of a frame of too few or too many octets.
fn tell_size(out: &mut Message, octets: u64, format: i64) {
    let most = u64::from(most_octets(format == 2));
    out.add("octets has ");
    out.add_number(octets);
    out.add(" octets, and a frame without its check sequence has 14 to ");
    out.add_number(most);
    if octets.saturating_sub(most) == u64::from(CHECK_SEQUENCE) {
        out.add(": if its last 4 octets are the check sequence, leave them away");
    }
}

/// Tells what is wrong with the digits of a frame.
pub fn tell_digits(out: &mut Message, digits: &str, format: i64) {
    if digits.starts_with("0x") || digits.starts_with("0X") {
        out.add("octets wants hexadecimal digits alone, without 0x before them");
        return;
    }
    let count = digits.len() as u64;
    match no_digit(digits) {
        Some((place, sign)) => tell_digit(out, place, sign),
        None if count % 2 == 1 => {
            out.add("octets has ");
            out.add_number(count);
            out.add(" digits, and an octet has two");
        }
        None => tell_size(out, count / 2, format),
    }
}
