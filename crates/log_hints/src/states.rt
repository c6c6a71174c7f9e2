//! What is wrong with a line of a state.

use crate::lines::{after_words, first_word, is_outside, is_padded, row_fault, shape_fault};
use crate::order::comes_before;
use input_hints::after;
use lists::OutOfMemory;
use mac_parameters::{
    ATTEMPT_LIMIT, INTERFRAME_GAP, LAST_BACKOFF, MOST_DRAWS, MOST_HALF_BITS, PARTITION_COLLISION,
    PARTITION_IN_A_ROW, RECONNECTION,
};
use outside::Store;
use std::alloc::Global;

/// The word before a number of a line's body that is out of its range, and that range.
fn broken_range(kind: &str, body: &str) -> Option<(&'static str, u64, u64)> {
    for (line, word, least, most) in [
        ("station", "backoff", 0, LAST_BACKOFF),
        ("station", "gap", 1, u64::from(INTERFRAME_GAP)),
        ("station", "attempt", 1, u64::from(ATTEMPT_LIMIT)),
        ("station", "drawn", 0, MOST_DRAWS),
        ("guard", "in_row", 0, u64::from(PARTITION_IN_A_ROW)),
        ("guard", "clash_run", 0, u64::from(PARTITION_COLLISION)),
        ("guard", "clean_run", 0, u64::from(RECONNECTION)),
        ("guard", "rest", 0, 191),
        ("row", "attempt", 1, u64::from(ATTEMPT_LIMIT)),
        ("row", "hit", 0, MOST_HALF_BITS),
        ("row", "draw", 0, 1_023),
        ("row", "halves", 0, MOST_HALF_BITS),
    ] {
        let number = after(body, word).unwrap_or("");
        if line == kind && is_outside(number, least, most) {
            return Some((word, least, most));
        }
    }
    None
}

/// What is wrong with the form of a line, where it is known.
pub fn form_fault(line: &str, ends_file: bool) -> Option<&'static str> {
    let numbers = match first_word(line) {
        "state" => after_words(line, 1),
        "station" | "guard" => after_words(line, 2),
        _ => "",
    };
    match shape_fault(line, ends_file) {
        None if first_word(line) == "row" => row_fault(after_words(line, 1)),
        None if numbers.split_whitespace().any(is_padded) => Some("a number has a leading zero"),
        fault => fault,
    }
}

fn half_bit_of(row: &str) -> Option<u64> {
    first_word(after_words(row, 1)).parse::<u64>().ok()
}

/// What is wrong with a row after the one before it, where it is known.
pub fn order_fault<S: Store>(
    alloc: Global,
    store: &mut S,
    layout: &str,
    row: &str,
    before: &str,
) -> Result<Option<&'static str>, OutOfMemory> {
    let (Some(half_bit), Some(last)) = (half_bit_of(row), half_bit_of(before)) else {
        return Ok(None);
    };
    if half_bit < last {
        return Ok(Some("this row is of an earlier half bit than the one before"));
    }
    let device = first_word(after_words(row, 3));
    let other = first_word(after_words(before, 3));
    if half_bit == last && comes_before(alloc, store, layout, device, other)? {
        return Ok(Some("in the layout, its device comes before that of the row before"));
    }
    Ok(None)
}

/// Tells which rule the values of a line break: where it is none that is looked for, the last one of such a line.
pub fn tell_value(out: &mut String, line: &str, order: Option<&str>) -> Result<(), OutOfMemory> {
    let kind = first_word(line);
    let body = after_words(line, if kind == "row" { 4 } else { 2 });
    if let Some((word, least, most)) = broken_range(kind, body) {
        let number = after(body, word).unwrap_or("");
        write!(
            out,
            "{word} {number} is out of its range, {least} to {most}"
        )?;
        return Ok(());
    }
    out.push_str(match kind {
        "state" => "its half bit is at the end of the run or past it",
        "station" => "its place is past the station's frames",
        "guard" => "it says mend yes and closed no",
        "octets" => "a frame's octets are four fewer than its row says",
        "end" => "a station's place isn't the number of its rows 'sent' and 'given_up'",
        "row" if first_word(body) == "cut" => "a state has no row 'cut'",
        _ => order.unwrap_or("the numbers of this line are no state of this layout"),
    })?;
    Ok(())
}
