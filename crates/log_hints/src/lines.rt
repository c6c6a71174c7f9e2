//! What is wrong with a line of a log or a state, by its own text.

use input_hints::{after, are_digits};
use mac_parameters::MOST_HALF_BITS;

/// The greatest of a row's numbers that are no half bits.
const GREATEST_NUMBER: u64 = 4_294_967_295;

/// What stands after the first words of a line, each with one blank.
pub fn after_words(line: &str, count: usize) -> &str {
    let mut rest = line;
    for _word in 0..count {
        rest = match rest.split_once(' ') {
            Some((_, more)) => more,
            None => "",
        };
    }
    rest
}

pub fn first_word(line: &str) -> &str {
    line.split_whitespace().next().unwrap_or("")
}

/// Whether a word is a number, and none of these.
pub fn is_outside(word: &str, least: u64, most: u64) -> bool {
    let is_in = word
        .parse::<u64>()
        .is_ok_and(|number| least <= number && number <= most);
    are_digits(word) && !is_in
}

pub fn is_padded(word: &str) -> bool {
    are_digits(word) && word.len() > 1 && word.starts_with('0')
}

/// What is wrong with a line's end or with its blanks.
pub fn shape_fault(line: &str, ends_file: bool) -> Option<&'static str> {
    if ends_file && line.is_empty() {
        Some("the file ends before this line: was it still being written, or copied in part?")
    } else if ends_file {
        Some("its line feed is missing: was it still being written, or copied in part?")
    } else if line.ends_with('\r') {
        Some("a carriage return stands before its line feed")
    } else if line.starts_with(' ') || line.ends_with(' ') || line.contains("  ") {
        Some("it has a blank too many")
    } else {
        None
    }
}

/// What is wrong with the numbers of a row, as a log has it.
pub fn row_fault(row: &str) -> Option<&'static str> {
    let half_bit = first_word(row);
    let body = after_words(row, 3);
    let start = after_start(body);
    let mut words = body.split_whitespace();
    if is_outside(half_bit, 0, MOST_HALF_BITS) || is_outside(start, 0, MOST_HALF_BITS) {
        Some("half bits go to 2000000000")
    } else if words.any(|word| is_outside(word, 0, GREATEST_NUMBER)) {
        Some("numbers go to 4294967295")
    } else if is_padded(half_bit) || body.split_whitespace().any(is_padded) {
        Some("a number has a leading zero")
    } else {
        match half_bit.parse::<u64>() {
            Ok(last) if is_outside(start, 0, last) => Some("its start is after its half bit"),
            _ => None,
        }
    }
}

/// When a sending began, by the body of its row.
fn after_start(body: &str) -> &str {
    after(body, "start").unwrap_or("")
}
