//! Words, numbers, and yes or no at the front of octets.
ghost use Rattle.std.specs.Prelude.{◌≡◌, ◌≤◌, length, codes};
ghost use Rattle.std.specs.Char.{is_ascii_digit};
ghost use Rattle.std.specs.List.{prefix_len};
ghost use Rattle.std.specs.Str.{bytes_eq};
ghost use Rattle.text_fields.specs.Reading.{IsReading};
ghost use Rattle.run_checkpoint.specs.Fields.{any_number_at, begins_number, figure_at, long_number_at, truth_at, yes_or_no_at};

use text_fields::{after_word, number};

/// The least number of more than 32 bits, as which each longer one is told: it is beyond all ranges of a state's
/// numbers.
pub const BEYOND_RANGES: u64 = 4_294_967_296;

/// How many digits stand in front.
fn digit_count(octets: &[u8]) -> usize
    ensures len { result ≡ prefix_len is_ascii_digit octets.now }
    ensures within { result ≤ length octets.now }
{
    let mut len = 0;
    while len < octets.len() && octets[len].is_ascii_digit() {
        len += 1;
    }
    len
}

/// Whether a digit other than zero stands in front.
fn begins_number(octets: &[u8]) -> bool
    ensures { result ≡ begins_number octets.now }
{
    match octets.first() {
        Some(c) => c.is_ascii_digit() && *c != b'0',
        None => false,
    }
}

/// A decimal number without leading zeros, of any length.
#[tactic(auto, unfolding(crate::specs::Fields::long_number_at))]
fn long_number(octets: &[u8]) -> Option<(u64, &[u8])>
    ensures { IsReading (λ n. (n.0, n.1.now)) result (long_number_at octets.now) }
{
    if !begins_number(octets) {
        return None;
    }
    let len = digit_count(octets);
    Some((BEYOND_RANGES, &octets[len..]))
}

/// A decimal number without leading zeros: its value where that has 32 bits.
#[tactic(auto, unfolding(crate::specs::Fields::any_number_at))]
fn any_number(octets: &[u8]) -> Option<(u64, &[u8])>
    ensures { IsReading (λ n. (n.0, n.1.now)) result (any_number_at octets.now) }
{
    if let Some((n, rest)) = number(octets) {
        return Some((u64::from(n), rest));
    }
    long_number(octets)
}

/// A word and a number.
#[tactic(auto, unfolding(crate::specs::Fields::figure_at))]
pub fn figure<'a>(word: &[u8], octets: &'a [u8]) -> Option<(u64, &'a [u8])>
    ensures { IsReading (λ n. (n.0, n.1.now)) result (figure_at word.now octets.now) }
{
    any_number(after_word(word, octets)?)
}

/// Yes or no.
#[tactic(auto, unfolding(crate::specs::Fields::yes_or_no_at))]
fn yes_or_no(octets: &[u8]) -> Option<(bool, &[u8])>
    ensures { IsReading (λ b. (b.0, b.1.now)) result (yes_or_no_at octets.now) }
{
    if let Some(rest) = after_word(b"yes", octets) {
        return Some((true, rest));
    }
    let rest = after_word(b"no", octets)?;
    Some((false, rest))
}

/// A word, and yes or no.
#[tactic(auto, unfolding(crate::specs::Fields::truth_at))]
pub fn truth<'a>(word: &[u8], octets: &'a [u8]) -> Option<(bool, &'a [u8])>
    ensures { IsReading (λ b. (b.0, b.1.now)) result (truth_at word.now octets.now) }
{
    yes_or_no(after_word(word, octets)?)
}

/// Whether nothing but the line feed is left of a line.
pub fn is_line_end(rest: &[u8]) -> bool
    ensures { result ≡ bytes_eq rest.now (codes "\n") }
{
    rest == b"\n".as_slice()
}
