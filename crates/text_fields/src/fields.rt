//! Words, numbers and names at the front of octets.
ghost use Rattle.std.specs.Prelude.{◌≡◌, ◌≤◌, ◌<◌, ◌^◌, ◌+◌, ◌-◌, ◌*◌, IfSome, IfNone, drop, length};
ghost use Rattle.std.specs.List.{prefix_len};
ghost use Rattle.layout.specs.NameOctets.{is_name_octet};
ghost use Rattle.text_fields.specs.Reading.{IsReading, after_word, digits_ended, field_at, follows_zero, half_bit_at, name_at, decimal_at};

use layout::LONGEST_NAME;

/// The octets after a word.
pub fn after_word<'a>(word: &[u8], octets: &'a [u8]) -> Option<&'a [u8]>
    ensures { IsReading (λ rest. rest.now) result (after_word word.now octets.now) }
{
    octets.strip_prefix(word)
}

/// The digits ended at `len`.
fn digits_ended(value: u32, len: usize, octets: &[u8]) -> Option<(u32, &[u8])>
    requires { len ≤ length octets.now }
    ensures { IsReading (λ n. (n.0, n.1.now)) result (digits_ended value len (drop len octets.now)) }
{
    if len > 0 {
        Some((value, &octets[len..]))
    } else {
        None
    }
}

/// Whether a digit would follow a first digit of zero.
fn follows_zero(value: u32, len: usize) -> bool
    ensures { result ≡ follows_zero value len }
{
    value == 0 && len > 0
}

/// The number `value` with one digit more, if that has 32 bits.
fn with_digit(value: u32, digit: u8) -> Option<u32>
    requires { 48 ≤ digit }
    ensures none { IfNone result (2 ^ 32 ≤ value * 10 + (digit - 48)) }
    ensures some { IfSome result (λ sum. (sum ≡ value * 10 + (digit - 48)) × (sum < 2 ^ 32)) }
{
    let tens = value.checked_mul(10)?;
    tens.checked_add(u32::from(digit - b'0'))
}

/// A decimal number without leading zeros that has 32 bits.
pub fn number(octets: &[u8]) -> Option<(u32, &[u8])>
    ensures { IsReading (λ n. (n.0, n.1.now)) result (decimal_at octets.now) }
{
    let mut value = 0u32;
    'digits: for i in 0..octets.len() {
        let digit = octets[i];
        if !digit.is_ascii_digit() {
            return digits_ended(value, i, octets);
        }
        if follows_zero(value, i) {
            return None;
        }
        let Some(sum) = with_digit(value, digit) else {
            return None;
        };
        value = sum;
    }
    digits_ended(value, octets.len(), octets)
}

/// A word and a number.
#[tactic(auto, unfolding(crate::specs::Reading::field_at))]
pub fn field<'a>(word: &[u8], octets: &'a [u8]) -> Option<(u32, &'a [u8])>
    ensures { IsReading (λ n. (n.0, n.1.now)) result (field_at word.now octets.now) }
{
    number(after_word(word, octets)?)
}

/// A word and a half bit, the last of which is `t`.
#[tactic(auto, unfolding(crate::specs::Reading::half_bit_at))]
pub fn half_bit<'a>(t: u64, word: &[u8], octets: &'a [u8]) -> Option<(u64, &'a [u8])>
    ensures { IsReading (λ n. (n.0, n.1.now)) result (half_bit_at t word.now octets.now) }
{
    let (n, rest) = field(word, octets)?;
    let n = u64::from(n);
    if n > t {
        return None;
    }
    Some((n, rest))
}

/// Letters, decimal digits, low lines and hyphens.
#[tactic(auto, unfolding(layout::specs::NameOctets::is_name_octet))]
fn is_name_octet(octet: u8) -> bool
    ensures { result ≡ is_name_octet octet }
{
    matches!(octet, b'a'..=b'z' | b'A'..=b'Z' | b'0'..=b'9' | b'_' | b'-')
}

/// How many octets of a name stand in front.
fn name_len(octets: &[u8]) -> usize
    ensures len { result ≡ prefix_len is_name_octet octets.now }
    ensures within { result ≤ length octets.now }
{
    let mut len = 0;
    while len < octets.len() && is_name_octet(octets[len]) {
        len += 1;
    }
    len
}

/// A name.
#[tactic(auto, unfolding(crate::specs::Reading::name_at))]
pub fn name(octets: &[u8]) -> Option<(&str, &[u8])>
    ensures { IsReading (λ n. (n.0.now, n.1.now)) result (name_at octets.now) }
{
    let len = name_len(octets);
    if len < 1 || len as u64 > LONGEST_NAME {
        return None;
    }
    let (name, rest) = octets.split_at(len);
    let Ok(name) = str::from_utf8(name) else {
        return None;
    };
    Some((name, rest))
}
