//! The line of the octets of a frame.
ghost use Rattle.std.specs.Prelude.{◌≡◌, ◌<◌, ◌≤◌, ◌++◌, [], OnOk, IfOk, drop, flat_map, length};
ghost use Rattle.text_fields.specs.Reading.{IsReading};
ghost use Rattle.run_checkpoint.specs.LineForms.{hex_octet, hex_octets_on, hex_value, octets_form};
ghost use Rattle.run_checkpoint.specs.LineTexts.{hex_digit, hex_digits, line_of_octets};

use crate::fields::is_line_end;
use lists::{List, OutOfMemory};
use std::alloc::Global;
use text_fields::after_word;

/// A hexadecimal digit, in lower case.
fn hex_digit(n: u8) -> u8
    requires { n < 16 }
    ensures { result ≡ hex_digit n }
{
    if n < 10 { n + b'0' } else { n + 87 }
}

/// Puts an octet at the end of a text, as two hexadecimal digits.
fn add_octet(text: &mut List<u8>, octet: u8) -> Result<(), OutOfMemory>
    ensures { OnOk result (text.new ≡ text.old ++ hex_digits octet) }
{
    text.push(hex_digit(octet / 16))?;
    text.push(hex_digit(octet % 16))
}

/// Puts octets at the end of a text, as hexadecimal digits.
fn add_digits(text: &mut List<u8>, octets: &[u8]) -> Result<(), OutOfMemory>
    ensures { OnOk result (text.new ≡ text.old ++ flat_map hex_digits octets.now) }
{
    for octet in octets {
        add_octet(text, *octet)?;
    }
    Ok(())
}

/// Puts the line of the octets of a frame at the end of a text.
#[tactic(auto, unfolding(crate::specs::LineTexts::line_of_octets))]
pub fn add_octets(text: &mut List<u8>, octets: &[u8]) -> Result<(), OutOfMemory>
    ensures { OnOk result (text.new ≡ text.old ++ line_of_octets octets.now) }
{
    text.extend(b"octets ")?;
    add_digits(text, octets)?;
    text.extend(b"\n")
}

/// The value of a hexadecimal digit, in lower case.
#[tactic(auto, unfolding(crate::specs::LineForms::hex_value))]
fn hex_value(c: u8) -> Option<u8>
    ensures { IsReading (λ n. n) result (hex_value c) }
{
    match c {
        b'0'..=b'9' => Some(c - b'0'),
        b'a'..=b'f' => Some(c - 87),
        _ => None,
    }
}

/// The octet that two hexadecimal digits stand for.
#[tactic(auto, unfolding(crate::specs::LineForms::hex_octet, crate::specs::LineForms::hex_value))]
fn octet_of(high: u8, low: u8) -> Option<u8>
    ensures { IsReading (λ n. n) result (hex_octet high low) }
{
    let high = hex_value(high)?;
    let low = hex_value(low)?;
    Some(16 * high + low)
}

/// The octets after two.
fn after_two(octets: &[u8]) -> &[u8]
    requires { 2 ≤ length octets.now }
    ensures { result.now ≡ drop 2 octets.now }
{
    &octets[2..]
}

/// The octets of hexadecimal digits up to the line feed.
#[tactic(auto, using(crate::proofs::HexRead::hex_last, crate::proofs::HexRead::hex_more, crate::proofs::HexRead::hex_none))]
fn octets_of_digits(alloc: Global, digits: &[u8]) -> Result<Option<List<u8>>, OutOfMemory>
    ensures { IfOk result (λ octets. octets ≡ hex_octets_on [] digits.now) }
{
    let mut octets = List::new(alloc);
    let mut rest = digits;
    while rest.len() >= 2 {
        let Some(octet) = octet_of(rest[0], rest[1]) else {
            return Ok(None);
        };
        octets.push(octet)?;
        rest = after_two(rest);
    }
    if is_line_end(rest) {
        return Ok(Some(octets));
    }
    Ok(None)
}

/// The octets whose line this is.
#[tactic(auto, unfolding(crate::specs::LineForms::octets_form))]
pub fn octets_of(alloc: Global, line: &[u8]) -> Result<Option<List<u8>>, OutOfMemory>
    ensures { IfOk result (λ octets. octets ≡ octets_form line.now) }
{
    let Some(digits) = after_word(b"octets ", line) else {
        return Ok(None);
    };
    octets_of_digits(alloc, digits)
}
