//! Names, loads and frames as texts.
ghost use Rattle.std.specs.Prelude.{◌≡◌, ◌≤◌, nat_le, IfOk};
ghost use Rattle.std.specs.List.{list_all};
ghost use Rattle.layout_file.specs.TextValues.{is_name, is_load, is_digit, digit_of, octets_of_digits, is_frame};
ghost use Rattle.layout.specs.NameOctets.{is_name_octet, is_between};

use layout::{LONGEST_LOAD, LONGEST_NAME, Octets};
use lists::{List, OutOfMemory};
use mac_parameters::ADDRESSES_AND_TYPE;
use std::alloc::Global;

#[tactic(auto, unfolding(layout::specs::NameOctets::is_name_octet))]
fn is_name_octet(octet: u8) -> bool
    ensures { result ≡ is_name_octet octet }
{
    matches!(octet, b'a'..=b'z' | b'A'..=b'Z' | b'0'..=b'9' | b'_' | b'-')
}

/// From the first bound to the second.
fn is_between(least: u64, most: u64, n: u64) -> bool
    ensures { result ≡ is_between least most n }
{
    least <= n && n <= most
}

fn are_name_octets(octets: &[u8]) -> bool
    ensures { result ≡ list_all is_name_octet octets.now }
{
    octets.iter().all(|octet| is_name_octet(*octet))
}

fn are_not_zero(octets: &[u8]) -> bool
    ensures { result ≡ list_all (nat_le 1) octets.now }
{
    octets.iter().all(|octet| 1 <= *octet)
}

fn are_digits(octets: &[u8]) -> bool
    ensures { result ≡ list_all is_digit octets.now }
{
    octets.iter().all(|octet| is_digit(*octet))
}

/// A name has 1 to 32 letters, decimal digits, low lines and hyphens.
#[tactic(auto, unfolding(crate::specs::TextValues::is_name))]
pub fn is_name(text: &str) -> bool
    ensures { result ≡ is_name text.now }
{
    is_between(1, LONGEST_NAME, text.len() as u64) && are_name_octets(text.as_bytes())
}

/// A load has 1 to 255 octets, none of them zero.
#[tactic(auto, unfolding(crate::specs::TextValues::is_load))]
pub fn is_load(text: &str) -> bool
    ensures { result ≡ is_load text.now }
{
    is_between(1, LONGEST_LOAD, text.len() as u64) && are_not_zero(text.as_bytes())
}

#[tactic(auto, unfolding(crate::specs::TextValues::is_digit))]
fn is_digit(octet: u8) -> bool
    ensures { result ≡ is_digit octet }
{
    matches!(octet, b'0'..=b'9' | b'a'..=b'f' | b'A'..=b'F')
}

/// What a hexadecimal digit stands for, and 0 of another octet.
#[tactic(auto, unfolding(crate::specs::TextValues::digit_of))]
fn digit(octet: u8) -> u8
    ensures value { result ≡ digit_of octet }
    ensures most { result ≤ 15 }
{
    match octet {
        b'0'..=b'9' => octet - b'0',
        b'a'..=b'f' => octet - b'a' + 10,
        b'A'..=b'F' => octet - b'A' + 10,
        _ => 0,
    }
}

/// A frame has 14 octets up to `most`, in two hexadecimal digits each.
#[tactic(auto, unfolding(crate::specs::TextValues::is_frame))]
pub fn is_frame(most: u64, text: &str) -> bool
    ensures { result ≡ is_frame most text.now }
{
    is_between(ADDRESSES_AND_TYPE as u64, most, (text.len() / 2) as u64)
        && text.len() % 2 == 0
        && are_digits(text.as_bytes())
}

/// The octets that the digits spell.
pub fn octets(alloc: Global, text: &str) -> Result<Octets, OutOfMemory>
    ensures { IfOk result (λ octets. octets ≡ octets_of_digits text.now) }
{
    let digits = text.as_bytes();
    let mut octets = List::new(alloc);
    for i in 0..digits.len() / 2 {
        let high = digit(digits[2 * i]);
        let low = digit(digits[2 * i + 1]);
        octets.push(16 * high + low)?;
    }
    Ok(octets)
}
