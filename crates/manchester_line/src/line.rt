ghost use Rattle.std.specs.Prelude.{◌≡◌, ◌<◌, ◌≤◌, ◌+◌, ◌*◌, length, take, drop, slice_index_or};
ghost use Rattle.manchester_line.specs.declared.Sym.TheVariants.{Idle};
ghost use Rattle.mac_parameters.specs.Parameters.{half_bits_an_octet, preamble_length};
ghost use Rattle.manchester_line.specs.Line.{preamble, preamble_at, jam_at, octet_halves, line};

use crate::{Sym, half_of};
use mac_parameters::{HALF_BITS_A_BIT, HALF_BITS_AN_OCTET, PREAMBLE};

/// The half bits of the preamble and the start frame delimiter.
const PREAMBLE_HALVES: usize = PREAMBLE as usize;

/// The half bits of an octet.
const OCTET_HALVES: usize = HALF_BITS_AN_OCTET as usize;

/// The first bit, from 0, of the two adjacent 1 bits that end the start frame delimiter (3.2.2).
const DELIMITER_END: u32 = PREAMBLE / HALF_BITS_A_BIT - 2;

/// Half bit `i`, from 0, of the jam, which has period 4 (profile).
pub fn jam_sym(i: u32) -> Sym
    ensures { result ≡ jam_at i }
{
    match i % 4 {
        0 | 3 => Sym::Lo,
        _ => Sym::Hi,
    }
}

/// Half bit `i`, from 0, of the preamble with its start frame delimiter: 62 alternating bits that begin with 1, and
/// then 1, 1 (3.2.1, 3.2.2).
pub fn header_sym(i: u32) -> Sym
    requires { i < preamble_length }
    ensures { result ≡ preamble_at i }
{
    let bit = i / 2;
    half_of(bit % 2 == 0 || bit >= DELIMITER_END, i % 2 == 1)
}

/// Writes the preamble with its start frame delimiter.
#[tactic(auto, unfolding(crate::specs::Line::preamble))]
fn put_preamble(out: &mut [Sym])
    requires { length out.old ≡ preamble_length }
    ensures { out.new ≡ preamble }
{
    for i in 0..PREAMBLE_HALVES {
        out[i] = header_sym(i as u32);
    }
}

/// Writes the half bits of an octet, the least bit first (3.3).
#[tactic(auto, unfolding(crate::specs::Line::octet_halves))]
fn put_octet(out: &mut [Sym], octet: u8)
    requires { length out.old ≡ half_bits_an_octet }
    ensures len { length out.new ≡ half_bits_an_octet }
    ensures halves { out.new ≡ octet_halves octet }
{
    let mut rest = octet;
    for j in 0..8 {
        let bit = rest % 2 == 1;
        out[2 * j] = half_of(bit, false);
        out[2 * j + 1] = half_of(bit, true);
        rest /= 2;
    }
}

/// Writes the line text of at most 1,600 octets at the front of `out`, leaves the rest, and answers
/// its length in half bits.
pub fn encode_into(octets: &[u8], out: &mut [Sym]) -> usize
    requires few { length octets.now ≤ 1600 }
    requires room { preamble_length + half_bits_an_octet * length octets.now ≤ length out.old }
    ensures len { result ≡ preamble_length + half_bits_an_octet * length octets.now }
    ensures text { take result out.new ≡ line octets.now }
    ensures rest { drop result out.new ≡ drop result out.old }
{
    put_preamble(&mut out[..PREAMBLE_HALVES]);
    let mut at = PREAMBLE_HALVES;
    for octet in octets {
        put_octet(&mut out[at..at + OCTET_HALVES], *octet);
        at += OCTET_HALVES;
    }
    at
}

/// Half bit `i`, from 0, of the line text of at most 1,600 octets, and Idle past its end.
pub fn line_sym(octets: &[u8], i: u32) -> Sym
    requires { length octets.now ≤ 1600 }
    ensures { result ≡ slice_index_or (line octets.now) i Idle }
{
    let i = i as usize;
    if i < PREAMBLE_HALVES {
        return header_sym(i as u32);
    }
    let at = i - PREAMBLE_HALVES;
    let place = at / OCTET_HALVES;
    if place < octets.len() {
        let bit = (octets[place] >> (at % OCTET_HALVES / 2)) % 2 == 1;
        half_of(bit, at % 2 == 1)
    } else {
        Sym::Idle
    }
}
