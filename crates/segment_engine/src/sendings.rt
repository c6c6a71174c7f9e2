//! The symbols of a sending, written many at once.
ghost use Rattle.std.specs.Prelude.{◌≡◌, ◌≤◌, ◌<◌, ◌+◌, ◌-◌, ◌*◌, ◌%◌, ◌^◌, ℕ, true, false, length, take, min, None};
ghost use Rattle.mac_parameters.specs.Parameters.{half_bits_an_octet, preamble_length};
ghost use Rattle.manchester_line.specs.Line.{is_signal as is_signal_of, octet_halves, preamble_at};
ghost use Rattle.mac_transmit.specs.Sender.{line_at, line_length, symbol_of};
ghost use Rattle.net_parts.specs.Machines.{span};

use mac_parameters::{HALF_BITS_AN_OCTET, PREAMBLE};
use mac_transmit::symbol_at;
use manchester_line::{Sym, half_of, header_sym, is_signal, line_sym};

/// The half bits of an octet.
const OCTET_HALVES: usize = HALF_BITS_AN_OCTET as usize;

/// The half bits of the preamble and the start frame delimiter.
const HEADER_HALVES: usize = PREAMBLE as usize;

/// Writes the half bits of an octet, the least bit first (3.3).
fn write_octet(octet: u8, piece: &mut [Sym])
    requires { length piece.old ≡ half_bits_an_octet }
    ensures { piece.new ≡ octet_halves octet }
{
    let mut rest = octet;
    for j in 0..8 {
        let bit = rest % 2 == 1;
        piece[2 * j] = half_of(bit, false);
        piece[2 * j + 1] = half_of(bit, true);
        rest /= 2;
    }
}

/// Writes the preamble with its start frame delimiter from position `p` on into a piece, which doesn't reach beyond
/// them.
fn write_header(p: usize, piece: &mut [Sym])
    requires { length piece.old ≤ preamble_length - p }
    ensures { piece.new ≡ span preamble_at p (length piece.old) }
{
    for j in 0..piece.len() {
        piece[j] = header_sym((p + j) as u32);
    }
}

/// Writes the line text of a frame from position `p` on into a piece, symbol by symbol.
fn write_symbols(octets: &[u8], p: usize, piece: &mut [Sym])
    requires few { length octets.now ≤ 1600 }
    requires place { p + length piece.old < 2 ^ 32 }
    ensures { piece.new ≡ span (line_at octets.now) p (length piece.old) }
{
    for j in 0..piece.len() {
        piece[j] = line_sym(octets, (p + j) as u32);
    }
}

/// Writes the line text of a frame from position `p` on into a piece, octet by octet: there it is that of whole octets.
fn write_octets(octets: &[u8], p: usize, piece: &mut [Sym])
    requires few { length octets.now ≤ 1600 }
    requires begins { preamble_length ≤ p }
    requires whole { 0 < length piece.old → p % half_bits_an_octet ≡ 0 }
    requires octets { length piece.old % half_bits_an_octet ≡ 0 }
    requires within { p + length piece.old ≤ preamble_length + half_bits_an_octet * length octets.now }
    ensures { piece.new ≡ span (line_at octets.now) p (length piece.old) }
{
    let mut at = 0;
    while at < piece.len() {
        let octet = octets[(p + at - HEADER_HALVES) / OCTET_HALVES];
        write_octet(octet, &mut piece[at..at + OCTET_HALVES]);
        at += OCTET_HALVES;
    }
}

/// Writes the line text of a frame from position `p` on, behind the preamble, into a piece, which doesn't reach beyond
/// the text.
fn write_body(octets: &[u8], p: usize, piece: &mut [Sym])
    requires few { length octets.now ≤ 1600 }
    requires begins { preamble_length ≤ p }
    requires within { p + length piece.old ≤ preamble_length + half_bits_an_octet * length octets.now }
    ensures { piece.new ≡ span (line_at octets.now) p (length piece.old) }
{
    let first = ((OCTET_HALVES - p % OCTET_HALVES) % OCTET_HALVES).min(piece.len());
    let last = piece.len() - (piece.len() - first) % OCTET_HALVES;
    write_symbols(octets, p, &mut piece[..first]);
    write_octets(octets, p + first, &mut piece[first..last]);
    write_symbols(octets, p + last, &mut piece[last..]);
}

/// Writes the line text of a frame from position `p` on into a piece, which doesn't reach beyond the text.
fn write_text(octets: &[u8], p: usize, piece: &mut [Sym])
    requires few { length octets.now ≤ 1600 }
    requires within { length piece.old ≤ preamble_length + half_bits_an_octet * length octets.now - p }
    ensures { piece.new ≡ span (line_at octets.now) p (length piece.old) }
{
    let header = HEADER_HALVES.saturating_sub(p).min(piece.len());
    write_header(p, &mut piece[..header]);
    if header < piece.len() {
        write_body(octets, p + header, &mut piece[header..]);
    }
}

/// Writes the symbols of a sending without a hit from position `p` on into a piece, as far as it goes. It answers how
/// many.
fn write_whole(octets: &[u8], p: u64, piece: &mut [Sym]) -> usize
    requires length { length octets.now ≤ 1600 }
    requires place { p + length piece.old < 2 ^ 32 }
    ensures count { result ≡ min (line_length octets.now - p) (length piece.old) }
    ensures text { take result piece.new ≡ span (λ j. symbol_of octets.now None (p + j)) 0 result }
    ensures signal { (j : ℕ) → j < result → is_signal_of (symbol_of octets.now None (p + j)) ≡ true }
{
    let whole = (HEADER_HALVES + OCTET_HALVES * octets.len()) as u64;
    let told = whole.saturating_sub(p).min(piece.len() as u64) as usize;
    write_text(octets, p as usize, &mut piece[..told]);
    told
}

/// Writes the symbols of a sending from position `p` on into a piece, one by one, as long as they are a signal. It
/// answers how many.
fn write_sending(octets: &[u8], hit: Option<u32>, p: u64, piece: &mut [Sym]) -> usize
    requires length { length octets.now ≤ 1600 }
    requires place { p + length piece.old < 2 ^ 32 }
    ensures within { result ≤ length piece.old }
    ensures text { take result piece.new ≡ span (λ j. symbol_of octets.now hit (p + j)) 0 result }
    ensures signal { (j : ℕ) → j < result → is_signal_of (symbol_of octets.now hit (p + j)) ≡ true }
    ensures longest { result < length piece.old → is_signal_of (symbol_of octets.now hit (p + result)) ≡ false }
{
    for j in 0..piece.len() {
        let s = symbol_at(octets, hit, p + j as u64);
        if !is_signal(s) {
            return j;
        }
        piece[j] = s;
    }
    piece.len()
}

/// Writes the symbols of a sending from position `p` on into a piece, as long as they are a signal. It answers how
/// many.
pub fn write_ahead(octets: &[u8], hit: Option<u32>, p: u64, piece: &mut [Sym]) -> usize
    requires length { length octets.now ≤ 1600 }
    requires place { p + length piece.old < 2 ^ 32 }
    ensures within { result ≤ length piece.old }
    ensures text { take result piece.new ≡ span (λ j. symbol_of octets.now hit (p + j)) 0 result }
    ensures signal { (j : ℕ) → j < result → is_signal_of (symbol_of octets.now hit (p + j)) ≡ true }
    ensures longest { result < length piece.old → is_signal_of (symbol_of octets.now hit (p + result)) ≡ false }
{
    if hit.is_none() {
        write_whole(octets, p, piece)
    } else {
        write_sending(octets, hit, p, piece)
    }
}
