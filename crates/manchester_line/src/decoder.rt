ghost use Rattle.std.specs.Prelude.{◌≡◌, ◌≢◌, ◌+◌, ◌-◌, ◌*◌, ◌%◌, ◌<◌, ◌≤◌, ℕ, Bool, false, List, Some, None, [], ◌∷◌, ◌++◌, length, take, drop};
ghost use Rattle.std.specs.List.{All};
ghost use Rattle.std.specs.Option.{is_none, is_some, option_map};
ghost use Rattle.mac_parameters.specs.Parameters.{half_bits_an_octet, preamble_length};
ghost use Rattle.manchester_line.specs.Decoding.{Decodes, all_pushed, all_put, all_shifted, new_decoding, octet_kept, put_bit, pushed, shifted, take_bit};
ghost use Rattle.manchester_line.specs.Line.{line};
ghost use Rattle.manchester_line.specs.Reading.{bit_of_pair, bits_of, octets_of_bits, reading, spare_of_bits};
ghost use Rattle.manchester_line.specs.declared.Sym.TheVariants.{Idle};
ghost use Rattle.manchester_line.specs.declared.Sym.{Sym};

use crate::Sym;
use mac_parameters::{GREATEST_FRAME, HALF_BITS_AN_OCTET};
use std::marker::Model;

/// The octets that a decoder keeps: those of the greatest frame with its check sequence (4.4.2), and one more.
pub const KEPT_OCTETS: usize = GREATEST_FRAME as usize + 1;

/// The half bits of an octet.
const OCTET_HALVES: usize = HALF_BITS_AN_OCTET as usize;

/// What the greatest bit of an octet weighs.
const TOP_BIT: u8 = 128;

/// What a decoder has heard.
#[derive(Clone, Copy, Debug, PartialEq, Eq)]
pub struct Heard {
    /// The whole octets after the delimiter.
    pub octets: u32,
    /// The bits after the last whole octet.
    pub spare: u32,
    /// Whether a pair of half bits was no bit, or the last bit lacks its second half.
    pub spoiled: bool,
    /// All half bits.
    pub halves: u32,
}

/// Reads a reception half bit by half bit.
#[derive(Drop)]
pub struct Decoder {
    halves: u32,
    half: Option<Sym>,
    spoiled: bool,
    found: bool,
    last: bool,
    count: u32,
    spare: u32,
    rest: u8,
    buffer: [u8; KEPT_OCTETS],
}

impl Model for Decoder {
    ghost use Rattle.std.specs.Prelude.{◌≤◌, take};
    ghost use Rattle.mac_parameters.specs.Parameters.{half_bits_an_octet, preamble_length};
    ghost use Rattle.manchester_line.specs.Decoding.{Decoding};

    ghost Value = { Decoding };

    ghost view = { λ s. record {
      halves = s.halves;
      half = s.half;
      spoiled = s.spoiled;
      found = s.found;
      last = s.last;
      count = s.count;
      octets = take s.count s.buffer;
      spare = s.spare;
      rest = s.rest;
    } };

    ghost invariant = { λ s. (s.count ≤ s.halves) × (s.spare ≤ 7) };
}

/// Whether a pair of half bits is a bit, with no branch: Hi counts 1 and Lo 2 (clause 7).
fn is_bit(first: Sym, second: Sym) -> bool
    ensures { result ≡ is_some (bit_of_pair first second) }
{
    first as u8 * second as u8 == 2
}

/// The bit of a pair with this second half, if the pair is one (clause 7).
fn bit_by(second: Sym) -> bool
    ensures { (first : Sym) (bit : Bool) → bit_of_pair first second ≡ Some bit → result ≡ bit }
{
    second as u8 % 2 == 1
}

/// The bit of a pair of half bits, if it is one (clause 7).
fn bit_of(first: Sym, second: Sym) -> Option<bool>
    ensures { result ≡ bit_of_pair first second }
{
    if is_bit(first, second) {
        Some(bit_by(second))
    } else {
        None
    }
}

/// One more bit at the top of an octet.
fn shift(rest: u8, bit: bool) -> u8
    ensures { result ≡ shifted rest bit }
{
    if bit { rest / 2 + TOP_BIT } else { rest / 2 }
}

/// The octet whose bits these half bits are, the first one the least; none where a pair is no bit (3.3, clause 7). All
/// pairs are looked at, so that no branch goes by what is heard.
fn octet_of(halves: &[Sym]) -> Option<u8>
    requires { length halves.now ≡ half_bits_an_octet }
    ensures { result ≡ option_map (all_shifted 0) (bits_of halves.now) }
{
    let mut octet = 0;
    let mut whole = true;
    for j in 0..8 {
        let second = halves[2 * j + 1];
        whole = whole & is_bit(halves[2 * j], second);
        octet = shift(octet, bit_by(second));
    }
    if whole { Some(octet) } else { None }
}

/// What is at the top of an octet once the first of eight bits have come there, where `spare` bits were there before.
fn filled(rest: u8, spare: u32, octet: u8) -> u8
    requires { spare ≤ 7 }
    ensures { (bits : List Bool) → length bits ≡ 8 → octet ≡ all_shifted 0 bits →
        result ≡ all_shifted rest (take (8 - spare) bits) }
{
    let all = u32::from(octet) * 256 + u32::from(rest);
    ((all >> (8 - spare)) % 256) as u8
}

/// The last `spare` ones of eight bits, at the top of an octet.
fn left_over(octet: u8, spare: u32) -> u8
    requires { spare ≤ 7 }
    ensures { (bits : List Bool) → length bits ≡ 8 → octet ≡ all_shifted 0 bits →
        result ≡ all_shifted 0 (drop (8 - spare) bits) }
{
    let places = 8 - spare;
    ((u32::from(octet) >> places) << places) as u8
}

/// Keeps octet number `count`, from 0, where there is room.
fn keep(buffer: &mut [u8], count: u32, octet: u8)
    requires { length buffer.old ≡ KEPT_OCTETS }
    ensures { take (count + 1) buffer.new ≡ take KEPT_OCTETS (take count buffer.old ++ octet ∷ []) }
{
    if (count as usize) < KEPT_OCTETS {
        buffer[count as usize] = octet;
    }
}

impl Decoder {
    ghost use Rattle.mac_parameters.specs.Parameters.{most_half_bits};
    /// A decoder that was given nothing yet.
    pub fn new() -> Decoder
        ensures cleared { result ≡ new_decoding }
        ensures decodes { Decodes [] result }
    {
        Decoder {
            halves: 0,
            half: None,
            spoiled: false,
            found: false,
            last: false,
            count: 0,
            spare: 0,
            rest: 0,
            buffer: [0; KEPT_OCTETS],
        }
    }

    /// What was heard since the decoder was new or cleared. Where the reception is spoiled, nothing is
    /// said of octets and spare bits.
    pub fn heard(&self) -> Heard
        ensures halves { (halves : List Sym) → Decodes halves self.now →
            result.halves ≡ length halves }
        ensures spoiled { (halves : List Sym) → Decodes halves self.now →
            result.spoiled ≡ is_none (reading halves) }
        ensures octets { (halves : List Sym) (bits : List Bool) →
            Decodes halves self.now → reading halves ≡ Some bits →
            result.octets ≡ length (octets_of_bits bits) }
        ensures spare { (halves : List Sym) (bits : List Bool) →
            Decodes halves self.now → reading halves ≡ Some bits →
            result.spare ≡ spare_of_bits bits }
        ensures few { result.spare < 8 }
        // A line text is read back.
        ensures line { (octets : List ℕ) →
            All (λ x. x < 256) octets → Decodes (line octets) self.now →
            result ≡ record {
              octets = length octets;
              spare = 0;
              spoiled = false;
              halves = preamble_length + half_bits_an_octet * length octets;
            } }
    {
        Heard {
            octets: self.count,
            spare: self.spare,
            spoiled: self.spoiled || self.half.is_some(),
            halves: self.halves,
        }
    }

    /// The whole octets after the delimiter, the first KEPT_OCTETS at most. Nothing is said of them where the
    /// reception is spoiled.
    pub fn octets(&self) -> &[u8]
        ensures kept { result.now ≡ self.now.octets }
        ensures first { (halves : List Sym) (bits : List Bool) →
            Decodes halves self.now → reading halves ≡ Some bits →
            result.now ≡ take KEPT_OCTETS (octets_of_bits bits) }
        // A line text is read back.
        ensures line { (octets : List ℕ) →
            All (λ x. x < 256) octets → length octets ≤ KEPT_OCTETS → Decodes (line octets) self.now →
            result.now ≡ octets }
    {
        if (self.count as usize) < KEPT_OCTETS {
            &self.buffer[..self.count as usize]
        } else {
            &self.buffer
        }
    }

    /// Forgets what was heard.
    pub fn clear(&mut self)
        ensures cleared { self.new ≡ new_decoding }
        ensures decodes { Decodes [] self.new }
    {
        self.halves = 0;
        self.half = None;
        self.spoiled = false;
        self.found = false;
        self.last = false;
        self.count = 0;
        self.spare = 0;
        self.rest = 0;
    }

    /// One more whole octet of the frame, with no bits after it.
    fn keep_octet(&mut self, octet: u8)
        requires { self.old.count < self.old.halves }
        ensures { self.new ≡ octet_kept self.old octet }
    {
        keep(&mut self.buffer, self.count, octet);
        self.count += 1;
        self.spare = 0;
        self.rest = 0;
    }

    /// One more bit of the frame.
    fn put_bit(&mut self, bit: bool)
        requires { self.old.count < self.old.halves }
        ensures { self.new ≡ put_bit self.old bit }
    {
        let octet = shift(self.rest, bit);
        if self.spare == 7 {
            self.keep_octet(octet);
        } else {
            self.spare += 1;
            self.rest = octet;
        }
    }

    /// One more bit of the reception.
    fn take_bit(&mut self, bit: Option<bool>)
        requires { self.old.count < self.old.halves }
        ensures { self.new ≡ take_bit self.old bit }
    {
        match bit {
            None => self.spoiled = true,
            Some(b) => {
                if self.found {
                    self.put_bit(b);
                } else {
                    self.found = self.last && b;
                    self.last = b;
                }
            }
        }
    }

    /// Eight more bits of the frame.
    fn put_octet(&mut self, octet: u8)
        requires { self.old.count < self.old.halves }
        ensures { (bits : List Bool) → length bits ≡ 8 → octet ≡ all_shifted 0 bits →
            self.new ≡ all_put self.old bits }
    {
        let whole = filled(self.rest, self.spare, octet);
        keep(&mut self.buffer, self.count, whole);
        self.count += 1;
        self.rest = left_over(octet, self.spare);
    }

    /// Takes one more half bit, whatever it is.
    fn push_half(&mut self, s: Sym)
        requires { self.old.halves < most_half_bits }
        ensures { self.new ≡ pushed self.old s }
    {
        self.halves += 1;
        match self.half {
            None => self.half = Some(s),
            Some(first) => {
                self.half = None;
                self.take_bit(bit_of(first, s));
            }
        }
    }

    /// Takes pairs of half bits, where no first half is left over.
    fn push_pairs(&mut self, halves: &[Sym])
        requires half { self.old.half ≡ None }
        requires even { length halves.now % 2 ≡ 0 }
        requires count { self.old.halves + length halves.now ≤ most_half_bits }
        ensures { self.new ≡ all_pushed self.old halves.now }
    {
        for j in 0..halves.len() / 2 {
            self.halves += 2;
            self.take_bit(bit_of(halves[2 * j], halves[2 * j + 1]));
        }
    }

    /// Takes the half bits of eight bits, at once where they are bits of the frame.
    fn push_octet(&mut self, halves: &[Sym])
        requires half { self.old.half ≡ None }
        requires eight { length halves.now ≡ half_bits_an_octet }
        requires count { self.old.halves + length halves.now ≤ most_half_bits }
        ensures { self.new ≡ all_pushed self.old halves.now }
    {
        if self.found {
            if let Some(octet) = octet_of(halves) {
                self.halves += HALF_BITS_AN_OCTET;
                self.put_octet(octet);
                return;
            }
        }
        self.push_pairs(halves);
    }

    /// Takes half bits, where no first half is left over: eight bits at a time, then the pairs that are left, and then
    /// a last half.
    fn push_whole(&mut self, halves: &[Sym])
        requires half { self.old.half ≡ None }
        requires count { self.old.halves + length halves.now ≤ most_half_bits }
        ensures { self.new ≡ all_pushed self.old halves.now }
    {
        let mut at = 0;
        while OCTET_HALVES <= halves.len() - at {
            self.push_octet(&halves[at..at + OCTET_HALVES]);
            at += OCTET_HALVES;
        }
        let end = halves.len() - halves.len() % 2;
        self.push_pairs(&halves[at..end]);
        if end < halves.len() {
            self.push_half(halves[end]);
        }
    }

    /// Takes one more half bit of the reception.
    #[tactic(auto, using(crate::proofs::PushedMore::decodes_next))]
    pub fn push(&mut self, s: Sym)
        requires signal { s ≢ Idle }
        requires count { self.old.halves < most_half_bits }
        ensures moved { self.new ≡ pushed self.old s }
        ensures decodes { (halves : List Sym) → Decodes halves self.old →
            Decodes (halves ++ s ∷ []) self.new }
    {
        self.push_half(s);
    }

    /// Takes more half bits of the reception, in this order, each as `push` does. Once the delimiter is found, eight
    /// bits are taken at once.
    pub fn push_all(&mut self, piece: &[Sym])
        requires signal { All (λ s. s ≢ Idle) piece.now }
        requires count { self.old.halves + length piece.now ≤ most_half_bits }
        ensures moved { self.new ≡ all_pushed self.old piece.now }
        ensures halves { self.new.halves ≡ self.old.halves + length piece.now }
        ensures decodes { (halves : List Sym) → Decodes halves self.old →
            Decodes (halves ++ piece.now) self.new }
    {
        if self.half.is_none() {
            self.push_whole(piece);
        } else if let [second, rest @ ..] = piece {
            self.push_half(*second);
            self.push_whole(rest);
        }
    }
}
