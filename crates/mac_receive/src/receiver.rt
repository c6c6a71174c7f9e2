ghost use Rattle.std.specs.Prelude.{◌≡◌, ◌≢◌, ◌+◌, ◌*◌, ◌<◌, ◌≤◌, ◌↔◌, ℕ, false, true, IsTrue, List, Some, [], length, replicate};
ghost use Rattle.std.specs.List.{All};
ghost use Rattle.manchester_line.specs.declared.Sym.{Sym};
ghost use Rattle.manchester_line.specs.declared.Sym.TheVariants.{Idle};
ghost use Rattle.manchester_line.specs.Decoding.{Decodes};
ghost use Rattle.manchester_line.specs.Reading.{reading};
ghost use Rattle.mac_parameters.specs.Parameters.{IsMost, most_octets_tagged, most_octets_untagged, most_half_bits};
ghost use Rattle.collision_log.specs.declared.row.Body.TheVariants.{Received};
ghost use Rattle.mac_receive.specs.KeptReceiver.{Hears, fresh, decoder_fed_all, decoder_fed, kept_octets, stepped, still};
ghost use Rattle.mac_receive.specs.Receiver.{Receiving, receiver_bodies, judged_row, new_receiving, reading_row, receiver_step, receiver_after};

use collision_log::{Body, Why};
use frame_layout::{Verdict, judge_up_to};
use mac_parameters::{HALF_BITS_A_BIT, MOST_OCTETS_UNTAGGED, SHORTEST_LINE_TEXT};
use manchester_line::{Decoder, Sym};
use std::marker::Model;

/// The receiver of a station.
#[derive(Drop)]
pub struct Receiver {
    lose: u32,
    most: u32,
    deaf: bool,
    halves: u32,
    decoder: Decoder,
    steps: u32,
}

impl Model for Receiver {
    ghost use Rattle.std.specs.Prelude.{◌≤◌};
    ghost use Rattle.mac_parameters.specs.Parameters.{IsMost, most_half_bits};
    ghost use Rattle.mac_receive.specs.KeptReceiver.{KeptReception, IsReceiver};

    ghost Value = { KeptReception };

    ghost view = { λ s. record {
      lose = s.lose;
      most = s.most;
      deaf = s.deaf;
      halves = s.halves;
      decoder = s.decoder;
      steps = s.steps;
    } };

    ghost invariant = { λ s.
        IsMost s.most × (s.lose ≤ 48) × (s.halves ≤ s.steps) × (s.decoder.halves ≤ s.steps)
        × (s.steps ≤ most_half_bits)
        × IsReceiver (record {
          lose = s.lose;
          most = s.most;
          deaf = s.deaf;
          halves = s.halves;
          decoder = s.decoder;
          steps = s.steps;
        }) };
}

/// The row of a frame that was judged, by its octets with the check sequence and the half bits of the whole reception
/// (4.2.4).
fn row_of(verdict: Verdict, octets: u32, halves: u32) -> Body
    ensures { result ≡ judged_row verdict octets halves }
{
    let why = match verdict {
        Verdict::Good => return Body::Received { octets },
        Verdict::Fragment => Why::Fragment,
        Verdict::TooLong => Why::TooLong,
        Verdict::FcsError => Why::FcsError,
        Verdict::AlignError => Why::AlignError,
    };
    Body::Dropped { why, halves }
}

/// The row of a reception of so many half bits, of which the decoder was given all but the lost
/// ones.
#[tactic(auto, using(crate::proofs::RowsOfReceptions::spoiled_row))]
fn judged(decoder: &Decoder, most: u32, halves: u32) -> Body
    requires { IsMost most }
    ensures { (given : List Sym) → Decodes given decoder.now →
        result ≡ reading_row (reading given) most halves }
{
    let heard = decoder.heard();
    if heard.spoiled {
        let why = if halves < SHORTEST_LINE_TEXT {
            Why::Fragment
        } else {
            Why::Damaged
        };
        return Body::Dropped { why, halves };
    }
    let verdict = judge_up_to(decoder.octets(), heard.spare, most);
    row_of(verdict, heard.octets, halves)
}

/// Clears the decoder where the reception that it goes on with has had no half bit so far.
fn begin(decoder: &mut Decoder, halves: u32)
    ensures begun { decoder.new ≡ fresh halves decoder.old }
    ensures few { decoder.new.halves ≤ decoder.old.halves }
{
    if halves == 0 {
        decoder.clear();
    }
}

/// Gives the decoder one more half bit of a reception that has had `halves` so far, unless it is
/// lost.
fn hear(decoder: &mut Decoder, lose: u32, halves: u32, s: Sym)
    requires lose { lose ≤ 48 }
    requires signal { s ≢ Idle }
    requires count { decoder.old.halves < most_half_bits }
    ensures heard { decoder.new ≡ decoder_fed lose halves decoder.old s }
    ensures few { decoder.new.halves ≤ decoder.old.halves + 1 }
{
    begin(decoder, halves);
    if halves >= HALF_BITS_A_BIT * lose {
        decoder.push(s);
    }
}

/// Gives the decoder more half bits of a reception that has had `halves` so far, but for the lost
/// ones.
fn hear_all(decoder: &mut Decoder, lose: u32, halves: u32, piece: &[Sym])
    requires lose { lose ≤ 48 }
    requires signal { All (λ s. s ≢ Idle) piece.now }
    requires count { decoder.old.halves + length piece.now ≤ most_half_bits }
    requires halves { halves + length piece.now ≤ most_half_bits }
    ensures heard { decoder.new ≡ decoder_fed_all lose halves decoder.old piece.now }
    ensures few { decoder.new.halves ≤ decoder.old.halves + length piece.now }
{
    if piece.is_empty() {
        return;
    }
    begin(decoder, halves);
    let lost = (HALF_BITS_A_BIT * lose).saturating_sub(halves) as usize;
    if lost < piece.len() {
        decoder.push_all(&piece[lost..]);
    }
}

impl Receiver {
    ghost use Rattle.mac_parameters.specs.Parameters.{most_half_bits};
    /// A receiver that loses no bits, for untagged frames alone (3.2.7).
    pub fn new() -> Receiver
        ensures hears { Hears (new_receiving 0 most_octets_untagged) result }
        ensures steps { result.steps ≡ 0 }
    {
        Receiver::new_for(0, MOST_OCTETS_UNTAGGED)
    }

    /// A receiver that loses the first `lose` bits of each reception (profile), for frames of at most
    /// `most` octets before the check sequence.
    pub fn new_for(lose: u32, most: u32) -> Receiver
        requires lose { lose ≤ 48 }
        requires most { IsMost most }
        ensures hears { Hears (new_receiving lose most) result }
        ensures steps { result.steps ≡ 0 }
    {
        Receiver {
            lose,
            most,
            deaf: false,
            halves: 0,
            decoder: Decoder::new(),
            steps: 0,
        }
    }

    /// The row of a half bit, if there is one.
    fn event(&self, heard: Sym, sending: bool) -> Option<Body>
        ensures row { (r : Receiving) → Hears r self.now →
            result ≡ (receiver_step r heard sending).event }
        ensures most { self.now.most ≤ most_octets_tagged }
    {
        match (heard, sending) {
            (Sym::Idle, false) => {
                if self.deaf || self.halves == 0 {
                    None
                } else {
                    Some(judged(&self.decoder, self.most, self.halves))
                }
            }
            _ => None,
        }
    }

    /// Has no reception under way after `n` more half bits.
    fn fall_still(&mut self, deaf: bool, n: u32)
        requires { self.old.steps + n ≤ most_half_bits }
        ensures { self.new ≡ still self.old deaf n }
    {
        self.deaf = deaf;
        self.halves = 0;
        self.steps += n;
    }

    /// Moves on by one half bit.
    fn move_on(&mut self, heard: Sym, sending: bool)
        requires { self.old.steps < most_half_bits }
        ensures { self.new ≡ stepped self.old heard sending }
    {
        match (heard, sending) {
            (_, true) => self.fall_still(true, 1),
            (Sym::Idle, false) => self.fall_still(false, 1),
            (_, false) => {
                self.steps += 1;
                if !self.deaf {
                    hear(&mut self.decoder, self.lose, self.halves, heard);
                    self.halves += 1;
                }
            }
        }
    }

    /// One half bit: the symbol that is heard, and whether the own station is sending. Received or
    /// Dropped comes exactly at the end of a reception (4.2.4).
    pub fn step(&mut self, heard: Sym, sending: bool) -> Option<Body>
        requires { self.old.steps < most_half_bits }
        ensures state { (r : Receiving) → Hears r self.old →
            Hears (receiver_step r heard sending).state self.new }
        ensures event { (r : Receiving) → Hears r self.old →
            result ≡ (receiver_step r heard sending).event }
        ensures octets { (r : Receiving) (n : ℕ) →
            Hears r self.old → result ≡ Some (Received n) →
            kept_octets self.new ≡ (receiver_step r heard sending).octets }
        ensures steps { self.new.steps ≡ self.old.steps + 1 }
    {
        let event = self.event(heard, sending);
        self.move_on(heard, sending);
        event
    }

    /// After a Received and until the next step, the octets of the frame with its check sequence.
    pub fn octets(&self) -> &[u8]
        ensures { result.now ≡ kept_octets self.now }
    {
        self.decoder.octets()
    }

    /// Whether the receiver is deaf: its own station has sent, and it has heard carrier ever since (profile).
    pub fn is_deaf(&self) -> bool
        ensures { result ≡ self.now.deaf }
    {
        self.deaf
    }

    /// Whether a reception is under way.
    pub fn is_receiving(&self) -> bool
        ensures { IsTrue result ↔ (0 < self.now.halves) }
    {
        self.halves > 0
    }

    /// The receiver after `n` steps that hear Idle without sending.
    pub fn leap_quiet(&mut self, n: u64)
        requires none { self.old.halves ≡ 0 }
        requires steps { self.old.steps + n ≤ most_half_bits }
        ensures state { (r : Receiving) → Hears r self.old →
            Hears (receiver_after r (replicate n Idle) false) self.new }
        ensures bodies { (r : Receiving) → Hears r self.old →
            receiver_bodies r (replicate n Idle) false ≡ [] }
        ensures steps { self.new.steps ≡ self.old.steps + n }
    {
        if n > 0 {
            self.fall_still(false, n as u32);
        }
    }

    /// The receiver after `n` steps with sending, whatever is heard in them.
    pub fn leap_sending(&mut self, n: u64)
        requires { self.old.steps + n ≤ most_half_bits }
        ensures state { (r : Receiving) (heard : List Sym) → length heard ≡ n → Hears r self.old →
            Hears (receiver_after r heard true) self.new }
        ensures bodies { (r : Receiving) (heard : List Sym) → receiver_bodies r heard true ≡ [] }
        ensures steps { self.new.steps ≡ self.old.steps + n }
    {
        if n > 0 {
            self.fall_still(true, n as u32);
        }
    }

    /// The deaf receiver after `n` steps that hear carrier without sending, whatever symbols they hear.
    pub fn leap_deaf(&mut self, n: u64)
        requires deaf { self.old.deaf ≡ true }
        requires steps { self.old.steps + n ≤ most_half_bits }
        ensures state { (r : Receiving) (hs : List Sym) →
            All (λ s. s ≢ Idle) hs → length hs ≡ n → Hears r self.old →
            Hears (receiver_after r hs false) self.new }
        ensures bodies { (r : Receiving) (hs : List Sym) →
            All (λ s. s ≢ Idle) hs → receiver_bodies r hs false ≡ [] }
        ensures steps { self.new.steps ≡ self.old.steps + n }
    {
        self.steps += n as u32;
    }

    /// The receiver after a step without sending for each symbol of the piece.
    pub fn take(&mut self, piece: &[Sym])
        requires awake { self.old.deaf ≡ false }
        requires signal { All (λ s. s ≢ Idle) piece.now }
        requires steps { self.old.steps + length piece.now ≤ most_half_bits }
        ensures state { (r : Receiving) → Hears r self.old →
            Hears (receiver_after r piece.now false) self.new }
        ensures bodies { (r : Receiving) → Hears r self.old → receiver_bodies r piece.now false ≡ [] }
        ensures steps { self.new.steps ≡ self.old.steps + length piece.now }
    {
        hear_all(&mut self.decoder, self.lose, self.halves, piece);
        self.halves += piece.len() as u32;
        self.steps += piece.len() as u32;
    }
}
