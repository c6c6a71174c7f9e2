//! The text that was told last, for all who hear the same one.
ghost use Rattle.std.specs.Prelude.{◌≡◌, ◌≢◌, ◌+◌, ◌<◌, ◌≤◌, ◌++◌, ℕ, suc, true, false, length, take, Contains, IfOk};
ghost use Rattle.manchester_line.specs.declared.Sym.TheVariants.{Clash, Idle};
ghost use Rattle.mac_parameters.specs.Parameters.{IsMost};
ghost use Rattle.mac_receive.specs.KeptReceiver.{Hears};
ghost use Rattle.mac_receive.specs.Receiver.{Receiving, receiver_step};
ghost use Rattle.network.specs.Captures.{taken_by};
ghost use Rattle.network.specs.Rows.{row_of};
ghost use Rattle.reception_laws.specs.declared.teller.TheConstants.{LONGEST_TEXT};
ghost use Rattle.reception_laws.specs.LateReceptions.{IsVerdictFor, text_kept};
ghost use Rattle.reception_laws.specs.WholeReceptions.{IsAllSignal};
ghost use Rattle.window_room.specs.NeededRoom.{Covers, Demand, both_demands, reception_demand};
ghost use Rattle.window_room.specs.Rooms.{captures_with};

use crate::verdict::{ReceptionVerdict, tell, tell_spoiled};
use collision_log::{Body, Why};
use lists::OutOfMemory;
use mac_parameters::{
    GREATEST_FRAME, HALF_BITS_A_BIT, HALF_BITS_AN_OCTET, LEAST_FRAME, MOST_OCTETS_UNTAGGED,
    PREAMBLE,
};
use manchester_line::Sym;
use std::alloc::Global;
use window_room::{RowRoom, keep_reception};

/// The half bits of the line text of the greatest frame (3.1.1).
pub const LONGEST_TEXT: usize = (PREAMBLE + HALF_BITS_AN_OCTET * GREATEST_FRAME) as usize;

/// The half bits of the shortest reception of a frame: the end of the start frame delimiter and the least frame (3.2.2,
/// 4.4.2).
const LEAST_RECEPTION: usize = (HALF_BITS_AN_OCTET * LEAST_FRAME + 2 * HALF_BITS_A_BIT) as usize;

/// What was told last: the verdict of the first `count` symbols of the text, for receivers that lose so many bits of
/// each reception and take frames of so many octets at most.
#[derive(Drop)]
pub struct Teller {
    lose: u32,
    most: u32,
    text: Vec<Sym>,
    count: usize,
    verdict: ReceptionVerdict,
    ghost room: { length text.items ≡ LONGEST_TEXT },
    ghost fits: { count ≤ LONGEST_TEXT },
    ghost told: { IsVerdictFor lose most (take count text.items) verdict },
}

/// Puts a piece behind the first `count` symbols of a text.
pub fn put_aside(text: &mut [Sym], count: usize, piece: &[Sym])
    requires { count + length piece.now ≤ length text.old }
    ensures len { length text.new ≡ length text.old }
    ensures text { take (count + length piece.now) text.new ≡ take count text.old ++ piece.now }
{
    text[count..count + piece.len()].copy_from_slice(piece);
}

/// Whether two texts of one length are the same. All symbols are looked at, so that no branch goes by them.
fn are_same(text: &[Sym], other: &[Sym]) -> bool
    requires { length text.now ≡ length other.now }
    ensures same { result ≡ true → text.now ≡ other.now }
    ensures differ { result ≡ false → text.now ≢ other.now }
{
    let mut same = true;
    for j in 0..text.len() {
        same &= text[j] == other[j];
    }
    same
}

/// Whether a Clash stands in a text. All symbols are looked at, so that no branch goes by them.
fn is_spoiled(text: &[Sym]) -> bool
    ensures spoiled { result ≡ true → Contains text.now Clash }
    ensures clean { result ≡ false → ¬ Contains text.now Clash }
{
    let mut any = false;
    for symbol in text {
        any |= *symbol == Sym::Clash;
    }
    any
}

/// The verdict of a text that fits. Where a Clash stands in it and no bits are lost, it isn't read.
fn read(lose: u32, most: u32, text: &[Sym]) -> ReceptionVerdict
    requires lose { lose ≤ 48 }
    requires most { IsMost most }
    requires signal { IsAllSignal text.now }
    requires some { 0 < length text.now }
    requires few { length text.now ≤ LONGEST_TEXT }
    ensures { IsVerdictFor lose most text.now result }
{
    if lose == 0 && is_spoiled(text) {
        return tell_spoiled(most, text.len() as u32);
    }
    tell(lose, most, text)
}

impl Teller {
    /// One that was told nothing yet.
    pub fn new(alloc: Global) -> Result<Teller, OutOfMemory>
        ensures { IfOk result (λ teller. teller.count ≡ 0) }
    {
        Ok(Teller {
            lose: 0,
            most: MOST_OCTETS_UNTAGGED,
            text: vec![in alloc; Sym::Idle; LONGEST_TEXT]?,
            count: 0,
            verdict: tell(0, MOST_OCTETS_UNTAGGED, &[]),
        })
    }

    /// Whether the text is the one that was told last, for such receivers.
    fn knows(&self, lose: u32, most: u32, text: &[Sym]) -> bool
        ensures verdict { result ≡ true → IsVerdictFor lose most text.now self.now.verdict }
        ensures again { self.now.lose ≡ lose → self.now.most ≡ most →
            take self.now.count self.now.text.items ≡ text.now → result ≡ true }
    {
        self.lose == lose
            && self.most == most
            && self.count == text.len()
            && are_same(text, &self.text[..self.count])
    }

    /// The verdict of a text that fits, which is read only if it isn't the one that was told last.
    fn verdict_of(&mut self, lose: u32, most: u32, text: &[Sym]) -> &ReceptionVerdict
        requires lose { lose ≤ 48 }
        requires most { IsMost most }
        requires signal { IsAllSignal text.now }
        requires some { 0 < length text.now }
        requires few { length text.now ≤ LONGEST_TEXT }
        ensures { IsVerdictFor lose most text.now result.now }
    {
        if !self.knows(lose, most, text) {
            self.lose = lose;
            self.most = most;
            put_aside(&mut self.text, 0, text);
            self.count = text.len();
            self.verdict = read(lose, most, text);
        }
        &self.verdict
    }
}

/// Keeps what becomes of a reception with this text at the Idle after it, for receivers that lose so many bits of each
/// reception and take frames of so many octets at most. Where the text is shorter than the shortest reception of a
/// frame, or was told last, or a Clash stands in it and no bits are lost, it isn't read.
pub fn keep_told(
    lose: u32,
    most: u32,
    text: &[Sym],
    teller: &mut Teller,
    room: &mut RowRoom,
    station: usize,
    t: u64,
    device: u32,
)
    requires lose { lose ≤ 48 }
    requires most { IsMost most }
    requires signal { IsAllSignal text.now }
    requires some { 0 < length text.now }
    requires few { length text.now ≤ LONGEST_TEXT }
    requires station { station < length room.old.captures }
    requires room { Covers (reception_demand most (length text.now) 1) room.old }
    ensures rows { (r : Receiving) → Hears r (text_kept lose most text.now 0) →
        room.new.rows ≡ room.old.rows ++ row_of t device (receiver_step r Idle false).event }
    ensures captures { (r : Receiving) → Hears r (text_kept lose most text.now 0) →
        room.new.captures
        ≡ captures_with station
        (taken_by t (receiver_step r Idle false).event (receiver_step r Idle false).octets)
        room.old.captures }
    ensures left { (n : ℕ) (other : Demand) →
        Covers (both_demands other (reception_demand most (length text.now) (suc n))) room.old →
        Covers (both_demands other (reception_demand most 0 n)) room.new }
    ensures stations { length room.new.captures ≡ length room.old.captures }
{
    let halves = text.len();
    if halves < LEAST_RECEPTION {
        let body = Body::Dropped {
            why: Why::Fragment,
            halves: halves as u32,
        };
        keep_reception(room, station, t, device, Some(body), &[]);
        return;
    }
    let verdict = teller.verdict_of(lose, most, text);
    keep_reception(room, station, t, device, verdict.event(), verdict.octets());
}
