//! Receivers that put aside what they hear and read it late, when the reception is over.
ghost use Rattle.std.specs.Prelude.{◌≡◌, ◌≢◌, ◌+◌, ◌<◌, ◌≤◌, ◌++◌, ◌↔◌, ℕ, suc, false, true, IsTrue, List, [], length, replicate, IfOk};
ghost use Rattle.std.specs.List.{All};
ghost use Rattle.manchester_line.specs.declared.Sym.{Sym};
ghost use Rattle.manchester_line.specs.declared.Sym.TheVariants.{Idle};
ghost use Rattle.mac_parameters.specs.Parameters.{IsMost, most_half_bits};
ghost use Rattle.mac_receive.specs.KeptReceiver.{Hears, IsReceiver};
ghost use Rattle.mac_receive.specs.Receiver.{Receiving, new_receiving, receiver_step, receiver_after, receiver_bodies};
ghost use Rattle.network.specs.Captures.{taken_by};
ghost use Rattle.network.specs.Rows.{row_of};
ghost use Rattle.window_room.specs.NeededRoom.{Covers, Demand, both_demands, receiver_demand};
ghost use Rattle.window_room.specs.Rooms.{captures_with};

use crate::teller::{LONGEST_TEXT, Teller, keep_told, put_aside};
use lists::OutOfMemory;
use mac_receive::Receiver;
use manchester_line::Sym;
use std::alloc::Global;
use std::marker::Model;
use window_room::{RowRoom, receive_one};

/// A receiver that reads a reception late: what it has heard of it, the first `unread` symbols of the text, is put
/// aside until it is over. One that doesn't fit there is read half bit by half bit from then on.
#[derive(Drop)]
pub struct LateReceiver {
    lose: u32,
    most: u32,
    receiver: Receiver,
    text: Vec<Sym>,
    unread: usize,
}

impl Model for LateReceiver {
    ghost use Rattle.std.specs.Prelude.{◌≡◌, ◌+◌, ◌<◌, ◌≤◌, length, take};
    ghost use Rattle.mac_parameters.specs.Parameters.{IsMost, most_half_bits};
    ghost use Rattle.mac_receive.specs.KeptReceiver.{KeptReception, IsReceiver};
    ghost use Rattle.reception_laws.specs.declared.teller.TheConstants.{LONGEST_TEXT};
    ghost use Rattle.reception_laws.specs.LateReceptions.{IsAtRest, with_text};
    ghost use Rattle.reception_laws.specs.WholeReceptions.{IsAllSignal};

    ghost Value = { KeptReception };

    ghost view = { λ s. with_text s.receiver (take s.unread s.text.items) };

    ghost invariant = { λ s.
        (length s.text.items ≡ LONGEST_TEXT) × (s.unread ≤ LONGEST_TEXT) × (s.receiver.lose ≡ s.lose) × (s.receiver.most ≡ s.most) × (s.lose ≤ 48) × IsMost s.most × IsReceiver s.receiver
        × (0 < s.unread → IsAtRest s.receiver)
        × IsAllSignal (take s.unread s.text.items) × (s.receiver.steps + s.unread ≤ most_half_bits) };
}

impl LateReceiver {
    /// A receiver that loses the first `lose` bits of each reception (profile), for frames of at most
    /// `most` octets before the check sequence.
    pub fn new_for(alloc: Global, lose: u32, most: u32) -> Result<LateReceiver, OutOfMemory>
        requires lose { lose ≤ 48 }
        requires most { IsMost most }
        ensures hears { IfOk result (λ receiver. Hears (new_receiving lose most) receiver) }
        ensures steps { IfOk result (λ receiver. receiver.steps ≡ 0) }
    {
        Ok(LateReceiver {
            lose,
            most,
            receiver: Receiver::new_for(lose, most),
            text: vec![in alloc; Sym::Idle; LONGEST_TEXT]?,
            unread: 0,
        })
    }

    /// Whether the receiver is deaf: its own station has sent, and it has heard carrier ever since (profile).
    pub fn is_deaf(&self) -> bool
        ensures { result ≡ self.now.deaf }
    {
        self.receiver.is_deaf()
    }

    /// Whether a reception is under way.
    pub fn is_receiving(&self) -> bool
        ensures { IsTrue result ↔ (0 < self.now.halves) }
    {
        self.unread > 0 || self.receiver.is_receiving()
    }

    /// The receiver after `n` steps that hear Idle without sending.
    pub fn leap_quiet(&mut self, n: u64)
        requires none { self.old.halves ≡ 0 }
        requires steps { self.old.steps + n ≤ most_half_bits }
        ensures state { (r : Receiving) → Hears r self.old →
            Hears (receiver_after r (replicate n Idle) false) self.new }
        ensures bodies { (r : Receiving) → Hears r self.old →
            receiver_bodies r (replicate n Idle) false ≡ [] }
        ensures steps { self.new.steps ≡ self.old.steps + n }
    {
        self.receiver.leap_quiet(n);
    }

    /// The receiver after `n` steps with sending, whatever is heard in them.
    pub fn leap_sending(&mut self, n: u64)
        requires { self.old.steps + n ≤ most_half_bits }
        ensures state { (r : Receiving) (heard : List Sym) → length heard ≡ n → Hears r self.old →
            Hears (receiver_after r heard true) self.new }
        ensures bodies { (r : Receiving) (heard : List Sym) → receiver_bodies r heard true ≡ [] }
        ensures steps { self.new.steps ≡ self.old.steps + n }
    {
        if n > 0 {
            let dropped = self.unread as u64;
            self.unread = 0;
            self.receiver.leap_sending(dropped + n);
        }
    }

    /// The deaf receiver after `n` steps that hear carrier without sending, whatever symbols they hear.
    pub fn leap_deaf(&mut self, n: u64)
        requires deaf { self.old.deaf ≡ true }
        requires steps { self.old.steps + n ≤ most_half_bits }
        ensures state { (r : Receiving) (hs : List Sym) →
            All (λ s. s ≢ Idle) hs → length hs ≡ n → Hears r self.old →
            Hears (receiver_after r hs false) self.new }
        ensures bodies { (r : Receiving) (hs : List Sym) →
            All (λ s. s ≢ Idle) hs → receiver_bodies r hs false ≡ [] }
        ensures steps { self.new.steps ≡ self.old.steps + n }
    {
        self.receiver.leap_deaf(n);
    }

    /// The receiver after a step without sending for each symbol of the piece.
    pub fn take(&mut self, piece: &[Sym])
        requires awake { self.old.deaf ≡ false }
        requires signal { All (λ s. s ≢ Idle) piece.now }
        requires steps { self.old.steps + length piece.now ≤ most_half_bits }
        ensures state { (r : Receiving) → Hears r self.old →
            Hears (receiver_after r piece.now false) self.new }
        ensures bodies { (r : Receiving) → Hears r self.old → receiver_bodies r piece.now false ≡ [] }
        ensures steps { self.new.steps ≡ self.old.steps + length piece.now }
    {
        if self.receiver.is_receiving() {
            self.receiver.take(piece);
            return;
        }
        if piece.len() <= self.text.len() - self.unread {
            put_aside(&mut self.text, self.unread, piece);
            self.unread += piece.len();
            return;
        }
        self.receiver.take(&self.text[..self.unread]);
        self.unread = 0;
        self.receiver.take(piece);
    }

    /// Half bit `t` of its station, in which this symbol is heard and the station sends or doesn't. With the room
    /// that one half bit can need it takes no memory, and leaves what the later ones can need, beside any other
    /// demand. The station is counted among those of the room, the device among all.
    pub fn receive(
        &mut self,
        teller: &mut Teller,
        room: &mut RowRoom,
        station: usize,
        t: u64,
        device: u32,
        heard: Sym,
        sending: bool,
    )
        requires steps { self.old.steps < most_half_bits }
        requires hears { IsReceiver self.old }
        requires station { station < length room.old.captures }
        requires room { Covers (receiver_demand 1 self.old) room.old }
        ensures state { (r : Receiving) → Hears r self.old → Hears (receiver_step r heard sending).state self.new }
        ensures rows { (r : Receiving) → Hears r self.old →
            room.new.rows ≡ room.old.rows ++ row_of t device (receiver_step r heard sending).event }
        ensures captures { (r : Receiving) → Hears r self.old →
            room.new.captures
            ≡ captures_with station
            (taken_by t (receiver_step r heard sending).event (receiver_step r heard sending).octets)
            room.old.captures }
        ensures left { (n : ℕ) (other : Demand) →
            Covers (both_demands other (receiver_demand (suc n) self.old)) room.old →
            Covers (both_demands other (receiver_demand n self.new)) room.new }
        ensures stations { length room.new.captures ≡ length room.old.captures }
        ensures steps { self.new.steps ≡ self.old.steps + 1 }
    {
        if sending {
            self.leap_sending(1);
        } else if heard != Sym::Idle {
            if self.receiver.is_deaf() {
                self.leap_deaf(1);
            } else {
                self.take(&[heard]);
            }
        } else if self.unread > 0 {
            let text = &self.text[..self.unread];
            keep_told(self.lose, self.most, text, teller, room, station, t, device);
            let dropped = self.unread as u64;
            self.unread = 0;
            self.receiver.leap_quiet(dropped + 1);
        } else {
            let receiver = &mut self.receiver;
            receive_one(receiver, room, station, t, device, heard, false);
        }
    }
}
