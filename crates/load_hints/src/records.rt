//! The records of a load, whose heads are read again.

use crate::heads::{is_little, number_in, octet_at};
use input_hints::{MOST_PIECES, PIECE};
use outside::Store;

/// The octets of a record's head, and the most heads that are in a piece.
const HEAD: usize = 16;

const MOST_HEADS: usize = 1_024;

/// What was seen of a load's records so far.
#[derive(Clone, Copy)]
pub struct Walk {
    is_little: bool,
    /// How many nanoseconds the fraction of a second counts.
    unit: u64,
    /// The most octets of a frame.
    most: u32,
    pub records: u64,
    /// The octet, from 0, at which the next record begins.
    pub next: u64,
    /// Whether the first record has no octets: it says when half bit 0 is, and isn't meant to be sent.
    pub is_timed: bool,
    /// The least time of the records, and that of the first one that is sent, in nanoseconds.
    pub least: u64,
    pub first: Option<u64>,
}

impl Walk {
    /// Takes the head of a record.
    fn take(&mut self, head: &[u8]) {
        let is_little = self.is_little;
        let fraction = u64::from(number_in(is_little, head, 4)).saturating_mul(self.unit);
        let seconds = u64::from(number_in(is_little, head, 0)).saturating_mul(1_000_000_000);
        let nanos = seconds.saturating_add(fraction);
        let captured = number_in(is_little, head, 8);
        let original = number_in(is_little, head, 12);
        let is_sent = captured >= original && captured >= 14 && captured <= self.most;
        if is_sent && self.first.is_none() {
            self.first = Some(nanos);
        }
        self.is_timed = self.is_timed || (self.records == 0 && captured == 0 && original == 0);
        self.least = self.least.min(nanos);
        self.records = self.records.saturating_add(1);
        let length = u64::from(captured).saturating_add(HEAD as u64);
        self.next = self.next.saturating_add(length);
    }

    fn is_before(&self, limit: u64) -> bool {
        self.records < limit && self.first.is_none()
    }

    /// Takes the heads that are whole in a piece of the load, which begins with one, up to so many records or to the
    /// first one that is sent.
    fn take_piece(&mut self, piece: &[u8], limit: u64) {
        let from = self.next;
        for _head in 0..MOST_HEADS {
            let place = self.next.saturating_sub(from) as usize;
            match piece.get(place..) {
                Some(head) if head.len() >= HEAD && self.is_before(limit) => self.take(head),
                _ => break,
            }
        }
    }
}

/// The walk over so many records of a load, up to the first one that isn't whole or is sent: with no most octets none
/// is. Nothing where the load can't be read.
pub fn walk_over<S: Store>(store: &mut S, load: &str, limit: u64, most: u32) -> Option<Walk> {
    let mut room = [0u8; PIECE];
    let count = store.read(load, 0, &mut room).ok()?;
    let head = room.get(..count).unwrap_or(&[]);
    let is_nanos = octet_at(head, 0) == 0x4d || octet_at(head, 2) == 0x3c;
    let mut walk = Walk {
        is_little: is_little(head),
        unit: if is_nanos { 1 } else { 1_000 },
        most,
        records: 0,
        next: 24,
        is_timed: false,
        least: u64::MAX,
        first: None,
    };
    for _piece in 0..MOST_PIECES {
        let before = walk.records;
        let count = store.read(load, walk.next, &mut room).ok()?;
        walk.take_piece(room.get(..count).unwrap_or(&[]), limit);
        if walk.records == before {
            break;
        }
    }
    Some(walk)
}

/// The octet at which a load ends, which has at least so many.
pub fn end_of<S: Store>(store: &mut S, load: &str, from: u64) -> Option<u64> {
    let mut room = [0u8; PIECE];
    let mut end = from;
    for _piece in 0..MOST_PIECES {
        let count = store.read(load, end, &mut room).ok()?;
        if count == 0 {
            break;
        }
        end = end.saturating_add(count as u64);
    }
    Some(end)
}
