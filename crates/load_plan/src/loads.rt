//! The records of loads: which of them are sent, and when.
ghost use Rattle.std.specs.Prelude.{◌≡◌, ◌≤◌, ◌<◌, ◌+◌, ◌++◌, ◌∷◌, [], ℕ, List, length, IfOk, Some};
ghost use Rattle.frame_layout.specs.Frame.{frame_of};
ghost use Rattle.mac_parameters.specs.Parameters.{IsMost};
ghost use Rattle.frame_layout.specs.Queue.{IsNotBelowLast};
ghost use Rattle.layout.specs.Limits.{most_sends};
ghost use Rattle.load_plan.specs.Loads.{Offer, earlier_of, fate_of, least_of, least_of_all, most_records_of_load, offers_of_load, offers_of_sends, queue_of_load, raised, skips_of, start_of};

use crate::{RecordsList, Skips};
use capture_file::Record;
use frame_layout::{Frame, Queue, build_up_to};
use layout::SendLine;
use lists::OutOfMemory;
use mac_parameters::{ADDRESSES_AND_TYPE, NANOSECONDS_A_HALF_BIT};
use std::alloc::Global;

/// What becomes of a record.
#[derive(Clone, Copy)]
pub enum Fate {
    Sent,
    /// Octets of the frame were not kept.
    Snapped,
    /// There are fewer octets than a frame's addresses and type have.
    Short,
    /// There are more octets than a frame may have.
    Long,
}

/// What becomes of a record, by the most octets of a frame.
fn fate_of(most: u32, entry: &Record) -> Fate
    ensures { result ≡ fate_of most entry.now }
{
    let count = entry.octets.len();
    if count < entry.original as usize {
        Fate::Snapped
    } else if count < ADDRESSES_AND_TYPE as usize {
        Fate::Short
    } else if count > most as usize {
        Fate::Long
    } else {
        Fate::Sent
    }
}

/// The earlier of two times, where there are any.
fn earlier(a: Option<u64>, b: Option<u64>) -> Option<u64>
    ensures { result ≡ earlier_of a b }
{
    match (a, b) {
        (None, b) => b,
        (Some(a), None) => Some(a),
        (Some(a), Some(b)) => Some(a.min(b)),
    }
}

/// The least time of a load's records.
#[tactic(auto, using(crate::proofs::EarlierTimes::earlier_none, crate::proofs::EarlierTimes::earlier_assoc))]
fn least_of(records: &[Record]) -> Option<u64>
    ensures { result ≡ least_of records.now }
{
    let mut least = None;
    for record in records {
        least = earlier(least, Some(record.nanos));
    }
    least
}

/// The least time of all records, which is where half bit 0 begins, in nanoseconds.
#[tactic(auto, using(crate::proofs::EarlierTimes::earlier_none, crate::proofs::EarlierTimes::earlier_assoc), unfolding(crate::specs::Loads::start_of))]
pub fn start_of(loads: &RecordsList) -> u64
    ensures { result ≡ start_of loads.now }
{
    let all = loads.as_slice();
    let mut least = None;
    for load in all {
        least = earlier(least, least_of(load.as_slice()));
    }
    least.unwrap_or(0)
}

/// How many of a load's records are skipped.
#[tactic(auto, unfolding(crate::specs::Loads::skips_of))]
pub fn skips_of(most: u32, records: &[Record]) -> Skips
    requires { length records.now ≤ most_records_of_load }
    ensures { result ≡ skips_of most records.now }
{
    let mut skips = Skips {
        short: 0,
        long: 0,
        snapped: 0,
    };
    for record in records {
        match fate_of(most, record) {
            Fate::Sent => {}
            Fate::Snapped => skips.snapped += 1,
            Fate::Short => skips.short += 1,
            Fate::Long => skips.long += 1,
        }
    }
    skips
}

fn frame_of(alloc: Global, octets: &[u8], most: u32) -> Result<Frame, OutOfMemory>
    requires { IsMost most }
    ensures { IfOk result (λ f. f ≡ frame_of octets.now) }
{
    match build_up_to(alloc, octets, most) {
        Ok(frame) => Ok(frame),
        Err(_) => Err(OutOfMemory),
    }
}

/// Puts a frame at the end of a queue whose last frame is ready at half bit `last`, and answers when the new
/// one is.
fn push_frame(
    alloc: Global,
    queue: &mut Queue,
    last: u64,
    at: u64,
    octets: &[u8],
    most: u32,
) -> Result<u64, OutOfMemory>
    requires most { IsMost most }
    requires room { length queue.old < 4294967295 }
    requires order { IsNotBelowLast queue.old last }
    ensures queued { IfOk result (λ new_last. (more : List Offer) →
        queue.new ++ raised new_last more ≡ queue.old ++ raised last (record { at = at; octets = octets.now } ∷ more)) }
    ensures count { IfOk result (λ _. length queue.new ≡ length queue.old + 1) }
    ensures order { IfOk result (λ new_last. IsNotBelowLast queue.new new_last) }
{
    let at = at.max(last);
    let frame = frame_of(alloc, octets, most)?;
    queue.push(at, frame)?;
    Ok(at)
}

/// Puts the records that are sent at the end of a queue whose last frame is ready at half bit `before`, and
/// answers when its last one is then.
fn push_load(
    alloc: Global,
    queue: &mut Queue,
    before: u64,
    start: u64,
    most: u32,
    records: &[Record],
) -> Result<u64, OutOfMemory>
    requires most { IsMost most }
    requires room { length queue.old + length records.now ≤ most_records_of_load }
    requires order { IsNotBelowLast queue.old before }
    ensures queued { IfOk result (λ new_last. (more : List Offer) →
        queue.new ++ raised new_last more ≡ queue.old ++ raised before (offers_of_load start most records.now ++ more)) }
    ensures count { IfOk result (λ _. length queue.new ≤ length queue.old + length records.now) }
    ensures order { IfOk result (λ new_last. IsNotBelowLast queue.new new_last) }
{
    let mut last = before;
    for record in records {
        if fate_of(most, record) != Fate::Sent {
            continue;
        }
        let at = record.nanos.saturating_sub(start) / NANOSECONDS_A_HALF_BIT;
        last = push_frame(alloc, queue, last, at, record.octets.as_slice(), most)?;
    }
    Ok(last)
}

/// Puts a station's sends at the end of a queue whose last frame is ready at half bit `before`.
fn push_sends(
    alloc: Global,
    queue: &mut Queue,
    before: u64,
    most: u32,
    sends: &[SendLine],
    station: u32,
) -> Result<(), OutOfMemory>
    requires most { IsMost most }
    requires room { length queue.old + length sends.now ≤ most_records_of_load + most_sends }
    requires order { IsNotBelowLast queue.old before }
    ensures { IfOk result (λ _. queue.new ≡ queue.old ++ raised before (offers_of_sends station sends.now)) }
{
    let mut last = before;
    for send in sends {
        if send.station != station {
            continue;
        }
        last = push_frame(alloc, queue, last, send.at, send.octets.as_slice(), most)?;
    }
    Ok(())
}

/// The queue of a station: its load's records that are sent, and after them its sends.
#[tactic(auto, unfolding(crate::specs::Loads::queue_of_load))]
pub fn queue_of_load(
    alloc: Global,
    start: u64,
    most: u32,
    sends: &[SendLine],
    station: u32,
    records: &[Record],
) -> Result<Queue, OutOfMemory>
    requires most { IsMost most }
    requires sends { length sends.now ≤ most_sends }
    requires records { length records.now ≤ most_records_of_load }
    ensures { IfOk result (λ q. q ≡ queue_of_load start most sends.now station records.now) }
{
    let mut queue = Queue::new(alloc);
    let last = push_load(alloc, &mut queue, 0, start, most, records)?;
    push_sends(alloc, &mut queue, last, most, sends, station)?;
    Ok(queue)
}
