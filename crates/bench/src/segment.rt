//! A segment of stations that are busy with frames.
ghost use Rattle.std.specs.Prelude.{◌≡◌, ◌<◌, ◌≤◌, ◌+◌, ◌^◌, All, length, IfOk};
ghost use Rattle.mac_parameters.specs.Parameters.{greatest_place, most_half_bits};

use backoff_draw::Draws;
use cable_segment::Cable;
use frame_layout::{Queue, build};
use lists::OutOfMemory;
use mac_parameters::{MOST_HALF_BITS, MOST_OCTETS_UNTAGGED};
use mac_transmit::Transmitter;
use manchester_line::Sym;
use std::alloc::Global;

/// How many octets each station's frame has before its check sequence.
const LARGEST: usize = MOST_OCTETS_UNTAGGED as usize;

/// These octets.
const OCTETS: [u8; LARGEST] = [0xa5; LARGEST];

/// The half bits between two taps.
const APART: u32 = 10;

/// The half bits of a run, in which a frame of each of four stations has room.
const HALF_BITS: u32 = 100_000;

/// A station with one frame, which is ready at half bit `at`.
fn station(alloc: Global, seed: u64, number: u32, at: u64) -> Result<Transmitter, OutOfMemory>
    ensures { IfOk result (λ s. s.t ≡ 0) }
{
    let Ok(frame) = build(alloc, &OCTETS) else {
        return Err(OutOfMemory);
    };
    let mut queue = Queue::new(alloc);
    queue.push(at, frame)?;
    Ok(Transmitter::new(queue, Draws::new(seed, number)))
}

fn stations(alloc: Global, seed: u64, count: u32) -> Result<Vec<Transmitter>, OutOfMemory>
    ensures times { IfOk result (λ stations. All (λ s. s.t ≡ 0) stations.items) }
    ensures count { IfOk result (λ stations. length stations.items ≡ count) }
{
    let mut stations = Vec::new(alloc);
    for number in 0..count {
        stations.push(station(alloc, seed, number, 0)?)?;
    }
    Ok(stations)
}

fn places(alloc: Global, count: u32) -> Result<Vec<u32>, OutOfMemory>
    requires { count ≤ 200 }
    ensures near { IfOk result (λ places. All (λ p. p ≤ greatest_place) places.items) }
    ensures count { IfOk result (λ places. length places.items ≡ count) }
{
    let mut places = Vec::new(alloc);
    for number in 0..count {
        places.push(number * APART)?;
    }
    Ok(places)
}

/// Half bit `t` of each station. Answers the number of events.
fn send_all(t: u64, cable: &mut Cable, senders: &mut [Transmitter]) -> u64
    requires time { t < most_half_bits }
    requires places { length cable.old.positions ≡ length senders.old }
    requires few { length senders.old < 2 ^ 32 }
    requires times { All (λ s. s.t ≡ t) senders.old }
    ensures places { length cable.new.positions ≡ length cable.old.positions }
    ensures times { All (λ s. s.t ≡ t + 1) senders.new }
{
    let mut events = 0u64;
    for k in 0..senders.len() {
        let heard = cable.heard(k as u32);
        let sender = &mut senders[k];
        let step = sender.step(t, heard);
        cable.emit(k as u32, step.emitted);
        events = events.saturating_add(u64::from(step.event.is_some()));
    }
    events
}

fn run_all(cable: &mut Cable, senders: &mut [Transmitter]) -> u64
    requires places { length cable.old.positions ≡ length senders.old }
    requires few { length senders.old < 2 ^ 32 }
    requires times { All (λ s. s.t ≡ 0) senders.old }
{
    let mut events = 0u64;
    for t in 0..u64::from(HALF_BITS) {
        events = events.saturating_add(send_all(t, cable, senders));
        cable.advance();
    }
    events
}

/// Runs a segment with so many taps that many times, and answers the half bits of stations.
pub fn segments(alloc: Global, taps: u32, times: u32) -> Result<u64, OutOfMemory>
    requires some { 1 ≤ taps }
    requires most { taps ≤ 32 }
{
    let places = places(alloc, taps)?;
    let mut events = 0u64;
    for time in 0..times {
        let mut cable = Cable::new(alloc, &places, 0)?;
        let mut senders = stations(alloc, u64::from(time), taps)?;
        events = events.saturating_add(run_all(&mut cable, &mut senders));
    }
    Ok(u64::from(taps) * u64::from(times) * u64::from(HALF_BITS) + events % 2)
}

/// Leaps over quiet half bits up to a frame at the end of the simulated time, and answers their number.
fn leap_all(sender: &mut Transmitter, at: u64) -> u64
    requires now { sender.old.t ≡ 0 }
    requires at { at ≤ most_half_bits }
{
    let mut t = 0u64;
    for _leap in 0..at {
        if t + 4096 > at {
            break;
        }
        let n = sender.calm(t, false);
        sender.leap(t, n, false);
        t += n;
    }
    t
}

/// Leaps over quiet time so many times, and answers the number of leaps.
pub fn leaps(alloc: Global, times: u32) -> Result<u64, OutOfMemory> {
    let mut all = 0u64;
    for _time in 0..times {
        let mut sender = station(alloc, 1, 0, MOST_HALF_BITS)?;
        all = all.saturating_add(leap_all(&mut sender, MOST_HALF_BITS));
    }
    Ok(all / 4096)
}
