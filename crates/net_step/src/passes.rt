//! One pass over the devices or the segments for each thing that a half bit does.
ghost use Rattle.std.specs.Prelude.{◌≡◌, ◌<◌, ◌+◌, ◌++◌, List, All, length, map, flat_map, OnOk};
ghost use Rattle.mac_parameters.specs.Parameters.{most_half_bits};
ghost use Rattle.network.specs.Net.{sendings, receptions, each_repeater, ports_of};
ghost use Rattle.network.specs.Captures.{captured, taken_by};
ghost use Rattle.network.specs.Rows.{repeater_bodies};
ghost use Rattle.kept_devices.specs.KeptReceivers.{AllHear};
ghost use Rattle.net_step.specs.KeptNet.{AllGive, all_told};
ghost use Rattle.net_step.specs.Wires.{heard_at_place, carried, IsPlaced};
ghost use Rattle.mac_receive.specs.Receiver.{Receiving};
ghost use Rattle.mac_receive.specs.KeptReceiver.{kept_octets};
ghost use Rattle.repeater_core.specs.Step.{after, decided_by, emitted_by};

use crate::places::TapOnSegment;
use crate::relay::Relay;
use crate::segment::SegmentCable;
use collision_log::Body;
use layout::Octets;
use lists::OutOfMemory;
use mac_parameters::CHECK_SEQUENCE;
use mac_receive::Receiver;
use mac_transmit::Transmitter;
use manchester_line::{Sym, is_signal};
use network::{Taken, TakenList};
use repeater_core::RepeaterEvents;
use std::alloc::Global;

/// What every tap hears in the present half bit.
pub fn hear_all(segments: &[SegmentCable], places: &[TapOnSegment], heard: &mut [Sym])
    requires len { length heard.old ≡ length places.now }
    requires placed { All (IsPlaced segments.now) places.now }
    ensures { heard.new ≡ map (heard_at_place segments.now) places.now }
{
    for k in 0..places.len() {
        let place = places[k];
        heard[k] = segments[place.segment as usize].heard(place.local);
    }
}

/// Half bit `t` of each sender: what its station emits, and its event.
fn send_all(
    t: u64,
    senders: &mut [Transmitter],
    heard: &[Sym],
    emitted: &mut [Sym],
    sent: &mut [Option<Body>],
)
    requires heard_len { length heard.now ≡ length senders.old }
    requires emitted_len { length emitted.old ≡ length senders.old }
    requires sent_len { length sent.old ≡ length senders.old }
    requires times { All (λ s. s.t ≡ t) senders.old }
    requires in_time { t < most_half_bits }
    ensures times { All (λ s. s.t ≡ t + 1) senders.new }
    ensures states { senders.new ≡ map (λ s. s.state) (sendings heard.now senders.old) }
    ensures emitted { emitted.new ≡ map (λ s. s.emitted) (sendings heard.now senders.old) }
    ensures events { sent.new ≡ map (λ s. s.event) (sendings heard.now senders.old) }
{
    for k in 0..senders.len() {
        let sender = &mut senders[k];
        let step = sender.step(t, heard[k]);
        emitted[k] = step.emitted;
        sent[k] = step.event;
    }
}

/// One half bit of each repeater, whose ports follow those of the one before: what the ports emit, what is decided for
/// them, and what happens at each repeater.
pub fn relay_all(
    relays: &mut [Relay],
    heard: &[Sym],
    emitted: &mut [Sym],
    decided: &mut [Sym],
    events: &mut [RepeaterEvents],
)
    requires heard_len { length heard.now ≡ ports_of relays.old }
    requires emitted_len { length emitted.old ≡ length heard.now }
    requires decided_len { length decided.old ≡ length heard.now }
    requires events_len { length events.old ≡ length relays.old }
    ensures ports { map (λ r. length r.guards) relays.new ≡ map (λ r. length r.guards) relays.old }
    ensures states { relays.new ≡ each_repeater after heard.now relays.old }
    ensures emitted { emitted.new ≡ flat_map emitted_by relays.old }
    ensures decided { decided.new ≡ flat_map (λ symbols. symbols) (each_repeater decided_by heard.now relays.old) }
    ensures bodies { all_told relays.new events.new ≡ each_repeater repeater_bodies heard.now relays.old }
{
    let mut from = 0;
    for k in 0..relays.len() {
        let relay = &mut relays[k];
        let to = from + relay.ports();
        events[k] = relay.step(
            &heard[from..to],
            &mut emitted[from..to],
            &mut decided[from..to],
        );
        from = to;
    }
}

/// The stations' symbols, then those of the ports.
pub fn join(stations: &[Sym], ports: &[Sym], row: &mut [Sym])
    requires { length row.old ≡ length stations.now + length ports.now }
    ensures { row.new ≡ stations.now ++ ports.now }
{
    let count = stations.len();
    row[..count].copy_from_slice(stations);
    row[count..].copy_from_slice(ports);
}

/// Every segment carries what its taps emit.
pub fn carry_all(segments: &mut [SegmentCable], emitted: &[Sym])
    requires { All (λ w. All (λ q. q < length emitted.now) w.taps) segments.old }
    ensures { segments.new ≡ map (carried emitted.now) segments.old }
{
    for segment in segments.iter_mut() {
        segment.carry(emitted);
    }
}

/// Half bit `t` of each receiver, which is told whether its own station emits something: its event.
fn receive_all(
    t: u64,
    receivers: &mut [Receiver],
    heard: &[Sym],
    emitted: &[Sym],
    received: &mut [Option<Body>],
)
    requires heard_len { length heard.now ≡ length receivers.old }
    requires emitted_len { length emitted.now ≡ length receivers.old }
    requires received_len { length received.old ≡ length receivers.old }
    requires steps { All (λ r. r.steps ≡ t) receivers.old }
    requires in_time { t < most_half_bits }
    ensures steps { All (λ r. r.steps ≡ t + 1) receivers.new }
    ensures given { (rs : List Receiving) → AllHear rs receivers.old → AllGive (receptions heard.now emitted.now rs) receivers.new received.new }
{
    for k in 0..receivers.len() {
        let receiver = &mut receivers[k];
        received[k] = receiver.step(heard[k], is_signal(emitted[k]));
    }
}

/// Half bit `t` of each station: of its sender, then of its receiver, which is told whether the station emits
/// something.
pub fn step_stations(
    t: u64,
    senders: &mut [Transmitter],
    receivers: &mut [Receiver],
    heard: &[Sym],
    emitted: &mut [Sym],
    sent: &mut [Option<Body>],
    received: &mut [Option<Body>],
)
    requires heard_len { length heard.now ≡ length senders.old }
    requires receivers_len { length receivers.old ≡ length senders.old }
    requires emitted_len { length emitted.old ≡ length senders.old }
    requires sent_len { length sent.old ≡ length senders.old }
    requires received_len { length received.old ≡ length senders.old }
    requires times { All (λ s. s.t ≡ t) senders.old }
    requires steps { All (λ r. r.steps ≡ t) receivers.old }
    requires in_time { t < most_half_bits }
    ensures times { All (λ s. s.t ≡ t + 1) senders.new }
    ensures steps { All (λ r. r.steps ≡ t + 1) receivers.new }
    ensures states { senders.new ≡ map (λ s. s.state) (sendings heard.now senders.old) }
    ensures emitted { emitted.new ≡ map (λ s. s.emitted) (sendings heard.now senders.old) }
    ensures events { sent.new ≡ map (λ s. s.event) (sendings heard.now senders.old) }
    ensures given { (rs : List Receiving) → AllHear rs receivers.old → AllGive (receptions heard.now emitted.new rs) receivers.new received.new }
{
    send_all(t, senders, heard, emitted, sent);
    receive_all(t, receivers, heard, emitted, received);
}

/// Puts a frame that was received at half bit `t` into a station's capture, without its frame check sequence (3.2.9).
fn capture(
    alloc: Global,
    t: u64,
    event: Option<Body>,
    octets: &[u8],
    taken: &mut TakenList,
) -> Result<(), OutOfMemory>
    ensures { OnOk result (taken.new ≡ taken.old ++ taken_by t event octets.now) }
{
    match event {
        Some(Body::Received { .. }) => {
            let mut frame = Octets::new(alloc);
            frame.extend(&octets[..octets.len().saturating_sub(CHECK_SEQUENCE as usize)])?;
            taken.push(Taken { t, octets: frame })
        }
        _ => Ok(()),
    }
}

/// Captures the frames that were received at half bit `t`.
pub fn capture_all(
    alloc: Global,
    t: u64,
    received: &[Option<Body>],
    receivers: &[Receiver],
    captures: &mut [TakenList],
) -> Result<(), OutOfMemory>
    requires len { length received.now ≡ length captures.old }
    requires receivers_len { length receivers.now ≡ length captures.old }
    ensures { OnOk result (captures.new ≡ captured t received.now (map kept_octets receivers.now) captures.old) }
{
    for k in 0..captures.len() {
        let taken = &mut captures[k];
        capture(alloc, t, received[k], receivers[k].octets(), taken)?;
    }
    Ok(())
}
