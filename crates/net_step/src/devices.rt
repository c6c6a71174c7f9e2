//! The devices of a plan before half bit 0, and those that go on from a state.
ghost use Rattle.std.specs.Prelude.{◌≡◌, ◌<◌, ◌≤◌, ◌^◌, [], All, length, map, sum_by, IfOk};
ghost use Rattle.mac_parameters.specs.Parameters.{IsMost, greatest_place, jabber_rest, most_half_bits};
ghost use Rattle.network.specs.Net.{new_net, new_receiver, new_repeater, new_senders};
ghost use Rattle.kept_devices.specs.KeptReceivers.{AllHear};
ghost use Rattle.std.specs.List.{range_with_len};
ghost use Rattle.net_step.specs.Wires.{new_wire};
ghost use Rattle.quiet_state.specs.PlanStates.{AreStatesOf, IsResumable};
ghost use Rattle.quiet_state.specs.Resumed.{net_of, resumed_repeaters, resumed_senders};

use crate::relay::Relay;
use crate::segment::SegmentCable;
use backoff_draw::Draws;
use frame_layout::Queue;
use layout::{PortLine, RepeaterLine, StationLine};
use lists::OutOfMemory;
use load_plan::Plan;
use mac_parameters::most_octets;
use mac_receive::Receiver;
use mac_transmit::{SenderState, Transmitter};
use network::{Captures, TakenList};
use port_partition::PortGuard;
use quiet_state::NetState;
use std::alloc::Global;

/// The senders of these queues before half bit 0: number k, from 0, is the station of queue k.
pub fn new_transmitters(
    alloc: Global,
    seed: u64,
    queues: &[Queue],
) -> Result<Vec<Transmitter>, OutOfMemory>
    requires { length queues.now < 2 ^ 32 }
    ensures senders { IfOk result (λ senders. senders.items ≡ new_senders seed 0 queues.now) }
    ensures times { IfOk result (λ senders. All (λ s. s.t ≡ 0) senders.items) }
    ensures count { IfOk result (λ senders. length senders.items ≡ length queues.now) }
{
    let mut senders = Vec::new(alloc);
    for k in 0..queues.len() {
        let draws = Draws::new(seed, k as u32);
        senders.push(Transmitter::new(queues[k].copy()?, draws))?;
    }
    Ok(senders)
}

/// The senders of these queues before half bit `t` that go on from these states, one for each.
pub fn resumed_transmitters(
    alloc: Global,
    seed: u64,
    t: u64,
    queues: &[Queue],
    states: &[SenderState],
) -> Result<Vec<Transmitter>, OutOfMemory>
    requires few { length queues.now < 2 ^ 32 }
    requires in_time { t ≤ most_half_bits }
    requires ranges { AreStatesOf queues.now states.now }
    ensures senders { IfOk result (λ senders. senders.items ≡ resumed_senders seed t 0 queues.now states.now) }
    ensures times { IfOk result (λ senders. All (λ s. s.t ≡ t) senders.items) }
    ensures count { IfOk result (λ senders. length senders.items ≡ length queues.now) }
{
    let mut senders = Vec::new(alloc);
    for k in 0..queues.len() {
        let state = &states[k];
        let draws = Draws::at(seed, k as u32, state.drawn);
        senders.push(Transmitter::resume(queues[k].copy()?, draws, t, *state))?;
    }
    Ok(senders)
}

/// The receivers of these stations before half bit `t`, which heard nothing so far; frames have at most `most` octets
/// before their check sequence.
pub fn resumed_receivers(
    alloc: Global,
    most: u32,
    t: u64,
    stations: &[StationLine],
) -> Result<Vec<Receiver>, OutOfMemory>
    requires lose { All (λ s. s.lose ≤ 48) stations.now }
    requires most { IsMost most }
    requires in_time { t ≤ most_half_bits }
    ensures receivers { IfOk result (λ receivers. AllHear (map (new_receiver most) stations.now) receivers.items) }
    ensures steps { IfOk result (λ receivers. All (λ r. r.steps ≡ t) receivers.items) }
    ensures count { IfOk result (λ receivers. length receivers.items ≡ length stations.now) }
{
    let mut receivers = Vec::new(alloc);
    for station in stations {
        let mut receiver = Receiver::new_for(station.lose, most);
        receiver.leap_quiet(t);
        receivers.push(receiver)?;
    }
    Ok(receivers)
}

/// The receivers of these stations before half bit 0; frames have at most `most` octets before their check sequence.
pub fn new_receivers(
    alloc: Global,
    most: u32,
    stations: &[StationLine],
) -> Result<Vec<Receiver>, OutOfMemory>
    requires lose { All (λ s. s.lose ≤ 48) stations.now }
    requires most { IsMost most }
    ensures receivers { IfOk result (λ receivers. AllHear (map (new_receiver most) stations.now) receivers.items) }
    ensures steps { IfOk result (λ receivers. All (λ r. r.steps ≡ 0) receivers.items) }
    ensures count { IfOk result (λ receivers. length receivers.items ≡ length stations.now) }
{
    let mut receivers = Vec::new(alloc);
    for station in stations {
        receivers.push(Receiver::new_for(station.lose, most))?;
    }
    Ok(receivers)
}

/// The repeaters of these lines before half bit 0.
pub fn new_relays(alloc: Global, repeaters: &[RepeaterLine]) -> Result<Vec<Relay>, OutOfMemory>
    requires two_ports { All (λ r. 2 ≤ length r.ports) repeaters.now }
    requires few_ports { All (λ r. length r.ports ≤ 32) repeaters.now }
    requires some_delay { All (λ r. 1 ≤ r.delay) repeaters.now }
    requires short_delay { All (λ r. r.delay ≤ 200) repeaters.now }
    ensures { IfOk result (λ relays. relays.items ≡ map new_repeater repeaters.now) }
{
    let mut relays = Vec::new(alloc);
    for repeater in repeaters {
        relays.push(Relay::new(alloc, repeater.ports.len() as u32, repeater.delay)?)?;
    }
    Ok(relays)
}

/// The repeaters of these lines that go on with these guards and rests, one of each for each port.
pub fn resumed_relays(
    alloc: Global,
    repeaters: &[RepeaterLine],
    guards: &[PortGuard],
    rests: &[u32],
) -> Result<Vec<Relay>, OutOfMemory>
    requires two_ports { All (λ r. 2 ≤ length r.ports) repeaters.now }
    requires few_ports { All (λ r. length r.ports ≤ 32) repeaters.now }
    requires some_delay { All (λ r. 1 ≤ r.delay) repeaters.now }
    requires short_delay { All (λ r. r.delay ≤ 200) repeaters.now }
    requires guards { length guards.now ≡ sum_by (λ r. length r.ports) repeaters.now }
    requires rests { length rests.now ≡ length guards.now }
    requires resting { All (λ rest. rest < jabber_rest) rests.now }
    ensures { IfOk result (λ relays. relays.items ≡ resumed_repeaters repeaters.now guards.now rests.now) }
{
    let mut relays = Vec::new(alloc);
    let mut from = 0;
    for repeater in repeaters {
        let to = from + repeater.ports.len();
        relays.push(Relay::resume(alloc, repeater.delay, &guards[from..to], &rests[from..to])?)?;
        from = to;
    }
    Ok(relays)
}

/// The senders and receivers of the stations, and the repeaters.
#[derive(Drop)]
pub struct Devices {
    pub senders: Vec<Transmitter>,
    pub receivers: Vec<Receiver>,
    pub relays: Vec<Relay>,
}

/// The devices of a plan before half bit 0.
#[tactic(auto, using(network::proofs::RunnablePlans::runnable_plan))]
pub fn new_devices(alloc: Global, plan: &Plan) -> Result<Devices, OutOfMemory>
    ensures senders { IfOk result (λ made. made.senders.items ≡ (new_net plan.now).senders) }
    ensures receivers { IfOk result (λ made. AllHear (new_net plan.now).receivers made.receivers.items) }
    ensures repeaters { IfOk result (λ made. made.relays.items ≡ (new_net plan.now).repeaters) }
    ensures times { IfOk result (λ made. All (λ s. s.t ≡ 0) made.senders.items) }
    ensures steps { IfOk result (λ made. All (λ r. r.steps ≡ 0) made.receivers.items) }
    ensures sending { IfOk result (λ made. length made.senders.items ≡ length plan.now.layout.stations) }
    ensures receiving { IfOk result (λ made. length made.receivers.items ≡ length plan.now.layout.stations) }
{
    let layout = &plan.layout;
    let most = most_octets(layout.format == 2);
    Ok(Devices {
        senders: new_transmitters(alloc, layout.seed, plan.queues.as_slice())?,
        receivers: new_receivers(alloc, most, layout.stations.as_slice())?,
        relays: new_relays(alloc, layout.repeaters.as_slice())?,
    })
}

/// The devices of a plan that go on from a state.
#[tactic(auto, using(network::proofs::RunnablePlans::runnable_plan))]
pub fn resumed_devices(alloc: Global, plan: &Plan, state: &NetState) -> Result<Devices, OutOfMemory>
    requires { IsResumable plan.now state.now }
    ensures senders { IfOk result (λ made. made.senders.items ≡ (net_of plan.now state.now).senders) }
    ensures receivers { IfOk result (λ made. AllHear (net_of plan.now state.now).receivers made.receivers.items) }
    ensures repeaters { IfOk result (λ made. made.relays.items ≡ (net_of plan.now state.now).repeaters) }
    ensures times { IfOk result (λ made. All (λ s. s.t ≡ state.now.t) made.senders.items) }
    ensures steps { IfOk result (λ made. All (λ r. r.steps ≡ state.now.t) made.receivers.items) }
    ensures sending { IfOk result (λ made. length made.senders.items ≡ length plan.now.layout.stations) }
    ensures receiving { IfOk result (λ made. length made.receivers.items ≡ length plan.now.layout.stations) }
{
    let layout = &plan.layout;
    let most = most_octets(layout.format == 2);
    let states = state.senders.as_slice();
    let guards = state.guards.as_slice();
    let rests = state.rests.as_slice();
    Ok(Devices {
        senders: resumed_transmitters(alloc, layout.seed, state.t, plan.queues.as_slice(), states)?,
        receivers: resumed_receivers(alloc, most, state.t, layout.stations.as_slice())?,
        relays: resumed_relays(alloc, layout.repeaters.as_slice(), guards, rests)?,
    })
}

/// The segments from number 0 to below `count`, with these taps, before half bit 0.
pub fn new_segments(
    alloc: Global,
    count: usize,
    taps: &[PortLine],
) -> Result<Vec<SegmentCable>, OutOfMemory>
    requires few { length taps.now < 2 ^ 32 }
    requires near { All (λ x. x.at ≤ greatest_place) taps.now }
    ensures { IfOk result (λ segments. segments.items ≡ map (new_wire taps.now) (range_with_len 0 count)) }
{
    let mut segments = Vec::new(alloc);
    for segment in 0..count {
        segments.push(SegmentCable::new(alloc, taps, segment)?)?;
    }
    Ok(segments)
}

/// No captures yet of these stations.
pub fn no_captures(alloc: Global, stations: &[StationLine]) -> Result<Vec<TakenList>, OutOfMemory>
    ensures { IfOk result (λ captures. captures.items ≡ map (λ s. []) stations.now) }
{
    let mut captures = Vec::new(alloc);
    for _station in stations {
        captures.push(TakenList::new(alloc))?;
    }
    Ok(captures)
}

/// The captures of a state, one for each station.
pub fn resumed_captures(alloc: Global, captures: Captures) -> Result<Vec<TakenList>, OutOfMemory>
    ensures { IfOk result (λ all. all.items ≡ captures) }
{
    let mut rest = captures;
    let mut all = Vec::with_capacity(alloc, rest.len())?;
    while let Some(taken) = rest.pop() {
        all.push(taken)?;
    }
    all.reverse();
    Ok(all)
}
