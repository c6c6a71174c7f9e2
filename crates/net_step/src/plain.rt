//! The network on one thread.
ghost use Rattle.std.specs.Prelude.{◌≡◌, ◌<◌, ◌≤◌, ◌+◌, ◌-◌, ◌*◌, ◌^◌, ◌++◌, All, length, map, take, IfOk, OnOk};
ghost use Rattle.mac_parameters.specs.Parameters.{most_half_bits};
ghost use Rattle.network.specs.Outputs.{cut_rows, half_bits, rows, captures};
ghost use Rattle.net_step.specs.KeptNet.{kept_tap_number, Stands};
ghost use Rattle.network.specs.Net.{ports_of, Net};
ghost use Rattle.quiet_state.specs.Resumed.{later_net, net_state};

use crate::devices::{new_devices, new_segments, no_captures, resumed_captures, resumed_devices};
use crate::leaps::{
    calm_relays, calm_senders, leap_receivers, leap_relays, leap_senders, none_receives,
};
use crate::passes::{capture_all, carry_all, hear_all, join, relay_all, step_stations};
use crate::places::{TapOnSegment, places_of};
use crate::relay::Relay;
use crate::rows::{log_all, log_cut};
use crate::segment::SegmentCable;
use crate::settling::Settling;
use crate::states::{all_idle, all_still, guards_of, none_sends, rests_of, states_of};
use collision_log::{Body, Rows};
use layout::taps_of;
use lists::OutOfMemory;
use load_plan::Plan;
use mac_parameters::GREATEST_PLACE;
use mac_receive::Receiver;
use mac_transmit::{Phase, Transmitter};
use manchester_line::Sym;
use network::{Captures, Outputs, TakenList};
use quiet_state::NetState;
use repeater_core::{Mode, RepeaterEvents};
use std::alloc::Global;
use std::marker::Model;

/// A repeater at which nothing happens.
const NOTHING: RepeaterEvents = RepeaterEvents {
    clash: false,
    closed: 0,
    opened: 0,
    halted: 0,
};

/// The symbols of a half bit, as `PlainNet` keeps them.
#[derive(Drop)]
struct HalfBitSymbols {
    heard: Vec<Sym>,
    emitted: Vec<Sym>,
    port_emitted: Vec<Sym>,
    decided: Vec<Sym>,
    row: Vec<Sym>,
}

/// The events of a half bit: one of each kind for each station, and one for each repeater.
#[derive(Drop)]
struct HalfBitEvents {
    sent: Vec<Option<Body>>,
    received: Vec<Option<Body>>,
    repeaters: Vec<RepeaterEvents>,
}

/// No symbols, for so many taps, of which the first ones are the stations'.
fn idle_symbols(alloc: Global, taps: usize, stations: usize) -> Result<HalfBitSymbols, OutOfMemory>
    requires { stations ≤ taps }
    ensures heard { IfOk result (λ made. length made.heard.items ≡ taps) }
    ensures emitted { IfOk result (λ made. length made.emitted.items ≡ stations) }
    ensures port_emitted { IfOk result (λ made. length made.port_emitted.items ≡ taps - stations) }
    ensures decided { IfOk result (λ made. length made.decided.items ≡ taps - stations) }
    ensures row { IfOk result (λ made. length made.row.items ≡ taps) }
{
    let ports = taps - stations;
    Ok(HalfBitSymbols {
        heard: vec![in alloc; Sym::Idle; taps]?,
        emitted: vec![in alloc; Sym::Idle; stations]?,
        port_emitted: vec![in alloc; Sym::Idle; ports]?,
        decided: vec![in alloc; Sym::Idle; ports]?,
        row: vec![in alloc; Sym::Idle; taps]?,
    })
}

/// No events, for so many stations and repeaters.
fn no_events(alloc: Global, stations: usize, repeaters: usize) -> Result<HalfBitEvents, OutOfMemory>
    ensures sent { IfOk result (λ made. length made.sent.items ≡ stations) }
    ensures received { IfOk result (λ made. length made.received.items ≡ stations) }
    ensures repeaters { IfOk result (λ made. length made.repeaters.items ≡ repeaters) }
{
    Ok(HalfBitEvents {
        sent: vec![in alloc; None; stations]?,
        received: vec![in alloc; None; stations]?,
        repeaters: vec![in alloc; NOTHING; repeaters]?,
    })
}

/// A network, stepped half bit by half bit: its stations' senders and receivers, its repeaters and its segments.
/// `heard` and `row` have a symbol for each tap, the stations' taps first; `emitted` has one for each station, and
/// `port_emitted` and `decided` one for each port. `settling` knows from when on all signals so far are over.
#[derive(Drop)]
pub struct PlainNet {
    alloc: Global,
    t: u64,
    senders: Vec<Transmitter>,
    receivers: Vec<Receiver>,
    relays: Vec<Relay>,
    segments: Vec<SegmentCable>,
    places: Vec<TapOnSegment>,
    heard: Vec<Sym>,
    emitted: Vec<Sym>,
    port_emitted: Vec<Sym>,
    decided: Vec<Sym>,
    row: Vec<Sym>,
    sent: Vec<Option<Body>>,
    received: Vec<Option<Body>>,
    events: Vec<RepeaterEvents>,
    rows: Rows,
    captures: Vec<TakenList>,
    settling: Settling,
}

impl Model for PlainNet {
    ghost use Rattle.std.specs.Prelude.{length};
    ghost use Rattle.net_step.specs.KeptNet.{KeptNet, IsWhole};

    ghost Value = { KeptNet };

    ghost view = { λ p. record { t = p.t; senders = p.senders.items; receivers = p.receivers.items; repeaters = p.relays.items; wires = p.segments.items; places = p.places.items; rows = p.rows; captures = p.captures.items; reaches = p.settling.reaches.items; delays = p.settling.delays.items; settled = p.settling.settled } };

    ghost invariant = { λ p. IsWhole (record { t = p.t; senders = p.senders.items; receivers = p.receivers.items; repeaters = p.relays.items; wires = p.segments.items; places = p.places.items; rows = p.rows; captures = p.captures.items; reaches = p.settling.reaches.items; delays = p.settling.delays.items; settled = p.settling.settled })
        (length p.heard.items) (length p.emitted.items) (length p.port_emitted.items) (length p.decided.items) (length p.row.items) (length p.sent.items) (length p.received.items) (length p.events.items) };
}

/// The same captures as a list.
fn listed(alloc: Global, captures: Vec<TakenList>) -> Result<Captures, OutOfMemory>
    ensures { IfOk result (λ list. list ≡ captures.items) }
{
    let mut list = Captures::new(alloc);
    for taken in captures {
        list.push(taken)?;
    }
    Ok(list)
}

/// The rows and captures of a run that ends before half bit `t`, where the net has these.
fn ended(
    alloc: Global,
    t: u64,
    senders: &[Transmitter],
    rows: Rows,
    captures: Vec<TakenList>,
) -> Result<Outputs, OutOfMemory>
    requires { length senders.now < 2 ^ 32 }
    ensures rows { IfOk result (λ outputs. outputs.rows ≡ rows ++ cut_rows t 0 senders.now) }
    ensures captures { IfOk result (λ outputs. outputs.captures ≡ captures.items) }
{
    let mut all = rows;
    log_cut(t, senders, &mut all)?;
    Ok(Outputs {
        rows: all,
        captures: listed(alloc, captures)?,
    })
}

/// The state that a network before half bit `t` goes on from, which has these devices, rows and captures.
fn left_state(
    alloc: Global,
    t: u64,
    senders: &[Transmitter],
    relays: &[Relay],
    logs: (Rows, Vec<TakenList>),
) -> Result<NetState, OutOfMemory>
    ensures { (n : Net) → t ≡ n.t → senders.now ≡ n.senders → relays.now ≡ n.repeaters → logs.0 ≡ n.rows → logs.1.items ≡ n.captures → IfOk result (λ state. state ≡ net_state n) }
{
    Ok(NetState {
        t,
        senders: states_of(alloc, senders)?,
        guards: guards_of(alloc, relays)?,
        rests: rests_of(alloc, relays)?,
        rows: logs.0,
        captures: listed(alloc, logs.1)?,
    })
}

/// The ports of the first `count` of these repeaters.
fn ports_before(relays: &[Relay], count: usize) -> usize
    requires within { count ≤ length relays.now }
    requires few { length relays.now < 2 ^ 32 }
    ensures ports { result ≡ ports_of (take count relays.now) }
    ensures few { result ≤ 32 * count }
{
    let mut ports = 0;
    let before = &relays[..count];
    for relay in before {
        ports += relay.ports();
    }
    ports
}

/// The number of a tap among all taps, of which the stations' come first.
fn tap_number(stations: usize, relays: &[Relay], device: usize, port: usize) -> usize
    requires within { device < stations + length relays.now }
    requires few { stations + length relays.now < 2 ^ 32 }
    requires port { port < 2 ^ 32 }
    ensures { result ≡ kept_tap_number stations relays.now device port }
{
    if device < stations {
        return device;
    }
    stations + ports_before(relays, device - stations) + port
}

impl PlainNet {
    ghost use Rattle.std.specs.Prelude.{◌≡◌, ◌<◌, ◌≤◌, ◌+◌, ◌-◌, ◌^◌, ◌++◌, ◌↔◌, ℕ, length, map, All, OnOk, IfOk, IsTrue, slice_index_or};
    ghost use Rattle.mac_parameters.specs.Parameters.{most_half_bits};
    ghost use Rattle.load_plan.specs.declared.plan.Plan.{Plan};
    ghost use Rattle.mac_transmit.specs.Sender.{Sender};
    ghost use Rattle.repeater_core.specs.Counts.{resting_count};
    ghost use Rattle.repeater_core.specs.Step.{RepeaterDevice, new_state};
    ghost use Rattle.manchester_line.specs.declared.Sym.TheVariants.{Idle};
    ghost use Rattle.network.specs.Net.{Net, net, next, heard_in};
    ghost use Rattle.network.specs.Outputs.{cut_rows};
    ghost use Rattle.net_step.specs.CalmNets.{IsCalmNet, IsSilentHalfBit};
    ghost use Rattle.net_step.specs.KeptNet.{IsNextKept, IsSilentNet, Stands, IsKeptTap, kept_tap_number};
    ghost use Rattle.quiet_state.specs.LastSignals.{IsQuietAsKept};
    ghost use Rattle.quiet_state.specs.PlanStates.{IsResumable};
    ghost use Rattle.quiet_state.specs.Resumed.{captures_to, later_net, net_of, net_state, rows_to};

    /// The network of a plan with these devices before half bit `t`, in which all earlier symbols were Idle.
    fn with_devices(
        alloc: Global,
        plan: &Plan,
        t: u64,
        stations: (Vec<Transmitter>, Vec<Receiver>),
        relays: Vec<Relay>,
        logs: (Rows, Vec<TakenList>),
    ) -> Result<PlainNet, OutOfMemory>
        requires senders { length stations.0.items ≡ length plan.now.layout.stations }
        requires receivers { length stations.1.items ≡ length plan.now.layout.stations }
        requires captures { length logs.1.items ≡ length plan.now.layout.stations }
        requires ports { map (λ r. length r.guards) relays.items ≡ map (λ r. length r.ports) plan.now.layout.repeaters }
        requires times { All (λ s. s.t ≡ t) stations.0.items }
        requires steps { All (λ r. r.steps ≡ t) stations.1.items }
        ensures silent { IfOk result (λ made. IsSilentNet plan.now made) }
        ensures time { IfOk result (λ made. made.t ≡ t) }
        ensures senders { IfOk result (λ made. made.senders ≡ stations.0.items) }
        ensures receivers { IfOk result (λ made. made.receivers ≡ stations.1.items) }
        ensures repeaters { IfOk result (λ made. made.repeaters ≡ relays.items) }
        ensures rows { IfOk result (λ made. made.rows ≡ logs.0) }
        ensures captures { IfOk result (λ made. made.captures ≡ logs.1.items) }
    {
        let taps = taps_of(alloc, &plan.layout)?;
        let count = plan.layout.stations.len();
        let symbols = idle_symbols(alloc, taps.len(), count)?;
        let events = no_events(alloc, count, relays.len())?;
        Ok(PlainNet {
            alloc,
            t,
            senders: stations.0,
            receivers: stations.1,
            segments: new_segments(alloc, plan.layout.segments.len(), &taps)?,
            places: places_of(alloc, &taps)?,
            heard: symbols.heard,
            emitted: symbols.emitted,
            port_emitted: symbols.port_emitted,
            decided: symbols.decided,
            row: symbols.row,
            sent: events.sent,
            received: events.received,
            events: events.repeaters,
            rows: logs.0,
            captures: logs.1,
            settling: Settling::new(alloc, &taps, plan.layout.repeaters.as_slice())?,
            relays,
        })
    }

    /// The network of a plan before half bit 0.
    #[tactic(auto, using(network::proofs::RunnablePlans::runnable_plan))]
    pub fn new(alloc: Global, plan: &Plan) -> Result<PlainNet, OutOfMemory>
        ensures stands { IfOk result (λ made. Stands (net plan.now 0) made) }
        ensures time { IfOk result (λ made. made.t ≡ 0) }
    {
        let made = new_devices(alloc, plan)?;
        let logs = (
            Rows::new(alloc),
            no_captures(alloc, plan.layout.stations.as_slice())?,
        );
        let stations = (made.senders, made.receivers);
        let whole = PlainNet::with_devices(alloc, plan, 0, stations, made.relays, logs)?;
        Ok(whole)
    }

    /// The network of a plan that goes on from a state, in which all earlier symbols were Idle.
    #[tactic(auto, using(network::proofs::RunnablePlans::runnable_plan))]
    pub fn resume(alloc: Global, plan: &Plan, state: NetState) -> Result<PlainNet, OutOfMemory>
        requires { IsResumable plan.now state }
        ensures stands { IfOk result (λ made. Stands (net_of plan.now state) made) }
        ensures time { IfOk result (λ made. made.t ≡ state.t) }
    {
        let t = state.t;
        let made = resumed_devices(alloc, plan, &state)?;
        let logs = (state.rows, resumed_captures(alloc, state.captures)?);
        let stations = (made.senders, made.receivers);
        let whole = PlainNet::with_devices(alloc, plan, t, stations, made.relays, logs)?;
        Ok(whole)
    }

    /// What a tap hears in the half bit that the next step makes. A station is a device with port 0; the repeaters'
    /// devices follow the stations, and their ports count from 0.
    pub fn heard(&self, device: u32, port: u32) -> Sym
        requires { IsKeptTap self.now device port }
        ensures { (n : Net) → Stands n self.now → result ≡ slice_index_or (heard_in n) (kept_tap_number (length n.senders) n.repeaters device port) Idle }
    {
        let stations = self.senders.len();
        let tap = tap_number(stations, &self.relays, device as usize, port as usize);
        let place = self.places[tap];
        self.segments[place.segment as usize].heard(place.local)
    }

    /// What the sender of a station, counted from 0, is doing.
    pub fn phase(&self, station: u32) -> Phase
        requires { station < length self.now.senders }
        ensures { (d : Sender) → result ≡ (slice_index_or self.now.senders station d).phase }
    {
        self.senders[station as usize].phase()
    }

    /// The mode of a repeater, counted from 0.
    pub fn mode(&self, repeater: u32) -> Mode
        requires { repeater < length self.now.repeaters }
        ensures { (d : RepeaterDevice) → result ≡ (slice_index_or self.now.repeaters repeater d).mode }
    {
        self.relays[repeater as usize].mode()
    }

    /// The half bits of rest that a port of a repeater has left, both counted from 0.
    pub fn rest(&self, repeater: u32, port: u32) -> u32
        requires repeater { repeater < length self.now.repeaters }
        requires port { port < length (slice_index_or self.now.repeaters repeater (new_state 0 0)).guards }
        ensures { (d : RepeaterDevice) → result ≡ (slice_index_or (slice_index_or self.now.repeaters repeater d).counts port (resting_count 0)).rest }
    {
        self.relays[repeater as usize].rest(port)
    }

    /// The next half bit. After an `Err` the net is only dropped.
    fn go_on(&mut self) -> Result<(), OutOfMemory>
        requires { self.old.t < most_half_bits }
        ensures { OnOk result (IsNextKept self.old self.new) }
    {
        let t = self.t;
        hear_all(&self.segments, &self.places, &mut self.heard);
        let (heard, ports_heard) = self.heard.split_at(self.senders.len());
        step_stations(
            t,
            &mut self.senders,
            &mut self.receivers,
            heard,
            &mut self.emitted,
            &mut self.sent,
            &mut self.received,
        );
        relay_all(
            &mut self.relays,
            ports_heard,
            &mut self.port_emitted,
            &mut self.decided,
            &mut self.events,
        );
        join(&self.emitted, &self.port_emitted, &mut self.row);
        carry_all(&mut self.segments, &self.row);
        self.settling.pass(t, &self.row, &self.decided);
        self.t = t + 1;
        log_all(
            t,
            &self.sent,
            &self.received,
            &self.relays,
            &self.events,
            &mut self.rows,
        )?;
        capture_all(
            self.alloc,
            t,
            &self.received,
            &self.receivers,
            &mut self.captures,
        )
    }

    /// One half bit: a net that stands for a state of the network stands for the next one, and so one that
    /// stands for `net plan t` stands for `net plan (t + 1)`. After an `Err` the net is only dropped.
    pub fn step(&mut self) -> Result<(), OutOfMemory>
        requires { self.old.t < most_half_bits }
        ensures stands { (n : Net) → Stands n self.old → OnOk result (Stands (next n) self.new) }
        ensures time { OnOk result (self.new.t ≡ self.old.t + 1) }
    {
        self.go_on()
    }

    /// For how many half bits, at most `most`, nothing happens in the whole network; 0 says nothing.
    fn calm(&self, most: u64) -> u64
        requires { self.now.t < most_half_bits }
        ensures within { result ≤ most }
        ensures calm { 0 < result → IsCalmNet result self.now }
    {
        let heard_from = self.t.saturating_sub(u64::from(GREATEST_PLACE));
        if heard_from < self.settling.settled {
            return 0;
        }
        if !none_receives(&self.receivers) {
            return 0;
        }
        let calm = calm_senders(self.t, &self.senders, most);
        calm_relays(&self.relays, calm)
    }

    /// Goes over so many half bits in which nothing happens.
    fn leap(&mut self, count: u64)
        requires calm { IsCalmNet count self.old }
        requires in_time { self.old.t + count ≤ most_half_bits }
        ensures stands { (n : Net) → Stands n self.old → Stands (later_net n count) self.new }
        ensures time { self.new.t ≡ self.old.t + count }
        ensures silent { (n : Net) → Stands n self.old → (i : ℕ) → i < count → IsSilentHalfBit (later_net n i) }
    {
        let t = self.t;
        leap_senders(t, count, &mut self.senders);
        leap_receivers(t, count, &mut self.receivers);
        leap_relays(count, &mut self.relays);
        self.t = t + count;
    }

    /// Goes on by a half bit, or over all half bits at once in which nothing happens, but not beyond half bit `until`:
    /// the half bit before which the net is then. After an `Err` the net is only dropped.
    fn advance(&mut self, until: u64) -> Result<u64, OutOfMemory>
        requires before { self.old.t < until }
        requires short { until ≤ most_half_bits }
        ensures stands { IfOk result (λ t. (n : Net) → Stands n self.old → Stands (later_net n (t - self.old.t)) self.new) }
        ensures time { IfOk result (λ t. self.new.t ≡ t) }
        ensures later { IfOk result (λ t. self.old.t < t) }
        ensures within { IfOk result (λ t. t ≤ until) }
    {
        let t = self.t;
        let count = self.calm(until - t);
        if count > 0 {
            self.leap(count);
            return Ok(t + count);
        }
        self.step()?;
        Ok(t + 1)
    }

    /// Goes over half bits in which nothing happens, if the next ones are such, but not beyond half bit `until`: the
    /// half bit before which the net is then. In those that it went over no tap emits.
    pub fn pass_silence(&mut self, until: u64) -> u64
        requires before { self.old.t < until }
        requires short { until ≤ most_half_bits }
        ensures stands { (n : Net) → Stands n self.old → Stands (later_net n (result - self.old.t)) self.new }
        ensures time { self.new.t ≡ result }
        ensures later { self.old.t ≤ result }
        ensures within { result ≤ until }
        ensures silent { (n : Net) → Stands n self.old → (i : ℕ) → i < result - self.old.t → IsSilentHalfBit (later_net n i) }
    {
        let t = self.t;
        let count = self.calm(until - t);
        if count > 0 {
            self.leap(count);
            return t + count;
        }
        t
    }

    /// Goes on to before half bit `until`. A net that stands for a state of the network stands for the one as many half
    /// bits later; half bits in which nothing happens are passed over many at once. After an `Err` the net is only
    /// dropped.
    pub fn go_to(&mut self, until: u64) -> Result<(), OutOfMemory>
        requires begun { self.old.t ≤ until }
        requires short { until ≤ most_half_bits }
        ensures stands { (n : Net) → Stands n self.old → OnOk result (Stands (later_net n (until - self.old.t)) self.new) }
        ensures time { OnOk result (self.new.t ≡ until) }
    {
        let t = self.t;
        run_to(self, t, until)
    }

    /// Whether the half bit that the next step makes is quiet: nothing is under way at any device, on any cable or in
    /// any repeater's delay.
    pub fn quiet(&self) -> bool
        ensures { (n : Net) → Stands n self.now → IsTrue result ↔ IsQuietAsKept n }
    {
        if self.t < self.settling.settled {
            return false;
        }
        if !none_sends(&self.senders) || !all_still(&self.receivers) {
            return false;
        }
        all_idle(&self.relays)
    }

    /// The state that the network goes on from where it is quiet.
    pub fn state(self) -> Result<NetState, OutOfMemory>
        ensures { (n : Net) → Stands n self → IfOk result (λ state. state ≡ net_state n) }
    {
        let logs = (self.rows, self.captures);
        left_state(self.alloc, self.t, &self.senders, &self.relays, logs)
    }

    /// The rows and captures of a run that ends before half bit `t`.
    fn outputs(self) -> Result<Outputs, OutOfMemory>
        ensures rows { IfOk result (λ outputs. outputs.rows ≡ self.rows ++ cut_rows self.t 0 self.senders) }
        ensures captures { IfOk result (λ outputs. outputs.captures ≡ self.captures) }
    {
        let rows = self.rows;
        let captures = self.captures;
        ended(self.alloc, self.t, &self.senders, rows, captures)
    }

    /// Goes on to the end of a run of so many half bits: its rows and captures.
    pub fn finish(self, half_bits: u64) -> Result<Outputs, OutOfMemory>
        requires begun { self.t ≤ half_bits }
        requires short { half_bits ≤ most_half_bits }
        ensures rows { (n : Net) → Stands n self → IfOk result (λ outputs. outputs.rows ≡ rows_to half_bits n) }
        ensures captures { (n : Net) → Stands n self → IfOk result (λ outputs. outputs.captures ≡ captures_to half_bits n) }
    {
        let mut whole = self;
        whole.go_to(half_bits)?;
        whole.outputs()
    }
}

/// A network before half bit `t` goes on to before half bit `until`.
fn run_to(whole: &mut PlainNet, t: u64, until: u64) -> Result<(), OutOfMemory>
    requires now { whole.old.t ≡ t }
    requires begun { t ≤ until }
    requires short { until ≤ most_half_bits }
    ensures stands { (n : Net) → Stands n whole.old → OnOk result (Stands (later_net n (until - t)) whole.new) }
    ensures time { OnOk result (whole.new.t ≡ until) }
{
    let mut now = t;
    while now < until {
        now = whole.advance(until)?;
    }
    Ok(())
}

/// Runs a plan to its end.
#[tactic(auto, unfolding(network::specs::Outputs::rows, network::specs::Outputs::captures), using(network::proofs::RunnablePlans::runnable_plan))]
pub fn run_plain(alloc: Global, plan: &Plan) -> Result<Outputs, OutOfMemory>
    ensures rows { IfOk result (λ outputs. outputs.rows ≡ rows plan.now) }
    ensures captures { IfOk result (λ outputs. outputs.captures ≡ captures plan.now) }
{
    let mut whole = PlainNet::new(alloc, plan)?;
    whole.go_to(plan.layout.half_bits())?;
    whole.outputs()
}
