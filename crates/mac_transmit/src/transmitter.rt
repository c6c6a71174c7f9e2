//! A station's sender.
ghost use Rattle.std.specs.Prelude.{◌≡◌, ◌<◌, ◌≤◌, ◌^◌, ◌&&◌, nat_lt, nat_le, length};
ghost use Rattle.mac_parameters.specs.Parameters.{least_frame};
ghost use Rattle.manchester_line.specs.declared.Sym.{Sym};
ghost use Rattle.manchester_line.specs.declared.Sym.TheVariants.{Idle};
ghost use Rattle.mac_transmit.specs.Sender.{frame_at, ready_at, HasItsFrame, symbol_emitted};
ghost use Rattle.mac_transmit.specs.Calm.{up_to_most};

use crate::cases::{carrier_leapt, carrier_since, length_with, new_hit, phase_with_hit, symbol_at};
use crate::deference::{defer_leapt, gap_to_wait};
use crate::turn::take_turn;
use crate::{Defer, Phase, SenderState};
use backoff_draw::Draws;
use collision_log::Body;
use frame_layout::{Frame, Queue};
use mac_parameters::{ATTEMPT_LIMIT, SLOT_TIME};
use manchester_line::Sym;
use std::marker::Model;

/// The most half bits of a leap (profile).
const MOST_CALM: u64 = 4096;

/// What a half bit of a sender gives.
#[derive(Clone, Copy)]
pub struct SendStep {
    pub emitted: Sym,
    pub event: Option<Body>,
}

/// A station's sender with the frames that it has to send.
#[derive(Drop)]
pub struct Transmitter {
    queue: Queue,
    draws: Draws,
    drawn: u32,
    t: u64,
    place: u32,
    phase: Phase,
    defer: Defer,
    attempt: u32,
    last_end: Option<u64>,
    carrier_from: u64,
}

impl Model for Transmitter {
    ghost use Rattle.std.specs.Prelude.{◌≡◌};
    ghost use Rattle.mac_transmit.specs.Sender.{Sender, IsSender};

    ghost Value = { Sender };

    ghost view = { λ s. record { queue = s.queue; draws = s.draws; t = s.t; place = s.place; phase = s.phase; defer = s.defer; attempt = s.attempt; last_end = s.last_end; carrier_from = s.carrier_from } };

    ghost invariant = { λ s. IsSender (record { queue = s.queue; draws = s.draws; t = s.t; place = s.place; phase = s.phase; defer = s.defer; attempt = s.attempt; last_end = s.last_end; carrier_from = s.carrier_from }) × (s.drawn ≡ s.draws.made) };
}

/// The octets of the frame at a place of a queue.
#[tactic(auto, unfolding(crate::specs::Sender::frame_at))]
fn frame_octets(queue: &Queue, place: u32) -> &[u8]
    requires { place < length queue.now }
    ensures octets { result.now ≡ frame_at queue.now place }
    ensures least { least_frame ≤ length result.now }
    ensures short { length result.now ≤ 1600 }
{
    queue.get(place).frame.octets()
}

/// Whether the frame at a place of a queue may be sent at half bit `t`.
#[tactic(auto, unfolding(crate::specs::Sender::ready_at))]
fn is_ready(queue: &Queue, place: u32, t: u64) -> bool
    ensures { result ≡ (nat_lt place (length queue.now) && nat_le (ready_at queue.now place) t) }
{
    place < queue.len() && queue.get(place).at <= t
}

fn at_most(change: Option<u64>) -> u64
    ensures number { result ≡ up_to_most change }
    ensures within { result ≤ 4096 }
{
    match change {
        None => MOST_CALM,
        Some(n) => n.min(MOST_CALM),
    }
}

/// The symbol that a station in this phase emits in half bit `t`.
#[tactic(auto, unfolding(crate::specs::Sender::symbol_emitted))]
fn emission(queue: &Queue, place: u32, t: u64, phase: Phase, carrier: bool) -> Sym
    requires time { t < 2 ^ 32 }
    requires frame { HasItsFrame (nat_lt place (length queue.now)) phase }
    ensures { result ≡ symbol_emitted (frame_at queue.now place) t phase carrier }
{
    let Phase::Sending { start, hit } = phase else {
        return Sym::Idle;
    };
    let p = t.saturating_sub(start);
    symbol_at(frame_octets(queue, place), new_hit(hit, carrier, p), p)
}

impl Transmitter {
    ghost use Rattle.std.specs.Prelude.{◌≡◌, ◌≢◌, ◌<◌, ◌≤◌, ◌+◌, ◌&&◌, nat_lt, nat_le, true, false, length, IfSome, IsNone, ◌↔◌};
    ghost use Rattle.mac_parameters.specs.Parameters.{interframe_gap, most_draws, most_half_bits};
    ghost use Rattle.manchester_line.specs.declared.Sym.TheVariants.{Clash};
    ghost use Rattle.mac_transmit.specs.Laws.{end_after, carrier_after, StartsAt, IsAway, IsLongEnough};
    ghost use Rattle.mac_transmit.specs.Calm.{change_in, AreOverBefore, calm_of, AllHeardAs, AreCalm, after_all, leapt};
    ghost use Rattle.std.specs.Prelude.{List};
    ghost use Rattle.mac_transmit.specs.Emissions.{emission_by};
    ghost use Rattle.mac_transmit.specs.Resuming.{state_of, resumed_sender, IsStateOf};
    ghost use Rattle.mac_transmit.specs.Sender.{new_sender, finished, event_from, promoted, after_turn, emitted_from, emitting, sender_step, cut_of, frame_at, ready_at, is_sending, IsSender};
    ghost use Rattle.manchester_line.specs.Line.{is_signal};

    /// The sender of a queue before half bit 0, with draws of which none was made yet.
    pub fn new(queue: Queue, draws: Draws) -> Transmitter
        requires { draws.made ≡ 0 }
        ensures { result ≡ new_sender queue draws }
    {
        Transmitter {
            queue,
            draws,
            drawn: 0,
            t: 0,
            place: 0,
            phase: Phase::Rest,
            defer: Defer::Watch,
            attempt: 1,
            last_end: None,
            carrier_from: 0,
        }
    }

    /// The state from which a sender can go on later, given a half bit, its queue and its draws. A sender that isn't
    /// sending, and that made at most 2,000,000,000 draws, can.
    pub fn state(&self) -> SenderState
        ensures state { result ≡ state_of self.now }
        ensures ranges { is_sending self.now.phase ≡ false → self.now.draws.made ≤ most_draws → IsStateOf self.now.queue result }
    {
        SenderState {
            phase: self.phase,
            defer: self.defer,
            attempt: self.attempt,
            place: self.place,
            drawn: self.drawn,
        }
    }

    /// The sender of a queue before half bit `t` that goes on from this state, with draws whose next is the one that
    /// the state numbers. What its laws say of earlier sendings and of what was heard begins anew.
    pub fn resume(queue: Queue, draws: Draws, t: u64, state: SenderState) -> Transmitter
        requires in_time { t ≤ most_half_bits }
        requires next_draw { draws.made ≡ state.drawn }
        requires ranges { IsStateOf queue state }
        ensures { result ≡ resumed_sender queue draws t state }
    {
        Transmitter {
            queue,
            draws,
            drawn: state.drawn,
            t,
            place: state.place,
            phase: state.phase,
            defer: state.defer,
            attempt: state.attempt,
            last_end: None,
            carrier_from: t,
        }
    }

    /// A sending whose length is reached gives its event.
    #[tactic(auto, unfolding(crate::specs::Sender::finished, crate::specs::Sender::event_from), using(crate::proofs::SenderInvariant::draw_below))]
    fn finish(&mut self) -> Option<Body>
        ensures state { self.new ≡ finished self.old }
        ensures time { self.new.t ≡ self.old.t }
        ensures event { result ≡ event_from self.old self.old.phase }
        ensures end { self.new.last_end ≡ end_after self.old.last_end self.old.t result }
        ensures carrier_from { self.new.carrier_from ≡ self.old.carrier_from }
        ensures length { IsLongEnough self.old.t result }
    {
        let Phase::Sending { start, hit } = self.phase else {
            return None;
        };
        let length = length_with(frame_octets(&self.queue, self.place), hit);
        if self.t < start + length {
            return None;
        }
        self.last_end = Some(self.t);
        let frame = self.place + 1;
        let attempt = self.attempt;
        let Some(hit) = hit else {
            self.place = frame;
            self.phase = Phase::Rest;
            return Some(Body::Sent {
                frame,
                start,
                attempt,
            });
        };
        if attempt == ATTEMPT_LIMIT {
            self.place = frame;
            self.phase = Phase::Rest;
            return Some(Body::GivenUp { frame, start, hit });
        }
        let drawn = self.draws.draw(attempt);
        self.drawn += 1;
        self.phase = Phase::Backoff {
            until: self.t + u64::from(SLOT_TIME) * u64::from(drawn),
        };
        self.attempt = attempt + 1;
        Some(Body::Collided {
            frame,
            start,
            attempt,
            hit,
            drawn,
        })
    }

    /// A frame that is ready, or a backoff that is over.
    #[tactic(auto, unfolding(crate::specs::Sender::promoted))]
    fn promote(&mut self)
        ensures state { self.new ≡ promoted self.old }
        ensures time { self.new.t ≡ self.old.t }
        ensures end { self.new.last_end ≡ self.old.last_end }
        ensures carrier_from { self.new.carrier_from ≡ self.old.carrier_from }
    {
        match self.phase {
            Phase::Rest => {
                if is_ready(&self.queue, self.place, self.t) {
                    self.phase = Phase::Waiting;
                    self.attempt = 1;
                }
            }
            Phase::Backoff { until } => {
                if until <= self.t {
                    self.phase = Phase::Waiting;
                }
            }
            _ => {}
        }
    }

    /// Deference, the start of a waiting station that is free, and what is emitted.
    #[tactic(auto, unfolding(crate::specs::Sender::deferring, crate::specs::Sender::is_free, crate::specs::Sender::sending_started, crate::specs::Sender::emitting, crate::specs::Sender::emitted_from))]
    fn go_on(&mut self, carrier: bool) -> Sym
        requires { self.old.t < most_half_bits }
        ensures state { self.new ≡ emitting (after_turn self.old carrier) carrier }
        ensures time { self.new.t ≡ self.old.t + 1 }
        ensures emitted { result ≡ emitted_from (after_turn self.old carrier) (after_turn self.old carrier).phase carrier }
        ensures end { self.new.last_end ≡ self.old.last_end }
        ensures carrier_from { self.new.carrier_from ≡ carrier_after self.old.carrier_from self.old.t carrier }
        ensures gap { StartsAt self.old.t self.new.phase → IsAway self.old.last_end interframe_gap self.old.t }
        ensures deaf_gap { StartsAt self.old.t self.new.phase → carrier ≡ true → self.old.t < self.old.carrier_from + interframe_gap }
        ensures no_clash { result ≢ Clash }
    {
        let t = self.t;
        let turn = take_turn(t, self.phase, self.defer, carrier);
        let emitted = emission(&self.queue, self.place, t, turn.phase, carrier);
        self.phase = phase_with_hit(t, turn.phase, carrier);
        self.defer = turn.defer;
        self.carrier_from = carrier_since(self.carrier_from, t, carrier);
        self.t = t + 1;
        emitted
    }

    /// Half bit `t`, the one after the last that was stepped or leapt, in which the station hears this symbol
    /// (IEEE 802.3, 4.2.3 and 4.2.8). It begins at 0, or where the sender goes on, and is below 2,000,000,000.
    #[tactic(auto, unfolding(crate::specs::Sender::sender_step))]
    pub fn step(&mut self, t: u64, heard: Sym) -> SendStep
        requires time { t ≡ self.old.t }
        requires in_time { t < most_half_bits }
        ensures state { self.new ≡ (sender_step self.old heard).state }
        ensures time { self.new.t ≡ self.old.t + 1 }
        ensures emitted { result.emitted ≡ (sender_step self.old heard).emitted }
        ensures event { result.event ≡ (sender_step self.old heard).event }

        // What a sender keeps follows the half bits, and the laws of its starts speak of it.
        ensures last_end { self.new.last_end ≡ end_after self.old.last_end t result.event }
        ensures carrier_from { self.new.carrier_from ≡ carrier_after self.old.carrier_from t (is_signal heard) }
        ensures gap { StartsAt t self.new.phase → IsAway self.new.last_end interframe_gap t }
        ensures deaf_gap { StartsAt t self.new.phase → is_signal heard ≡ true → t < self.new.carrier_from + interframe_gap }

        // A sending that ends was long enough, and no clash is sent.
        ensures length { IsLongEnough t result.event }
        ensures no_clash { result.emitted ≢ Clash }
    {
        let carrier = heard != Sym::Idle;
        let event = self.finish();
        self.promote();
        let emitted = self.go_on(carrier);
        SendStep { emitted, event }
    }

    /// The half bits, from the present one on, until one that gives an event, another phase or a new hit, where the
    /// station hears something in each, or Idle in each; none where that never comes.
    #[tactic(auto, unfolding(crate::specs::Calm::change_in, crate::specs::Sender::ready_at))]
    fn change(&self, carrier: bool) -> Option<u64>
        ensures change { result ≡ change_in self.now carrier }
        ensures valid { IsSender self.now }
    {
        match self.phase {
            Phase::Rest => {
                if self.place < self.queue.len() {
                    Some(self.queue.get(self.place).at.saturating_sub(self.t))
                } else {
                    None
                }
            }
            Phase::Waiting => gap_to_wait(self.defer, carrier),
            Phase::Sending { start, hit } => {
                if hit.is_none() && carrier {
                    return Some(0);
                }
                let length = length_with(frame_octets(&self.queue, self.place), hit);
                Some((start + length).saturating_sub(self.t))
            }
            Phase::Backoff { until } => Some(until.saturating_sub(self.t)),
        }
    }

    /// The half bits from `t` on, the one after the last that was stepped or leapt, until one that gives an event,
    /// another phase or a new hit, where the station hears something in each, as `carrier` says, or Idle in each; none
    /// where that never comes.
    pub fn next_change(&self, t: u64, carrier: bool) -> Option<u64>
        requires time { t ≡ self.now.t }
        requires in_time { t < most_half_bits }
        ensures number { result ≡ change_in self.now carrier }
        ensures exact { (hs : List Sym) → AllHeardAs carrier hs → (AreCalm self.now hs ↔ AreOverBefore (length hs) result) }
    {
        self.change(carrier)
    }

    /// The greatest number up to 4,096 of half bits from `t` on, the one after the last that was stepped or leapt, that
    /// give no event, no change of phase and no new hit, where the station hears something in each, as `carrier` says,
    /// or Idle in each. A sending that goes on is calm, though it emits.
    pub fn calm(&self, t: u64, carrier: bool) -> u64
        requires time { t ≡ self.now.t }
        requires in_time { t < most_half_bits }
        ensures number { result ≡ calm_of self.now carrier }
        ensures within { result ≤ 4096 }
        ensures exact { (hs : List Sym) → AllHeardAs carrier hs → length hs ≤ 4096 → (AreCalm self.now hs ↔ (length hs ≤ result)) }
    {
        at_most(self.change(carrier))
    }

    /// Goes over `n` half bits from `t` on in which nothing happens.
    #[tactic(auto, unfolding(crate::specs::Calm::leapt))]
    fn leap_over(&mut self, t: u64, n: u64, carrier: bool)
        requires calm { AreOverBefore n (change_in self.old carrier) }
        requires time { t ≡ self.old.t }
        requires in_time { t + n ≤ most_half_bits }
        ensures state { self.new ≡ leapt self.old carrier n }
        ensures phase { self.new.phase ≡ self.old.phase }
        ensures time { self.new.t ≡ self.old.t + n }
        ensures valid { IsSender self.old }
    {
        self.defer = defer_leapt(self.phase, self.defer, n, carrier);
        self.carrier_from = carrier_leapt(self.carrier_from, t, n, carrier);
        self.t = t + n;
    }

    /// The state after any number `n` of half bits from `t` on, the one after the last that was stepped or leapt, that
    /// are over before the next change, in each of which the station hears something, or Idle in each. It takes as long
    /// as one half bit.
    pub fn pass(&mut self, t: u64, n: u64, carrier: bool)
        requires calm { AreOverBefore n (change_in self.old carrier) }
        requires time { t ≡ self.old.t }
        requires in_time { t + n ≤ most_half_bits }
        ensures state { (hs : List Sym) → AllHeardAs carrier hs → length hs ≡ n → self.new ≡ after_all self.old hs }
        ensures phase { self.new.phase ≡ self.old.phase }
        ensures time { self.new.t ≡ self.old.t + n }
        // In each of them it emits what it would if nothing happened to it.
        ensures emits { (hs : List Sym) (h : Sym) → AllHeardAs carrier hs → is_signal h ≡ carrier → length hs < n →
            (sender_step (after_all self.old hs) h).emitted ≡ emission_by self.old (length hs) self.old.phase }
    {
        self.leap_over(t, n, carrier);
    }

    /// The state after `n` half bits from `t` on, the one after the last that was stepped, at most as many as `calm`
    /// answers, in each of which the station hears something, or Idle in each. It takes as long as one half bit.
    pub fn leap(&mut self, t: u64, n: u64, carrier: bool)
        requires calm { n ≤ calm_of self.old carrier }
        requires time { t ≡ self.old.t }
        requires in_time { t + n ≤ most_half_bits }
        ensures state { (hs : List Sym) → AllHeardAs carrier hs → length hs ≡ n → self.new ≡ after_all self.old hs }
        ensures phase { self.new.phase ≡ self.old.phase }
        ensures time { self.new.t ≡ self.old.t + n }
        // In each of them it emits what it would if nothing happened to it.
        ensures emits { (hs : List Sym) (h : Sym) → AllHeardAs carrier hs → is_signal h ≡ carrier → length hs < n →
            (sender_step (after_all self.old hs) h).emitted ≡ emission_by self.old (length hs) self.old.phase }
    {
        self.pass(t, n, carrier);
    }

    /// The row of the sending that is under way; none exactly where no sending is.
    #[tactic(auto, unfolding(crate::specs::Sender::cut_of))]
    pub fn cut(&self) -> Option<Body>
        ensures { result ≡ cut_of self.now }
    {
        match self.phase {
            Phase::Sending { start, hit } => Some(Body::Cut {
                frame: self.place + 1,
                start,
                attempt: self.attempt,
                hit,
            }),
            _ => None,
        }
    }

    /// What the sender is doing.
    pub fn phase(&self) -> Phase
        ensures { result ≡ self.now.phase }
    {
        self.phase
    }

    /// How the station waits for its turn.
    pub fn defer(&self) -> Defer
        ensures { result ≡ self.now.defer }
    {
        self.defer
    }

    /// The attempt of the frame that was last taken up, counted from 1.
    pub fn attempt(&self) -> u32
        ensures { result ≡ self.now.attempt }
    {
        self.attempt
    }

    /// The frame at the sender's place in its queue; none exactly where no frame is left.
    #[tactic(auto, unfolding(crate::specs::Sender::frame_at))]
    pub fn frame(&self) -> Option<&Frame>
        ensures none { IsNone result ↔ (self.now.place ≡ length self.now.queue) }
        ensures some { IfSome result (λ f. f.now ≡ frame_at self.now.queue self.now.place) }
    {
        if self.place < self.queue.len() {
            Some(&self.queue.get(self.place).frame)
        } else {
            None
        }
    }
}
