//! A repeater that makes half bits, with its rows.
ghost use Rattle.std.specs.Fn.{iterate};
ghost use Rattle.std.specs.Prelude.{◌≡◌, ◌<◌, ◌≤◌, ◌+◌, ◌-◌, ◌^◌, [], All, length, replicate, IfOk, OnOk};
ghost use Rattle.load_plan.specs.declared.plan.Plan.{Plan};
ghost use Rattle.mac_parameters.specs.Parameters.{greatest_delay, most_ports};
ghost use Rattle.manchester_line.specs.declared.Sym.TheVariants.{Idle};
ghost use Rattle.net_parts.specs.RepeaterParts.{repeater_step};
ghost use Rattle.net_parts.specs.Standing.{repeater_at};
ghost use Rattle.repeater_core.specs.Calm.{IsCalm, silent_step};
ghost use Rattle.repeater_core.specs.Limits.{most_calm};
ghost use Rattle.repeater_core.specs.Step.{decided_by, new_state};
ghost use Rattle.repeater_core.specs.Steady.{IsSteady};
ghost use Rattle.repeater_engine.specs.KeptRepeaters.{HaveRow, KeptRepeater, parcels_after, row_brought};
ghost use Rattle.repeater_engine.specs.LeapedHalfBits.{made_of, rows_brought, AreOfClasses, HaveRows, ReachFrom};
ghost use Rattle.repeater_engine.specs.RowWaits.{HasRowRoom};

use crate::leaps::{alike_ahead, heard_alike, leap_over};
use crate::parcels::{MOST_AT_ONCE, hear_all, put_all, put_pieces, repeated};
use crate::rows::{log_events, rows_in};
use lists::OutOfMemory;
use mac_parameters::PREAMBLE;
use manchester_line::Sym;
use net_parts::Parcel;
use network::Outputs;
use repeater_core::{Mode, Repeater};
use std::alloc::Global;
use std::marker::Model;
use window_room::RowRoom;

/// The fewest half bits that are made at once.
const FEWEST_AT_ONCE: usize = 4;

/// The most half bits that are put aside.
pub const MOST_ASIDE: usize = 4096;

/// A repeater before half bit `t`, its device's number and its rows. `heard`, `emitted` and `decided` have a symbol for
/// each of its ports. It is known to be steady for `steady` half bits more in which each port hears symbols of the
/// class of what it has in `heard`.
#[derive(Drop)]
pub struct RepeaterEngine {
    t: u64,
    device: u32,
    ports: u32,
    repeater: Repeater,
    log: RowRoom,
    heard: Vec<Sym>,
    steady: usize,
    emitted: Vec<Sym>,
    decided: Vec<Sym>,
    sent: Vec<Sym>,
}

/// The symbols that a repeater before half bit 0 has.
#[derive(Drop)]
struct Symbols {
    heard: Vec<Sym>,
    emitted: Vec<Sym>,
    decided: Vec<Sym>,
    sent: Vec<Sym>,
}

/// Idle at each of so many ports, and in as many half bits as are made at once.
fn all_idle(alloc: Global, ports: usize) -> Result<Symbols, OutOfMemory>
    ensures heard { IfOk result (λ s. s.heard.items ≡ replicate ports Idle) }
    ensures emitted { IfOk result (λ s. s.emitted.items ≡ replicate ports Idle) }
    ensures decided { IfOk result (λ s. s.decided.items ≡ replicate ports Idle) }
    ensures sent { IfOk result (λ s. s.sent.items ≡ replicate greatest_delay Idle) }
{
    Ok(Symbols {
        heard: vec![in alloc; Sym::Idle; ports]?,
        emitted: vec![in alloc; Sym::Idle; ports]?,
        decided: vec![in alloc; Sym::Idle; ports]?,
        sent: vec![in alloc; Sym::Idle; MOST_AT_ONCE]?,
    })
}

impl Model for RepeaterEngine {
    ghost use Rattle.std.specs.Prelude.{length};
    ghost use Rattle.repeater_engine.specs.KeptRepeaters.{KeptRepeater, FitTogether, IsKnownSteady};

    ghost Value = { KeptRepeater };

    ghost view = { λ e. record {
      device = e.device;
      state = record { t = e.t; repeater = e.repeater; rows = e.log.rows };
      room = e.log.row_room;
      heard = e.heard.items;
      steady = e.steady;
      decided = e.decided.items;
    } };

    ghost invariant = { λ e. FitTogether e.ports e.repeater e.log (length e.emitted.items) (length e.decided.items) (length e.sent.items)
        × IsKnownSteady e.ports e.repeater e.heard.items e.steady };
}

impl RepeaterEngine {
    ghost use Rattle.std.specs.Prelude.{◌≡◌, ◌<◌, ◌≤◌, ◌+◌, ◌-◌, ◌^◌, [], All, length, IfOk, IsTrue, OnOk};
    ghost use Rattle.mac_parameters.specs.Parameters.{greatest_delay, most_ports};
    ghost use Rattle.std.specs.Fn.{iterate};
    ghost use Rattle.net_parts.specs.RepeaterParts.{repeater_step};
    ghost use Rattle.repeater_core.specs.Calm.{IsCalm, silent_step};
    ghost use Rattle.repeater_core.specs.Limits.{most_calm};
    ghost use Rattle.repeater_core.specs.Step.{decided_by, new_state};
    ghost use Rattle.repeater_core.specs.Steady.{IsSteady};
    ghost use Rattle.repeater_engine.specs.KeptRepeaters.{HaveRow, row_brought};
    ghost use Rattle.repeater_core.specs.Classes.{IsSource};
    ghost use Rattle.repeater_core.specs.Step.{RepeaterDevice};
    ghost use Rattle.repeater_engine.specs.LeapedHalfBits.{made_of, rows_brought, AreOfClasses, HavePieces, HaveRows, ReachFrom};
    ghost use Rattle.repeater_engine.specs.PutAside.{state_later, GoesOnSteadily, IsPutAside, KnowsSending, RepeatsLevels};
    ghost use Rattle.repeater_engine.specs.RowWaits.{HasRowRoom};

    /// The repeater of this device before half bit 0, of 2 to 32 ports and with a delay of 1 to 200 half bits.
    pub fn new(
        alloc: Global,
        device: u32,
        ports: u32,
        delay: u32,
    ) -> Result<RepeaterEngine, OutOfMemory>
        requires two_ports { 2 ≤ ports }
        requires ports_at_most { ports ≤ most_ports }
        requires some_delay { 1 ≤ delay }
        requires delay_at_most { delay ≤ greatest_delay }
        ensures device { IfOk result (λ e. e.device ≡ device) }
        ensures state { IfOk result (λ e. e.state ≡ record { t = 0; repeater = new_state ports delay; rows = [] }) }
        ensures steady { IfOk result (λ e. e.steady ≡ 0) }
    {
        let symbols = all_idle(alloc, ports as usize)?;
        let log = RowRoom::new(alloc, 0)?;
        Ok(RepeaterEngine {
            t: 0,
            device,
            ports,
            repeater: Repeater::new(alloc, ports, delay)?,
            log,
            heard: symbols.heard,
            steady: 0,
            emitted: symbols.emitted,
            decided: symbols.decided,
            sent: symbols.sent,
        })
    }

    /// Takes room for the rows of so many half bits.
    pub fn reserve(&mut self, half_bits: usize) -> Result<(), OutOfMemory>
        requires { half_bits < 2 ^ 32 }
        ensures device { self.new.device ≡ self.old.device }
        ensures state { self.new.state ≡ self.old.state }
        ensures kept { self.old.room ≤ self.new.room }
        ensures others { self.new ≡ record self.old { room = self.new.room } }
        ensures room { OnOk result ((r : RepeaterDevice) → HasRowRoom (length self.new.state.repeater.guards) half_bits self.new.room r) }
    {
        let rows = rows_in(self.ports as usize, half_bits);
        self.log.reserve(rows, 0, 0)
    }

    /// Half bit `k` of the `n` of a window: each port hears what its parcel brings for it, and what is decided for it
    /// takes its place.
    pub fn half_bit(&mut self, parcels: &mut [Parcel], k: usize, n: usize)
        requires many { length parcels.old ≡ length self.old.state.repeater.guards }
        requires long { All (λ p. k < length p.symbols) parcels.old }
        requires left { k < n }
        requires time { self.old.state.t < 2 ^ 63 }
        requires room { HasRowRoom (length self.old.state.repeater.guards) (n - k) self.old.room self.old.state.repeater }
        ensures device { self.new.device ≡ self.old.device }
        ensures state { self.new.state ≡ repeater_step self.old.device (row_brought k parcels.old) self.old.state }
        ensures ports { length self.new.state.repeater.guards ≡ length self.old.state.repeater.guards }
        ensures parcels { HaveRow k (decided_by (row_brought k parcels.old) self.old.state.repeater) parcels.old parcels.new }
        ensures room { HasRowRoom (length self.new.state.repeater.guards) (n - (k + 1)) self.new.room self.new.state.repeater }
        ensures steady { self.new.steady ≡ 0 }
    {
        hear_all(parcels, k, &mut self.heard);
        let events = self
            .repeater
            .step(&self.heard, &mut self.emitted, &mut self.decided);
        put_all(parcels, k, &self.decided);
        log_events(
            &mut self.log,
            self.t,
            self.device,
            self.ports as usize,
            events,
        );
        self.steady = 0;
        self.t += 1;
    }

    /// Hears half bit `k` of a window. For how long the repeater is steady is asked anew where that isn't known of
    /// `most` half bits from the one before.
    fn hear(&mut self, parcels: &[Parcel], k: usize, most: usize)
        requires many { length parcels.now ≡ length self.old.state.repeater.guards }
        requires long { All (λ p. k < length p.symbols) parcels.now }
        ensures device { self.new.device ≡ self.old.device }
        ensures state { self.new.state ≡ self.old.state }
        ensures room { self.new.room ≡ self.old.room }
        ensures heard { self.new.heard ≡ row_brought k parcels.now }
        ensures greatest { self.new.steady < most → self.new.steady < most_calm → ¬ IsSteady self.new.heard self.new.state.repeater (self.new.steady + 1) }
    {
        let stays = most <= self.steady && heard_alike(parcels, k, &self.heard);
        hear_all(parcels, k, &mut self.heard);
        if stays {
            return;
        }
        self.steady = self.repeater.steady(&self.heard, &mut self.emitted) as usize;
    }

    /// How many half bits of a window from half bit `k` of its `n` on may be made at once. It hears the first of them.
    fn ahead(&mut self, parcels: &[Parcel], k: usize, n: usize) -> usize
        requires many { length parcels.now ≡ length self.old.state.repeater.guards }
        requires left { k < n }
        requires long { ReachFrom k (n - k) parcels.now }
        ensures device { self.new.device ≡ self.old.device }
        ensures state { self.new.state ≡ self.old.state }
        ensures room { self.new.room ≡ self.old.room }
        ensures heard { self.new.heard ≡ row_brought k parcels.now }
        ensures within { k + result ≤ n }
        ensures few { result ≤ greatest_delay }
        ensures alike { AreOfClasses (row_brought k parcels.now) (rows_brought k result parcels.now) }
        ensures steady { result ≤ self.new.steady }
    {
        let most = (n - k).min(MOST_AT_ONCE);
        self.hear(parcels, k, most);
        alike_ahead(parcels, k, most.min(self.steady), &self.heard)
    }

    /// Makes the `m` half bits of a window from half bit `k` of its `n` on at once, in which nothing happens but
    /// counts. The first of them was heard.
    fn leap(&mut self, parcels: &mut [Parcel], k: usize, m: usize, n: usize)
        requires many { length parcels.old ≡ length self.old.state.repeater.guards }
        requires some { 0 < m }
        requires few { m ≤ greatest_delay }
        requires within { k + m ≤ n }
        requires long { ReachFrom k (n - k) parcels.old }
        requires time { self.old.state.t < 2 ^ 63 }
        requires room { HasRowRoom (length self.old.state.repeater.guards) (n - k) self.old.room self.old.state.repeater }
        requires alike { AreOfClasses (row_brought k parcels.old) (rows_brought k m parcels.old) }
        requires heard { self.old.heard ≡ row_brought k parcels.old }
        requires steady { m ≤ self.old.steady }
        ensures device { self.new.device ≡ self.old.device }
        ensures state { self.new.state ≡ (made_of self.old.device (rows_brought k m parcels.old) self.old.state).state }
        ensures ports { length self.new.state.repeater.guards ≡ length self.old.state.repeater.guards }
        ensures parcels { HaveRows k (made_of self.old.device (rows_brought k m parcels.old) self.old.state).rows parcels.old parcels.new }
        ensures room { HasRowRoom (length self.new.state.repeater.guards) (n - (k + m)) self.new.room self.new.state.repeater }
        ensures sending { KnowsSending self.new }
    {
        leap_over(
            &mut self.repeater,
            parcels,
            k,
            m,
            &self.heard,
            &mut self.emitted,
            &mut self.decided,
            &mut self.sent,
        );
        put_pieces(parcels, k, &self.decided, &self.sent[..m]);
        self.steady -= m;
        self.t += m as u64;
    }

    /// Makes half bits of a window from half bit `k` of its `n` on, and answers how many: all that may be made at once,
    /// or one where those are fewer than a few.
    pub fn go_on(&mut self, parcels: &mut [Parcel], k: usize, n: usize) -> usize
        requires many { length parcels.old ≡ length self.old.state.repeater.guards }
        requires long { ReachFrom k (n - k) parcels.old }
        requires left { k < n }
        requires time { self.old.state.t < 2 ^ 63 }
        requires room { HasRowRoom (length self.old.state.repeater.guards) (n - k) self.old.room self.old.state.repeater }
        ensures some { 0 < result }
        ensures within { k + result ≤ n }
        ensures device { self.new.device ≡ self.old.device }
        ensures state { self.new.state ≡ (made_of self.old.device (rows_brought k result parcels.old) self.old.state).state }
        ensures ports { length self.new.state.repeater.guards ≡ length self.old.state.repeater.guards }
        ensures parcels { HaveRows k (made_of self.old.device (rows_brought k result parcels.old) self.old.state).rows parcels.old parcels.new }
        ensures room { HasRowRoom (length self.new.state.repeater.guards) (n - (k + result)) self.new.room self.new.state.repeater }
        ensures sending { KnowsSending self.new }
    {
        let m = self.ahead(parcels, k, n);
        if m < FEWEST_AT_ONCE {
            self.half_bit(parcels, k, n);
            return 1;
        }
        self.leap(parcels, k, m, n);
        m
    }

    /// Whether its mode repeats one of the ports, past the preamble and start frame delimiter.
    fn repeats_levels(&self) -> bool
        ensures { IsTrue result → RepeatsLevels self.now.heard self.now.state.repeater.mode }
    {
        match self.repeater.mode() {
            Mode::Repeat { n, i } => i >= PREAMBLE && (n as usize) < self.heard.len(),
            _ => false,
        }
    }

    /// Whether, once `late` half bits are put aside, the `m` of a window from half bit `k` on may be as well.
    pub fn goes_on(&self, parcels: &[Parcel], late: usize, k: usize, m: usize) -> bool
        requires many { length parcels.now ≡ length self.now.state.repeater.guards }
        requires long { ReachFrom k m parcels.now }
        requires late { late ≤ most_calm }
        ensures few { IsTrue result → m ≤ greatest_delay }
        ensures within { IsTrue result → late + m ≤ most_calm }
        ensures steady { IsTrue result → GoesOnSteadily late k m parcels.now self.now }
        ensures hearing { length self.now.heard ≡ length self.now.state.repeater.guards }
        ensures deciding { length self.now.decided ≡ length self.now.state.repeater.guards }
    {
        m <= MOST_AT_ONCE
            && late + m <= self.steady.min(MOST_ASIDE)
            && self.repeats_levels()
            && alike_ahead(parcels, k, m, &self.heard) == m
    }

    /// What is decided in the half bits of a window from `k` on takes its place in the parcels, where they may be put
    /// aside. What the port that is repeated hears in them is written.
    pub fn send_on(&self, parcels: &mut [Parcel], k: usize, text: &mut [Sym])
        requires many { length parcels.old ≡ length self.now.state.repeater.guards }
        requires few { length text.old ≤ greatest_delay }
        requires long { ReachFrom k (length text.old) parcels.old }
        ensures source { IsSource self.now.state.repeater.mode text.new (rows_brought k (length text.old) parcels.old) }
        ensures parcels { HavePieces k self.now.decided text.new parcels.old parcels.new }
    {
        text.copy_from_slice(repeated(self.repeater.mode(), parcels, k, text.len()));
        put_pieces(parcels, k, &self.decided, text);
    }

    /// Makes half bits at once that were put aside, in which the port that is repeated heard this text.
    pub fn catch_up(&mut self, text: &[Sym], sent: &mut [Sym])
        requires few { length text.now ≤ most_calm }
        requires sent { length sent.old ≡ length text.now }
        requires within { length text.now ≤ self.old.steady }
        requires aside { 0 < length text.now → IsPutAside self.old text.now }
        requires sending { KnowsSending self.old }
        requires time { self.old.state.t + length text.now < 2 ^ 64 }
        ensures device { self.new.device ≡ self.old.device }
        ensures state { self.new.state ≡ state_later self.old.heard text.now self.old.state }
        ensures room { self.new.room ≡ self.old.room }
        ensures sending { KnowsSending self.new }
    {
        if text.is_empty() {
            return;
        }
        self.repeater.leap_classes(
            &self.heard,
            text,
            &mut self.emitted,
            &mut self.decided,
            sent,
        );
        self.steady -= text.len();
        self.t += text.len() as u64;
    }

    /// For how many half bits, at most 4,096, nothing happens where every port hears Idle.
    pub fn calm(&self) -> u64
        ensures { IsCalm self.now.state.repeater result }
    {
        self.repeater.calm()
    }

    /// Goes over so many half bits in which every port hears Idle and nothing happens.
    pub fn pass(&mut self, count: u64)
        requires calm { IsCalm self.old.state.repeater count }
        requires time { self.old.state.t + count < 2 ^ 64 }
        ensures device { self.new.device ≡ self.old.device }
        ensures state { self.new.state
            ≡ record { t = self.old.state.t + count; repeater = iterate silent_step count self.old.state.repeater; rows = self.old.state.rows } }
        ensures steady { self.new.steady ≡ 0 }
    {
        self.repeater.leap(count);
        self.steady = 0;
        self.t += count;
    }

    /// The rows so far. It takes memory for those that lie in the room of a window.
    pub fn into_outputs(self) -> Result<Outputs, OutOfMemory>
        ensures rows { IfOk result (λ outputs. outputs.rows ≡ self.state.rows) }
        ensures captures { IfOk result (λ outputs. outputs.captures ≡ []) }
    {
        let RepeaterEngine {
            t: _,
            device: _,
            ports: _,
            repeater: _,
            mut log,
            heard: _,
            steady: _,
            emitted: _,
            decided: _,
            sent: _,
        } = self;
        log.settle()?;
        Ok(log.into_outputs())
    }
}
