//! A repeater that stands behind: half bits in which it is steady are put aside, and made at once later.
ghost use Rattle.std.specs.Fn.{iterate};
ghost use Rattle.std.specs.Prelude.{◌≡◌, ◌<◌, ◌≤◌, ◌+◌, ◌-◌, ◌^◌, [], length, take, IfOk, OnOk};
ghost use Rattle.load_plan.specs.declared.plan.Plan.{Plan};
ghost use Rattle.mac_parameters.specs.Parameters.{greatest_delay, most_ports};
ghost use Rattle.net_parts.specs.Standing.{repeater_at};
ghost use Rattle.repeater_core.specs.Calm.{IsCalm, silent_step};
ghost use Rattle.repeater_core.specs.Step.{new_state};
ghost use Rattle.repeater_engine.specs.KeptRepeaters.{KeptRepeater, parcels_after};
ghost use Rattle.repeater_engine.specs.LeapedHalfBits.{made_of, rows_brought, HaveRows, ReachFrom};
ghost use Rattle.repeater_engine.specs.RowWaits.{HasRowRoom};

use crate::engine::{MOST_ASIDE, RepeaterEngine};
use lists::OutOfMemory;
use load_plan::Plan;
use manchester_line::Sym;
use net_parts::Parcel;
use network::Outputs;
use std::alloc::Global;
use std::marker::Model;
use std::snapshot::Snapshot;

/// A repeater that stands behind by `late` half bits, which are put aside. `text` begins with what the port that is
/// repeated heard in them, and `sent` has as many places.
#[derive(Drop)]
pub struct LateEngine {
    engine: RepeaterEngine,
    late: usize,
    text: Vec<Sym>,
    sent: Vec<Sym>,
}

impl Model for LateEngine {
    ghost use Rattle.std.specs.Prelude.{take};
    ghost use Rattle.repeater_engine.specs.KeptRepeaters.{KeptRepeater};
    ghost use Rattle.repeater_engine.specs.PutAside.{kept_later, HasPutAside};

    ghost Value = { KeptRepeater };

    ghost view = { λ e. kept_later (take e.late e.text.items) e.engine };

    ghost invariant = { λ e. HasPutAside e.engine e.late e.text.items e.sent.items };
}

impl LateEngine {
    ghost use Rattle.std.specs.Fn.{iterate};
    ghost use Rattle.std.specs.Prelude.{◌≡◌, ◌<◌, ◌≤◌, ◌+◌, ◌-◌, ◌^◌, [], length, take, IfOk, OnOk};
    ghost use Rattle.mac_parameters.specs.Parameters.{greatest_delay, most_ports};
    ghost use Rattle.repeater_core.specs.Calm.{IsCalm, silent_step};
    ghost use Rattle.repeater_core.specs.Step.{new_state};
    ghost use Rattle.repeater_engine.specs.LeapedHalfBits.{made_of, rows_brought, HaveRows, ReachFrom};
    ghost use Rattle.repeater_engine.specs.RowWaits.{HasRowRoom};

    /// The repeater of this device before half bit 0, of 2 to 32 ports and with a delay of 1 to 200 half bits.
    pub fn new(
        alloc: Global,
        device: u32,
        ports: u32,
        delay: u32,
    ) -> Result<LateEngine, OutOfMemory>
        requires two_ports { 2 ≤ ports }
        requires ports_at_most { ports ≤ most_ports }
        requires some_delay { 1 ≤ delay }
        requires delay_at_most { delay ≤ greatest_delay }
        ensures device { IfOk result (λ e. e.device ≡ device) }
        ensures state { IfOk result (λ e. e.state ≡ record { t = 0; repeater = new_state ports delay; rows = [] }) }
    {
        Ok(LateEngine {
            engine: RepeaterEngine::new(alloc, device, ports, delay)?,
            late: 0,
            text: vec![in alloc; Sym::Idle; MOST_ASIDE]?,
            sent: vec![in alloc; Sym::Idle; MOST_ASIDE]?,
        })
    }

    /// Takes room for the rows of so many half bits. Those that are put aside have none.
    pub fn reserve(&mut self, half_bits: usize) -> Result<(), OutOfMemory>
        requires { half_bits < 2 ^ 32 }
        ensures device { self.new.device ≡ self.old.device }
        ensures state { self.new.state ≡ self.old.state }
        ensures kept { self.old.room ≤ self.new.room }
        ensures room { OnOk result (HasRowRoom (length self.new.state.repeater.guards) half_bits self.new.room self.new.state.repeater) }
    {
        self.engine.reserve(half_bits)
    }

    /// Makes half bits of a window from half bit `k` of its `n` on, or puts them aside, and answers how many: all that
    /// are left, where they may be put aside, or else as many as may be made at once.
    pub fn go_on(&mut self, parcels: &mut [Parcel], k: usize, n: usize) -> usize
        requires many { length parcels.old ≡ length self.old.state.repeater.guards }
        requires long { ReachFrom k (n - k) parcels.old }
        requires left { k < n }
        requires time { self.old.state.t < 2 ^ 63 }
        requires room { HasRowRoom (length self.old.state.repeater.guards) (n - k) self.old.room self.old.state.repeater }
        ensures some { 0 < result }
        ensures within { k + result ≤ n }
        ensures device { self.new.device ≡ self.old.device }
        ensures state { self.new.state ≡ (made_of self.old.device (rows_brought k result parcels.old) self.old.state).state }
        ensures ports { length self.new.state.repeater.guards ≡ length self.old.state.repeater.guards }
        ensures parcels { HaveRows k (made_of self.old.device (rows_brought k result parcels.old) self.old.state).rows parcels.old parcels.new }
        ensures room { HasRowRoom (length self.new.state.repeater.guards) (n - (k + result)) self.new.room self.new.state.repeater }
    {
        let late = self.late;
        let left = n - k;
        if self.engine.goes_on(parcels, late, k, left) {
            self.engine
                .send_on(parcels, k, &mut self.text[late..late + left]);
            self.late = late + left;
            return left;
        }
        self.engine
            .catch_up(&self.text[..late], &mut self.sent[0..late]);
        self.late = 0;
        self.engine.go_on(parcels, k, n)
    }

    /// For how many half bits, at most 4,096, nothing happens where every port hears Idle. It answers none while half
    /// bits are put aside.
    pub fn calm(&self) -> u64
        ensures { IsCalm self.now.state.repeater result }
    {
        if self.late == 0 {
            self.engine.calm()
        } else {
            0
        }
    }

    /// Goes over so many half bits in which every port hears Idle and nothing happens.
    pub fn pass(&mut self, count: u64)
        requires calm { IsCalm self.old.state.repeater count }
        requires time { self.old.state.t + count < 2 ^ 64 }
        ensures device { self.new.device ≡ self.old.device }
        ensures state { self.new.state
            ≡ record { t = self.old.state.t + count; repeater = iterate silent_step count self.old.state.repeater; rows = self.old.state.rows } }
    {
        let late = self.late;
        self.engine
            .catch_up(&self.text[..late], &mut self.sent[0..late]);
        self.late = 0;
        self.engine.pass(count);
    }

    /// The rows so far, of which those half bits that are put aside have none. It takes memory for those that lie in the
    /// room of a window.
    pub fn into_outputs(self) -> Result<Outputs, OutOfMemory>
        ensures rows { IfOk result (λ outputs. outputs.rows ≡ self.state.rows) }
        ensures captures { IfOk result (λ outputs. outputs.captures ≡ []) }
    {
        let LateEngine {
            engine,
            late: _,
            text: _,
            sent: _,
        } = self;
        engine.into_outputs()
    }
}

/// Makes the `n` half bits of window `window` of repeater number `repeater` of a plan, in which it stands.
pub fn make_window(
    engine: &mut LateEngine,
    parcels: &mut [Parcel],
    plan: &Snapshot<Plan>,
    repeater: u32,
    window: u64,
    n: usize,
)
    requires repeater { repeater < length plan.now.value.layout.repeaters }
    requires device { engine.old.device ≡ length plan.now.value.layout.stations + repeater }
    requires time { engine.old.state.t + n < 2 ^ 62 }
    requires room { HasRowRoom (length engine.old.state.repeater.guards) n engine.old.room engine.old.state.repeater }
    requires stands { engine.old.state ≡ repeater_at plan.now.value repeater engine.old.state.t }
    requires parcels { parcels.old ≡ parcels_after plan.now.value repeater window engine.old.state.t n 0 }
    ensures device { engine.new.device ≡ engine.old.device }
    ensures stands { engine.new.state ≡ repeater_at plan.now.value repeater (engine.old.state.t + n) }
    ensures parcels { parcels.new ≡ parcels_after plan.now.value repeater window engine.old.state.t n n }
{
    let _ = plan;
    let mut k = 0;
    while k < n {
        k += engine.go_on(parcels, k, n);
    }
}
