//! A repeater of a plan as one of the parts of its network.
ghost use Rattle.std.specs.Prelude.{◌≡◌, ◌<◌, ◌≤◌, ◌+◌, ◌*◌, ℕ, [], true, length, IfOk};
ghost use Rattle.load_plan.specs.declared.plan.Plan.{Plan};
ghost use Rattle.net_parts.specs.OutputsOfParts.{captures_of_part, rows_of_part};
ghost use Rattle.net_parts.specs.Standing.{repeater_at};
ghost use Rattle.net_parts.specs.Parts.{edges_of_part};
ghost use Rattle.net_parts.specs.Windows.{lookahead, size, time, windows};
ghost use Rattle.repeater_core.specs.Calm.{IsCalm};
ghost use Rattle.repeater_engine.specs.CalmWindows.{PortsHearIdle, AreDecidedIdle};
ghost use Rattle.repeater_engine.specs.KeptRepeaters.{IsRepeatersPart, StandsAt};
ghost use Rattle.repeater_engine.specs.RowWaits.{HasRowRoom};

use crate::late::{LateEngine, make_window};
use crate::parcels::turn_all;
use lists::{List, OutOfMemory};
use load_plan::Plan;
use net_parts::{Pace, Parcel, Part, PartOutputs, edges_of};
use std::alloc::Global;
use std::snapshot::Snapshot;

/// A repeater of a plan, which stands in its network before the first half bit of a window. `part` is its number among
/// the plan's parts, and `repeater` that among its repeaters; both count from 0, as windows do.
#[derive(Drop)]
pub struct RepeaterPart {
    plan: Snapshot<Plan>,
    part: u32,
    repeater: u32,
    window: u64,
    last: u64,
    lookahead: u32,
    half_bits: u64,
    edges: List<u32>,
    engine: LateEngine,
    ready: bool,
    ghost is_part: { IsRepeatersPart plan.value part repeater last lookahead half_bits edges },
    ghost begun: { window ≤ windows plan.value },
    ghost stands: { StandsAt plan.value repeater (time plan.value window) engine },
    ghost room: { ready ≡ true → HasRowRoom (length engine.state.repeater.guards) (size plan.value window) engine.room engine.state.repeater },
}

impl RepeaterPart {
    /// This repeater of a plan, counted from 0, before its first window.
    pub fn new(alloc: Global, plan: &Plan, repeater: u32) -> Result<RepeaterPart, OutOfMemory>
        requires { repeater < length plan.now.layout.repeaters }
        ensures plan { IfOk result (λ made. made.plan.value ≡ plan.now) }
        ensures number { IfOk result (λ made. made.part ≡ length plan.now.layout.segments + repeater) }
        ensures at { IfOk result (λ made. made.window ≡ 0) }
    {
        RepeaterPart::paced(alloc, plan, &Pace::of(plan), repeater)
    }

    /// The same at a pace that was reckoned before.
    pub fn paced(
        alloc: Global,
        plan: &Plan,
        pace: &Pace,
        repeater: u32,
    ) -> Result<RepeaterPart, OutOfMemory>
        requires pace { pace.now.plan.value ≡ plan.now }
        requires within { repeater < length plan.now.layout.repeaters }
        ensures plan { IfOk result (λ made. made.plan.value ≡ plan.now) }
        ensures number { IfOk result (λ made. made.part ≡ length plan.now.layout.segments + repeater) }
        ensures at { IfOk result (λ made. made.window ≡ 0) }
    {
        let layout = &plan.layout;
        let part = layout.segments.len() as u32 + repeater;
        let device = layout.stations.len() as u32 + repeater;
        let line = &layout.repeaters.as_slice()[repeater as usize];
        let engine = LateEngine::new(alloc, device, line.ports.len() as u32, line.delay)?;
        Ok(RepeaterPart {
            plan: Snapshot::of(plan),
            part,
            repeater,
            window: 0,
            last: pace.windows,
            lookahead: pace.lookahead,
            half_bits: layout.half_bits(),
            edges: edges_of(alloc, plan, part)?,
            engine,
            ready: false,
        })
    }

    /// The half bits of its present window.
    fn half_bits_of_window(&self) -> usize
        ensures { result ≡ size self.now.plan.value self.now.window }
    {
        let begin = self.window * u64::from(self.lookahead);
        let left = self.half_bits.saturating_sub(begin);
        left.min(u64::from(self.lookahead)) as usize
    }

    /// For how many windows from its present one on, at most `most`, nothing happens at it and Idle is decided for all
    /// its ports, as long as they hear nothing but Idle.
    pub fn calm_windows(&self, most: u64) -> u64
        requires { self.now.window < windows self.now.plan.value }
        ensures within { result ≤ most }
        ensures calm { (n : ℕ) → n ≤ result → IsCalm self.now.engine.state.repeater (n * lookahead self.now.plan.value.layout) }
        ensures silent { (n : ℕ) → n ≤ result * lookahead self.now.plan.value.layout →
            PortsHearIdle self.now.plan.value (edges_of_part self.now.plan.value self.now.part) (self.now.window * lookahead self.now.plan.value.layout) n →
            AreDecidedIdle self.now.plan.value (edges_of_part self.now.plan.value self.now.part) (self.now.window * lookahead self.now.plan.value.layout) n }
    {
        let calm = self.engine.calm() / u64::from(self.lookahead);
        calm.min(most)
    }

    /// Goes over so many windows, none of them the last, in which its ports hear nothing but Idle and nothing happens.
    pub fn pass_windows(&mut self, count: u64)
        requires within { self.old.window + count < windows self.old.plan.value }
        requires calm { IsCalm self.old.engine.state.repeater (count * lookahead self.old.plan.value.layout) }
        requires silent { PortsHearIdle self.old.plan.value (edges_of_part self.old.plan.value self.old.part)
            (self.old.window * lookahead self.old.plan.value.layout) (count * lookahead self.old.plan.value.layout) }
        ensures plan { self.new.plan.value ≡ self.old.plan.value }
        ensures number { self.new.part ≡ self.old.part }
        ensures at { self.new.window ≡ self.old.window + count }
    {
        self.engine.pass(count * u64::from(self.lookahead));
        self.window += count;
        self.ready = false;
    }

    /// Its rows, and the captures of its stations, of which it has none. It takes memory for the rows of its last
    /// window; on refusal it is dropped.
    pub fn take_out(self) -> Result<PartOutputs, OutOfMemory>
        ensures part { IfOk result (λ outputs. outputs.part ≡ self.part) }
        ensures so_far { IfOk result (λ outputs. outputs.rows ≡ (repeater_at self.plan.value self.repeater (time self.plan.value self.window)).rows) }
        ensures rows { self.window ≡ windows self.plan.value → IfOk result (λ outputs. outputs.rows ≡ rows_of_part self.plan.value self.part) }
        ensures captures { IfOk result (λ outputs. outputs.captures ≡ captures_of_part self.plan.value self.part) }
        ensures no_captures { IfOk result (λ outputs. outputs.captures ≡ []) }
    {
        let part = self.part;
        let outputs = self.engine.into_outputs()?;
        Ok(PartOutputs {
            part,
            rows: outputs.rows,
            captures: outputs.captures,
        })
    }
}

impl Part for RepeaterPart {
    ghost use Rattle.std.specs.Prelude.{◌≡◌};
    ghost use Rattle.net_parts.specs.Parts.{OfRepeater};
    ghost use Rattle.repeater_engine.specs.RepeaterNumbers.{is_one_part, part_stands};

    ghost plan = { λ s. s.plan.value };

    ghost number = { λ s. s.part };

    ghost at = { λ s. s.window };

    ghost reserved = { λ s. s.ready };

    ghost keeps = { λ s state. OfRepeater s.engine.state ≡ state };

    fn part(&self) -> u32 {
        self.part
    }

    fn window(&self) -> u64 {
        self.window
    }

    fn windows(&self) -> u64 {
        self.last
    }

    fn edges(&self) -> &[u32] {
        self.edges.as_slice()
    }

    fn reserve_window(&mut self) -> Result<(), OutOfMemory> {
        let half_bits = self.half_bits_of_window();
        self.engine.reserve(half_bits)?;
        self.ready = true;
        Ok(())
    }

    fn run_window(&mut self, parcels: &mut [Parcel]) {
        let half_bits = self.half_bits_of_window();
        make_window(
            &mut self.engine,
            parcels,
            &self.plan,
            self.repeater,
            self.window,
            half_bits,
        );
        self.window += 1;
        self.ready = false;
        turn_all(parcels, self.window);
    }

    ghost within = { λ s. is_one_part s.plan.value s.part s.repeater s.is_part.number s.is_part.within };

    ghost stands = { λ s. part_stands s.plan.value s.part s.repeater s.is_part.number s.window s.engine.state s.stands.state };
}
