//! A segment as a part.
ghost use Rattle.std.specs.Prelude.{◌≡◌, ◌<◌, ◌≤◌, ◌+◌, ◌*◌, ◌++◌, ◌==◌, ℕ, true, length, IfOk, OnOk};
ghost use Rattle.mac_parameters.specs.Parameters.{most_octets as most_octets_of};
ghost use Rattle.net_parts.specs.OutputsOfParts.{cut_rows_on, rows_of_part, captures_of_part};
ghost use Rattle.net_parts.specs.Parts.{edges_of_part, part_at};
ghost use Rattle.net_parts.specs.SegmentParts.{wiring};
ghost use Rattle.net_parts.specs.Standing.{rows_of_devices};
ghost use Rattle.net_parts.specs.Windows.{lookahead as lookahead_of, time as time_of, windows as windows_of};
ghost use Rattle.segment_engine.specs.KeptParts.{KeepsSegment};
ghost use Rattle.segment_engine.specs.OneProof.{one_proof};
ghost use Rattle.segment_engine.specs.QuietHalfBits.{ComeInIdle, GoOutIdle, IsQuietFor};
ghost use Rattle.segment_engine.specs.RunningStates.{IsRunningAt};
ghost use Rattle.segment_engine.specs.StationsApart.{CoversApart};

use crate::apart::KEEP;
use crate::quiet::{pass, quiet_ahead};
use crate::running::Running;
use crate::segment::Segment;
use crate::start::start;
use crate::window::run;
use collision_log::Rows;
use kept_devices::push_row;
use lists::OutOfMemory;
use load_plan::Plan;
use mac_parameters::most_octets;
use mac_transmit::Transmitter;
use net_parts::{Pace, Parcel, Part, PartOutputs};
use std::alloc::Global;
use window_room::{RowRoom, reserve_stations};

/// The most half bits that are passed over at once.
const MOST_AT_ONCE: u32 = 1_048_576;

/// A segment with its stations, over a line of symbols for each of its taps.
#[derive(Drop)]
pub struct SegmentPart {
    segment: Segment,
    window: u64,
    most: u32,
    reserved: bool,
    state: Running,
    ghost stands: { IsRunningAt segment (window * segment.lookahead) state } by { Prim.hlevel one_proof },
    ghost at_time: { state.t ≡ time_of segment.plan.value window },
    ghost octets: { most ≡ most_octets_of (segment.plan.value.layout.format == 2) },
    ghost last: { window ≡ segment.windows → state.from ≡ state.t },
    ghost room: { reserved ≡ true → CoversApart (state.t + segment.lookahead) (length segment.stations.items) state.watches.items state.senders.items state.receivers.items state.room },
    ghost kept: { KeepsSegment segment state (part_at segment.plan.value segment.number window) } by { Prim.hlevel one_proof },
}

/// Writes the rows of the sendings that are under way at the end `t` of a run.
fn log_cut(
    t: u64,
    stations: &[u32],
    senders: &[Transmitter],
    rows: &mut Rows,
) -> Result<(), OutOfMemory>
    requires { length senders.now ≡ length stations.now }
    ensures { OnOk result (rows.new ≡ rows.old ++ cut_rows_on t stations.now senders.now) }
{
    for k in 0..senders.len() {
        push_row(rows, t, stations[k], senders[k].cut())?;
    }
    Ok(())
}

/// The rows and captures of a room; with the Cut rows of these senders, when all windows were made.
fn hand_out(
    of: &Segment,
    window: u64,
    t: u64,
    senders: &[Transmitter],
    mut room: RowRoom,
) -> Result<PartOutputs, OutOfMemory>
    requires { length senders.now ≡ length of.now.stations.items }
    ensures part { IfOk result (λ outputs. outputs.part ≡ of.now.number) }
    ensures so_far { window < of.now.windows → IfOk result (λ outputs. outputs.rows ≡ room.rows) }
    ensures rows { window ≡ of.now.windows →
        IfOk result (λ outputs. outputs.rows ≡ room.rows ++ cut_rows_on t of.now.stations.items senders.now) }
    ensures captures { IfOk result (λ outputs. outputs.captures ≡ room.captures) }
{
    room.settle()?;
    let mut outputs = room.into_outputs();
    if window == of.windows {
        log_cut(t, &of.stations, senders, &mut outputs.rows)?;
    }
    Ok(PartOutputs {
        part: of.number,
        rows: outputs.rows,
        captures: outputs.captures,
    })
}

impl SegmentPart {
    /// Segment number `segment`, from 0, of a plan, before half bit 0.
    pub fn new(alloc: Global, plan: &Plan, segment: u32) -> Result<SegmentPart, OutOfMemory>
        requires { segment < length plan.now.layout.segments }
        ensures plan { IfOk result (λ part. part.segment.plan.value ≡ plan.now) }
        ensures number { IfOk result (λ part. part.segment.number ≡ segment) }
        ensures at { IfOk result (λ part. part.window ≡ 0) }
    {
        SegmentPart::paced(alloc, plan, &Pace::of(plan), segment)
    }

    /// The same at a pace that was reckoned before.
    pub fn paced(
        alloc: Global,
        plan: &Plan,
        pace: &Pace,
        segment: u32,
    ) -> Result<SegmentPart, OutOfMemory>
        requires pace { pace.now.plan.value ≡ plan.now }
        requires within { segment < length plan.now.layout.segments }
        ensures plan { IfOk result (λ part. part.segment.plan.value ≡ plan.now) }
        ensures number { IfOk result (λ part. part.segment.number ≡ segment) }
        ensures at { IfOk result (λ part. part.window ≡ 0) }
    {
        let of = Segment::new(alloc, plan, pace, segment)?;
        let state = start(alloc, &of, plan)?;
        Ok(SegmentPart {
            segment: of,
            window: 0,
            most: most_octets(plan.layout.format == 2),
            reserved: false,
            state,
        })
    }

    /// For how many windows from its present one on, at most `most`, nothing happens at it and its ports hear Idle, as
    /// long as nothing but Idle comes in for them.
    pub fn calm_windows(&self, most: u64) -> u64
        requires { self.now.window < windows_of self.now.segment.plan.value }
        ensures within { result ≤ most }
        ensures quiet { (n : ℕ) → 0 < n → n ≤ result → IsQuietFor (n * lookahead_of self.now.segment.plan.value.layout) self.now.state }
        ensures silent { (n : ℕ) → n ≤ result * lookahead_of self.now.segment.plan.value.layout →
            ComeInIdle self.now.segment.plan.value (edges_of_part self.now.segment.plan.value self.now.segment.number)
            (self.now.window * lookahead_of self.now.segment.plan.value.layout) n →
            GoOutIdle self.now.segment.plan.value (edges_of_part self.now.segment.plan.value self.now.segment.number)
            (self.now.window * lookahead_of self.now.segment.plan.value.layout) n }
    {
        let quiet = quiet_ahead(&self.segment, &self.state, u64::from(MOST_AT_ONCE))
            / u64::from(self.segment.lookahead);
        quiet.min(most)
    }

    /// Goes over so many windows, none of them the last, in which nothing happens at it and nothing but Idle comes in.
    pub fn pass_windows(&mut self, count: u64)
        requires within { self.old.window + count < windows_of self.old.segment.plan.value }
        requires quiet { IsQuietFor (count * lookahead_of self.old.segment.plan.value.layout) self.old.state }
        requires silent { ComeInIdle self.old.segment.plan.value (edges_of_part self.old.segment.plan.value self.old.segment.number)
            (self.old.window * lookahead_of self.old.segment.plan.value.layout) (count * lookahead_of self.old.segment.plan.value.layout) }
        ensures plan { self.new.segment.plan.value ≡ self.old.segment.plan.value }
        ensures number { self.new.segment.number ≡ self.old.segment.number }
        ensures at { self.new.window ≡ self.old.window + count }
    {
        let half_bits = count * u64::from(self.segment.lookahead);
        pass(&self.segment, half_bits, &mut self.state);
        self.window += count;
        self.reserved = false;
    }

    /// Its rows and the captures of its stations, in their order; with the Cut rows, when all windows were made.
    pub fn take_out(self) -> Result<PartOutputs, OutOfMemory>
        ensures part { IfOk result (λ outputs. outputs.part ≡ self.segment.number) }
        ensures so_far { self.window < windows_of self.segment.plan.value →
            IfOk result (λ outputs. outputs.rows ≡ rows_of_devices self.segment.plan.value
            (wiring self.segment.plan.value.layout self.segment.number).stations (time_of self.segment.plan.value self.window)) }
        ensures rows { self.window ≡ windows_of self.segment.plan.value →
            IfOk result (λ outputs. outputs.rows ≡ rows_of_part self.segment.plan.value self.segment.number) }
        ensures captures { self.window ≡ windows_of self.segment.plan.value →
            IfOk result (λ outputs. outputs.captures ≡ captures_of_part self.segment.plan.value self.segment.number) }
    {
        let SegmentPart {
            segment,
            window,
            most: _,
            reserved: _,
            state,
        } = self;
        let Running {
            t,
            senders,
            receivers: _,
            watches: _,
            teller: _,
            lines: _,
            far: _,
            loud: _,
            late: _,
            from: _,
            piece: _,
            room,
        } = state;
        hand_out(&segment, window, t, &senders, room)
    }
}

impl Part for SegmentPart {
    ghost use Rattle.segment_engine.specs.KeptParts.{KeepsSegment};

    ghost plan = { λ s. s.segment.plan.value };

    ghost number = { λ s. s.segment.number };

    ghost at = { λ s. s.window };

    ghost reserved = { λ s. s.reserved };

    ghost keeps = { λ s state. KeepsSegment s.segment s.state state };

    fn part(&self) -> u32 {
        self.segment.number
    }

    fn window(&self) -> u64 {
        self.window
    }

    fn windows(&self) -> u64 {
        self.segment.windows
    }

    fn edges(&self) -> &[u32] {
        self.segment.edges.as_slice()
    }

    fn reserve_window(&mut self) -> Result<(), OutOfMemory> {
        reserve_stations(
            &mut self.state.room,
            self.segment.stations.len(),
            self.most,
            self.segment.lookahead + KEEP as u32,
        )?;
        self.reserved = true;
        Ok(())
    }

    fn run_window(&mut self, parcels: &mut [Parcel]) {
        run(&self.segment, self.window, &mut self.state, parcels);
        self.window += 1;
        self.reserved = false;
    }

    ghost within = { λ s. s.segment.within_parts };

    ghost stands = { λ s. s.kept };
}
