//! A window of a segment.
ghost use Rattle.std.specs.Prelude.{◌≡◌, ◌<◌, ◌≤◌, ◌+◌, ◌*◌, ℕ, length};
ghost use Rattle.net_parts.specs.Windows.{time};
ghost use Rattle.net_parts.specs.Parcels.{arrived, refilled};
ghost use Rattle.segment_engine.specs.RunningStates.{IsRunningAt};
ghost use Rattle.segment_engine.specs.StationsApart.{CoversApart};

use crate::apart::{arrive, go_apart, settle_if_due};
use crate::parcels::turn;
use crate::running::Running;
use crate::segment::Segment;
use net_parts::Parcel;

/// A window of a segment, which refills the parcels and turns them.
pub fn run(of: &Segment, window: u64, state: &mut Running, parcels: &mut [Parcel])
    requires at { IsRunningAt of.now (window * of.now.lookahead) state.old }
    requires time { state.old.t ≡ time of.now.plan.value window }
    requires below { window < of.now.windows }
    requires parcels { parcels.old ≡ arrived of.now.plan.value of.now.number window }
    requires room { CoversApart (state.old.t + of.now.lookahead) (length of.now.stations.items)
        state.old.watches.items state.old.senders.items state.old.receivers.items state.old.room }
    ensures at { IsRunningAt of.now ((window + 1) * of.now.lookahead) state.new }
    ensures time { state.new.t ≡ time of.now.plan.value (window + 1) }
    ensures last { window + 1 ≡ of.now.windows → state.new.from ≡ state.new.t }
    ensures parcels { parcels.new ≡ refilled of.now.plan.value of.now.number window }
{
    let count = u64::from(of.lookahead).min(of.half_bits - state.t) as u32;
    arrive(of, window, state, parcels);
    go_apart(of, window, count, state, parcels);
    turn(parcels, count as usize);
    let front = (window + 1) * u64::from(of.lookahead);
    settle_if_due(of, front, window + 1 == of.windows, state);
}
