//! Half bits in which nothing happens on a segment, many at once.
ghost use Rattle.std.specs.Prelude.{◌≡◌, ◌≤◌, ◌<◌, ◌+◌, ◌^◌, ℕ, All, length, slice_index_or};
ghost use Rattle.mac_parameters.specs.Parameters.{most_half_bits};
ghost use Rattle.mac_receive.specs.KeptReceiver.{KeptReception};
ghost use Rattle.mac_transmit.specs.Sender.{Sender, is_sending as is_sending_in};
ghost use Rattle.net_parts.specs.SegmentParts.{wiring};
ghost use Rattle.segment_engine.specs.QuietHalfBits.{AreAtRest, ComeInIdle, HasLeapt, IsCalmFor, IsQuietFor};
ghost use Rattle.segment_engine.specs.RunningStates.{GoesOnAt, IsRunningAt};
ghost use Rattle.segment_engine.specs.SteadyPieces.{IsCalmAs};
ghost use Rattle.segment_engine.specs.declared.apart.Watch.{Watch};

use crate::apart::{Watch, first_due, forget_all, settle};
use crate::running::Running;
use crate::segment::Segment;
use mac_transmit::{Phase, Transmitter};
use reception_laws::LateReceiver;
use tap_lines::are_idle_from;

/// Whether a sending is under way.
pub fn is_sending(sender: &Transmitter) -> bool
    ensures { result ≡ is_sending_in sender.now.phase }
{
    match sender.phase() {
        Phase::Sending { .. } => true,
        _ => false,
    }
}

/// For how many half bits from `t` on, at most `most`, nothing happens to a sender whose station hears something in each,
/// as `carrier` says, or Idle in each.
pub fn before_change(sender: &Transmitter, t: u64, carrier: bool, most: u64) -> u64
    requires time { t ≡ sender.now.t }
    requires in_time { t < most_half_bits }
    ensures within { result ≤ most }
    ensures calm { IsCalmAs result carrier sender.now }
    ensures greatest { (n : ℕ) → n ≤ most → IsCalmAs n carrier sender.now → n ≤ result }
{
    match sender.next_change(t, carrier) {
        None => most,
        Some(change) => change.min(most),
    }
}

/// For how many half bits from `t` on, at most `most`, nothing happens to stations that hear Idle, none of which sends or
/// receives.
fn calm_half_bits(t: u64, senders: &[Transmitter], receivers: &[LateReceiver], most: u64) -> u64
    requires many { length receivers.now ≡ length senders.now }
    requires times { All (λ s. s.t ≡ t) senders.now }
    requires in_time { t < most_half_bits }
    ensures within { result ≤ most }
    ensures calm { 0 < result → All (IsCalmFor result) senders.now }
    ensures rest { 0 < result → AreAtRest receivers.now }
    ensures greatest { (n : ℕ) → n ≤ most → All (IsCalmFor n) senders.now → AreAtRest receivers.now → n ≤ result }
{
    let mut calm = most;
    for k in 0..senders.len() {
        if is_sending(&senders[k]) || receivers[k].is_receiving() {
            return 0;
        }
        calm = before_change(&senders[k], t, false, calm);
    }
    calm
}

/// For how many half bits from its present one on, at most `most`, nothing happens.
pub fn quiet_ahead(of: &Segment, state: &Running, most: u64) -> u64
    requires goes { GoesOnAt of.now state.now.t state.now }
    requires in_time { state.now.t < most_half_bits }
    requires few { most < 2 ^ 32 }
    ensures within { result ≤ most }
    ensures quiet { (n : ℕ) → 0 < n → n ≤ result → IsQuietFor n state.now }
{
    let _ = of;
    let t = state.t;
    if !are_idle_from(&state.lines, t.saturating_sub(state.far)) {
        return 0;
    }
    if state.from != t {
        return first_due(&state.watches, t + most) - t;
    }
    calm_half_bits(t, &state.senders, &state.receivers, most)
}

/// So many half bits from `t` on of stations that hear Idle and to which nothing happens in them.
fn leap_all(
    t: u64,
    count: u64,
    watches: &mut [Watch],
    senders: &mut [Transmitter],
    receivers: &mut [LateReceiver],
)
    requires many { length receivers.old ≡ length senders.old }
    requires watched { length watches.old ≡ length senders.old }
    requires times { All (λ s. s.t ≡ t) senders.old }
    requires steps { All (λ r. r.steps ≡ t) receivers.old }
    requires in_time { t + count ≤ most_half_bits }
    requires calm { All (IsCalmFor count) senders.old }
    requires rest { AreAtRest receivers.old }
    ensures { (i : ℕ) (w : Watch) (s s' : Sender) (k k' : KeptReception) → i < length senders.new →
        HasLeapt t count (slice_index_or watches.new i w) (slice_index_or senders.old i s) (slice_index_or senders.new i s')
        (slice_index_or receivers.old i k) (slice_index_or receivers.new i k') }
{
    for k in 0..senders.len() {
        senders[k].pass(t, count, false);
        receivers[k].leap_quiet(count);
        let watch = &mut watches[k];
        watch.since = t + count;
        watch.until = t + count;
        watch.told = u64::MAX;
    }
}

/// So many half bits in which nothing happens and nothing but Idle comes in.
pub fn pass(of: &Segment, count: u64, state: &mut Running)
    requires at { IsRunningAt of.now state.old.t state.old }
    requires in_time { state.old.t + count ≤ most_half_bits }
    requires quiet { IsQuietFor count state.old }
    requires silent { ComeInIdle of.now.plan.value (wiring of.now.plan.value.layout of.now.number).edges state.old.t count }
    ensures at { IsRunningAt of.now state.new.t state.new }
    ensures time { state.new.t ≡ state.old.t + count }
    ensures from { state.new.from ≡ state.new.t }
    ensures room { state.new.room ≡ state.old.room }
{
    settle(of, state.t, state);
    let t = state.t;
    leap_all(
        t,
        count,
        &mut state.watches,
        &mut state.senders,
        &mut state.receivers,
    );
    state.t = t + count;
    state.from = t + count;
    forget_all(t + count, &mut state.lines);
}
