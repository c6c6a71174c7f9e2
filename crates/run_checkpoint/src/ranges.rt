//! What the numbers of a state keep.
ghost use Rattle.std.specs.Prelude.{◌≡◌};
ghost use Rattle.layout.specs.NameOctets.{is_between};
ghost use Rattle.run_checkpoint.specs.GuardLines.{guard_of_line};
ghost use Rattle.run_checkpoint.specs.Ranges.{is_defer_in, is_guard_in, is_phase_in, is_sender_in};
ghost use Rattle.run_checkpoint.specs.SenderLines.{defer_of_line, sender_of_line};

use crate::fields::BEYOND_RANGES;
use crate::guard_line::GuardLine;
use crate::sender_line::{DeferLine, SenderLine};
use mac_parameters::{
    ATTEMPT_LIMIT, INTERFRAME_GAP, JABBER_REST, LAST_BACKOFF, MOST_DRAWS, PARTITION_COLLISION,
    PARTITION_IN_A_ROW, RECONNECTION,
};
use mac_transmit::Phase;

/// The greatest number that is drawn.
pub const GREATEST_DRAW: u32 = 1_023;

/// Whether a number is in a range.
pub fn is_between(least: u64, most: u64, n: u64) -> bool
    ensures { result ≡ is_between least most n }
{
    least <= n && n <= most
}

/// Whether a sender with so many frames, of which it is at this place, may do this.
fn is_phase_in(frames: u64, place: u64, phase: &Phase) -> bool
    ensures { result ≡ is_phase_in frames place phase.now }
{
    match *phase {
        Phase::Rest => true,
        Phase::Waiting => place < frames,
        Phase::Sending { .. } => false,
        Phase::Backoff { until } => place < frames && until <= LAST_BACKOFF,
    }
}

/// Whether a sender may wait so.
fn is_defer_in(defer: &DeferLine) -> bool
    ensures { result ≡ is_defer_in (defer_of_line defer.now) }
{
    match *defer {
        DeferLine::Gap { k, .. } => is_between(1, u64::from(INTERFRAME_GAP), k),
        _ => true,
    }
}

/// Whether a sender with so many frames may have this state.
#[tactic(auto, unfolding(crate::specs::Ranges::is_sender_in))]
pub fn is_sender_in(frames: u64, s: &SenderLine) -> bool
    ensures { result ≡ is_sender_in frames (sender_of_line s.now) }
{
    s.place < BEYOND_RANGES
        && s.place <= frames
        && is_phase_in(frames, s.place, &s.phase)
        && is_defer_in(&s.defer)
        && is_between(1, u64::from(ATTEMPT_LIMIT), s.attempt)
        && s.drawn <= MOST_DRAWS
}

/// Whether a port may have this guard and rest for so many half bits.
#[tactic(auto, unfolding(crate::specs::Ranges::is_guard_in))]
pub fn is_guard_in(line: &GuardLine) -> bool
    ensures { result ≡ is_guard_in (guard_of_line line.now).0 line.now.rest }
{
    line.in_row <= u64::from(PARTITION_IN_A_ROW)
        && line.clash_run <= u64::from(PARTITION_COLLISION)
        && line.clean_run <= u64::from(RECONNECTION)
        && (!line.mend || line.closed)
        && line.rest < u64::from(JABBER_REST)
}
