//! Deference, by its table (IEEE 802.3, 4.2.3.2.1).
ghost use Rattle.std.specs.Prelude.{◌≡◌, ◌≤◌, ◌==◌, ◌||◌, if◌then◌else◌, false};
ghost use Rattle.mac_parameters.specs.Parameters.{interframe_gap, most_half_bits};
ghost use Rattle.mac_transmit.specs.Deference.{deferred, free_of, gap_of, watched};
ghost use Rattle.mac_transmit.specs.Calm.{gap_left, gap_at, waited};
ghost use Rattle.mac_transmit.specs.Sender.{is_sending};

use crate::Phase;
use crate::cases::sending;
use mac_parameters::{INTERFRAME_GAP, INTERFRAME_GAP_PART_1};

/// How a station waits for its turn (IEEE 802.3, 4.2.3.2.1).
#[derive(Clone, Copy)]
pub enum Defer {
    /// Nothing is heard, and the gap has gone.
    Watch,
    /// There is carrier or a sending of the station's own; `was` tells whether it sent meanwhile.
    Busy { was: bool },
    /// `k` half bits of the gap have gone, from 1 to 192.
    Gap { k: u32, was: bool },
}

/// The next state, and whether the station is free to start now.
#[derive(Clone, Copy)]
pub struct Deferral {
    pub next: Defer,
    pub free: bool,
}

fn from_watch(carrier: bool) -> Deferral
    ensures next { result.next ≡ deferred Defer.Watch carrier false false }
    ensures free { result.free ≡ free_of Defer.Watch carrier false }
{
    if carrier {
        Deferral {
            next: Defer::Busy { was: false },
            free: false,
        }
    } else {
        Deferral {
            next: Defer::Watch,
            free: true,
        }
    }
}

/// One half bit of deference, with carrier, a sending of the station's own, and a frame that waits.
pub fn next_deference(state: Defer, carrier: bool, sending: bool, waiting: bool) -> Deferral
    requires { gap_of state ≤ interframe_gap }
    ensures next { result.next ≡ deferred state carrier sending waiting }
    ensures free { result.free ≡ free_of state carrier waiting }
{
    match state {
        Defer::Watch => from_watch(carrier),
        Defer::Busy { was } => {
            let next = if carrier || sending {
                Defer::Busy {
                    was: was || sending,
                }
            } else {
                Defer::Gap { k: 1, was }
            };
            Deferral { next, free: false }
        }
        Defer::Gap { k, was } => {
            if k == INTERFRAME_GAP {
                if waiting {
                    Deferral {
                        next: Defer::Watch,
                        free: true,
                    }
                } else {
                    from_watch(carrier)
                }
            } else if k < INTERFRAME_GAP_PART_1 && !was && carrier {
                Deferral {
                    next: Defer::Busy { was: false },
                    free: false,
                }
            } else {
                Deferral {
                    next: Defer::Gap { k: k + 1, was },
                    free: false,
                }
            }
        }
    }
}

/// The half bits until a station that waits is free, where it hears something in each, or Idle in each; none where it
/// is never free.
pub fn gap_to_wait(state: Defer, carrier: bool) -> Option<u64>
    requires { gap_of state ≤ interframe_gap }
    ensures { result ≡ gap_left carrier state }
{
    match state {
        Defer::Gap { k, was } => {
            if k < INTERFRAME_GAP_PART_1 && !was && carrier {
                None
            } else {
                Some(u64::from(INTERFRAME_GAP - k))
            }
        }
        _ if carrier => None,
        Defer::Watch => Some(0),
        Defer::Busy { .. } => Some(u64::from(INTERFRAME_GAP)),
    }
}

/// The state `k` half bits after the gap began, with or without carrier behind its end.
fn gap_after(k: u32, was: bool, carrier: bool) -> Defer
    ensures { result ≡ gap_at carrier k was }
{
    if k <= INTERFRAME_GAP {
        Defer::Gap { k, was }
    } else {
        from_watch(carrier).next
    }
}

/// Deference after `n` half bits, at least one and at most 2,000,000,000, in which the station doesn't send.
fn deference_after(state: Defer, n: u32, carrier: bool) -> Defer
    requires gap { gap_of state ≤ interframe_gap }
    requires most { n ≤ most_half_bits }
    ensures { result ≡ waited carrier state n }
{
    match state {
        Defer::Watch => from_watch(carrier).next,
        Defer::Busy { was } => {
            if carrier {
                state
            } else {
                gap_after(n, was, carrier)
            }
        }
        Defer::Gap { k, was } => {
            if k < INTERFRAME_GAP_PART_1 && !was && carrier {
                Defer::Busy { was: false }
            } else {
                gap_after(k + n, was, carrier)
            }
        }
    }
}

/// Deference after `n` half bits, at most 2,000,000,000, in which the phase stays as it is.
pub fn defer_leapt(phase: Phase, state: Defer, n: u64, carrier: bool) -> Defer
    requires gap { gap_of state ≤ interframe_gap }
    requires most { n ≤ most_half_bits }
    ensures { result ≡ (if is_sending phase || n == 0 then state else waited carrier state n) }
{
    if sending(phase) || n == 0 {
        state
    } else {
        deference_after(state, n as u32, carrier)
    }
}
