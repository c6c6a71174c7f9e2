//! What a station does with its turn, on plain values.
ghost use Rattle.std.specs.Prelude.{◌≡◌, ◌≤◌};
ghost use Rattle.mac_parameters.specs.Parameters.{interframe_gap};
ghost use Rattle.mac_transmit.specs.Deference.{deferred, free_of, gap_of};
ghost use Rattle.mac_transmit.specs.Sender.{is_sending, is_waiting, phase_started, defer_started};

use crate::cases::{defer_if_free, phase_if_free, sending, waiting};
use crate::deference::next_deference;
use crate::{Defer, Phase};

/// What a station does in a half bit, and how it waits after it.
#[derive(Clone, Copy)]
pub struct Turn {
    pub phase: Phase,
    pub defer: Defer,
}

/// Deference in half bit `t`, and the start of a waiting station that is free.
pub fn take_turn(t: u64, phase: Phase, defer: Defer, carrier: bool) -> Turn
    requires { gap_of defer ≤ interframe_gap }
    ensures phase { result.phase ≡ phase_started t phase (free_of defer carrier (is_waiting phase)) }
    ensures defer { result.defer ≡ defer_started phase (free_of defer carrier (is_waiting phase)) (deferred defer carrier (is_sending phase) (is_waiting phase)) }
{
    let step = next_deference(defer, carrier, sending(phase), waiting(phase));
    Turn {
        phase: phase_if_free(t, phase, step.free),
        defer: defer_if_free(phase, step.free, step.next),
    }
}
