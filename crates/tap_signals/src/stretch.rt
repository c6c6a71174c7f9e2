//! Stretches of signals of one kind.
ghost use Rattle.std.specs.Prelude.{◌≡◌, ◌+◌, ◌<◌, ◌≤◌, ◌^◌, ◌↔◌, ℕ, Option, OnOk, IsTrue};
ghost use Rattle.tap_signals.specs.declared.kind.SignalKind.{SignalKind};
ghost use Rattle.tap_signals.specs.Stretches.{AreStretches, AreStretchesTo};

use crate::kind::{SignalKind, is_same};
use lists::{List, OutOfMemory};

/// A stretch of half bits, from `start` to before `end`, in each of which a tap emits a signal of this kind.
#[derive(Clone, Copy)]
pub struct Stretch {
    pub start: u64,
    pub end: u64,
    pub kind: SignalKind,
}

/// The stretches of a tap, in order of time.
pub type Stretches = List<Stretch>;

/// The stretches of each of several taps.
pub type StretchesList = List<Stretches>;

/// The half bits that are looked at: from `start` to before `end`.
#[derive(Clone, Copy)]
pub struct Window {
    pub start: u64,
    pub end: u64,
}

/// Whether a stretch goes on where a signal of this kind is emitted in half bit `t`.
fn goes_on(last: Stretch, t: u64, kind: SignalKind) -> bool
    ensures { IsTrue result ↔ ((last.end ≡ t) × (last.kind ≡ kind)) }
{
    last.end == t && is_same(last.kind, kind)
}

/// Adds half bit `t`, in which the tap emits a signal of this kind, to the stretches of those before it.
fn add(stretches: &mut Stretches, t: u64, kind: SignalKind) -> Result<(), OutOfMemory>
    requires { t < 2 ^ 63 }
    ensures { (f : ℕ → Option SignalKind) (from : ℕ) → AreStretches f from t stretches.old → f t ≡ Some kind →
        from ≤ t → OnOk result (AreStretches f from (t + 1) stretches.new) }
{
    let end = t + 1;
    let Some(last) = stretches.pop() else {
        return stretches.push(Stretch {
            start: t,
            end,
            kind,
        });
    };
    if goes_on(last, t, kind) {
        return stretches.push(Stretch {
            start: last.start,
            end,
            kind,
        });
    }
    stretches.push(last)?;
    stretches.push(Stretch {
        start: t,
        end,
        kind,
    })
}

/// Adds what the tap emits in half bit `t` to the stretches of those before it in the window.
pub fn tell(
    stretches: &mut Stretches,
    window: Window,
    t: u64,
    kind: Option<SignalKind>,
) -> Result<(), OutOfMemory>
    requires { t < 2 ^ 63 }
    ensures { (f : ℕ → Option SignalKind) → AreStretchesTo f window.start window.end t stretches.old → f t ≡ kind →
        OnOk result (AreStretchesTo f window.start window.end (t + 1) stretches.new) }
{
    if t < window.start {
        return Ok(());
    }
    if window.end <= t {
        return Ok(());
    }
    let Some(kind) = kind else {
        return Ok(());
    };
    add(stretches, t, kind)
}
