//! The modes of a repeater.
ghost use Rattle.std.specs.Prelude.{◌≡◌, ◌<◌, ◌≤◌, ◌+◌, length, slice_index_or};
ghost use Rattle.manchester_line.specs.declared.Sym.TheVariants as sym;
ghost use Rattle.repeater_core.specs.declared.modes.Activity.TheVariants.{Nobody, One, Several};
ghost use Rattle.std.specs.Fn.{iterate};
ghost use Rattle.repeater_core.specs.Limits.{counts_end, most_calm};
ghost use Rattle.mac_parameters.specs.Parameters.{most_ports};
ghost use Rattle.repeater_core.specs.SilentParts.{sends_for, sends_to, silent_mode, IsAfterSilence};
ghost use Rattle.repeater_core.specs.Modes.{joined, activity_at, count_of, jams_of, next_count, mode_after, activity_from, is_tx_clash, wish_of};
ghost use Rattle.manchester_line.specs.Line.{is_signal};
ghost use Rattle.repeater_core.specs.Steady.{mode_on, mode_steady, sent_text};
ghost use Rattle.repeater_core.specs.Classes.{text_for};

use crate::limits::{JAM_PERIOD, MOST_CALM};
use mac_parameters::{FRAGMENT_EXTENSION, PREAMBLE};
use manchester_line::{Sym, header_sym, is_signal, jam_sym};
use port_partition::PortGuard;

/// The counts of a mode are all below this: one period of the jam goes beyond the fragment extension.
const COUNTS_END: u32 = FRAGMENT_EXTENSION + JAM_PERIOD;

/// The most steady half bits that are told at a time.
pub const MOST_STEADY: u32 = MOST_CALM as u32;

/// The count up to which a mode sends in silent half bits: the last of the fragment extension.
const LAST_SENT: u32 = FRAGMENT_EXTENSION - 1;

/// What a repeater does. `n` is a port, counted from 0, `i` counts the half bits of the output, 0 to 195,
/// and `j` those of the jam that makes a short reception longer.
#[derive(Clone, Copy, Debug, PartialEq, Eq)]
pub enum Mode {
    /// No port is active.
    Idle,
    /// Port `n` is repeated to the others.
    Repeat { n: u32, i: u32 },
    /// Port `n` ended early, and the output to the others is made longer (fragment extension).
    Extend { n: u32, i: u32, j: u32 },
    /// Port `n` has a collision, and the others get the jam.
    RxClash { n: u32, i: u32 },
    /// Several ports are active, and all get the jam.
    TxClash { i: u32 },
    /// Port `n` alone is left of a collision, and the others get the jam.
    OnePort { n: u32, i: u32 },
}

/// Which ports are active in a half bit.
#[derive(Clone, Copy)]
pub enum Activity {
    Nobody,
    One { n: u32, heard: Sym },
    Several,
}

/// The active ports with port `n` too, if it is open and hears a signal.
#[tactic(auto, using(crate::proofs::JoinedActivities::joined_nobody))]
fn with_active(active: Activity, n: u32, guard: &PortGuard, heard: Sym) -> Activity
    ensures { result ≡ joined active (activity_at n guard.now heard) }
{
    if guard.closed || !is_signal(heard) {
        return active;
    }
    match active {
        Activity::Nobody => Activity::One { n, heard },
        _ => Activity::Several,
    }
}

/// Which of the ports are active: those that are open and hear a signal.
#[tactic(auto, using(crate::proofs::JoinedActivities::joined_assoc, crate::proofs::JoinedActivities::joined_nobody))]
pub fn active_ports(guards: &[PortGuard], hears: &[Sym]) -> Activity
    requires few { length guards.now ≤ most_ports }
    requires as_many { length hears.now ≡ length guards.now }
    ensures { result ≡ activity_from 0 guards.now hears.now }
{
    let mut active = Activity::Nobody;
    for k in 0..hears.len() {
        active = with_active(active, k as u32, &guards[k], hears[k]);
    }
    active
}

fn next_index(i: u32) -> u32
    requires { i < counts_end }
    ensures { result ≡ next_count i }
{
    if i + 1 == COUNTS_END {
        FRAGMENT_EXTENSION
    } else {
        i + 1
    }
}

fn without_activity(mode: Mode) -> Mode
    requires counts { count_of mode < counts_end }
    requires jams { jams_of mode ≤ count_of mode }
    ensures { result ≡ mode_after mode Nobody }
{
    match mode {
        Mode::Repeat { n, i } if next_index(i) < FRAGMENT_EXTENSION => Mode::Extend {
            n,
            i: next_index(i),
            j: 0,
        },
        Mode::Extend { n, i, j } if next_index(i) < FRAGMENT_EXTENSION => Mode::Extend {
            n,
            i: next_index(i),
            j: j + 1,
        },
        Mode::RxClash { n, i } if next_index(i) < FRAGMENT_EXTENSION => Mode::RxClash {
            n,
            i: next_index(i),
        },
        Mode::TxClash { i } if next_index(i) < FRAGMENT_EXTENSION => Mode::TxClash {
            i: next_index(i),
        },
        _ => Mode::Idle,
    }
}

fn with_one(mode: Mode, m: u32, heard: Sym) -> Mode
    requires counts { count_of mode < counts_end }
    ensures { result ≡ mode_after mode (One m heard) }
{
    match mode {
        Mode::Idle if heard == Sym::Clash => Mode::RxClash { n: m, i: 0 },
        Mode::Idle => Mode::Repeat { n: m, i: 0 },
        Mode::Repeat { n, .. } if m == n && heard == Sym::Clash => Mode::RxClash { n, i: 0 },
        Mode::Repeat { n, i } if m == n => Mode::Repeat {
            n,
            i: next_index(i),
        },
        Mode::Extend { n, .. } if m == n => Mode::RxClash { n, i: 0 },
        Mode::RxClash { n, i } if m == n => Mode::RxClash {
            n,
            i: next_index(i),
        },
        Mode::TxClash { i } if next_index(i) < FRAGMENT_EXTENSION => Mode::TxClash {
            i: next_index(i),
        },
        Mode::TxClash { .. } => Mode::OnePort { n: m, i: 0 },
        Mode::OnePort { n, i } if m == n => Mode::OnePort {
            n,
            i: next_index(i),
        },
        _ => Mode::TxClash { i: 0 },
    }
}

fn with_several(mode: Mode) -> Mode
    requires counts { count_of mode < counts_end }
    ensures { result ≡ mode_after mode Several }
{
    match mode {
        Mode::TxClash { i } => Mode::TxClash { i: next_index(i) },
        _ => Mode::TxClash { i: 0 },
    }
}

/// The mode after a half bit with these active ports.
pub fn next_mode(mode: Mode, active: Activity) -> Mode
    requires counts { count_of mode < counts_end }
    requires jams { jams_of mode ≤ count_of mode }
    ensures { result ≡ mode_after mode active }
{
    match active {
        Activity::Nobody => without_activity(mode),
        Activity::One { n, heard } => with_one(mode, n, heard),
        Activity::Several => with_several(mode),
    }
}

/// The silent half bits in which a mode goes on sending: the rest of the fragment extension.
pub fn sends_for(mode: Mode) -> u32
    ensures { result ≡ sends_for mode }
{
    match mode {
        Mode::Idle | Mode::OnePort { .. } => 0,
        Mode::Repeat { i, .. } => LAST_SENT.saturating_sub(i),
        Mode::Extend { i, .. } => LAST_SENT.saturating_sub(i),
        Mode::RxClash { i, .. } => LAST_SENT.saturating_sub(i),
        Mode::TxClash { i } => LAST_SENT.saturating_sub(i),
    }
}

/// Whether a mode that sends does so to this port, counted from 0.
pub fn sends_to(mode: Mode, port: u32) -> bool
    ensures { result ≡ sends_to mode port }
{
    match mode {
        Mode::Idle => false,
        Mode::TxClash { .. } => true,
        Mode::Repeat { n, .. } => n != port,
        Mode::Extend { n, .. } => n != port,
        Mode::RxClash { n, .. } => n != port,
        Mode::OnePort { n, .. } => n != port,
    }
}

/// A mode that a silent half bit led to, after so many more of them.
#[tactic(auto, using(crate::proofs::SilentModes::later_is))]
fn later_mode(mode: Mode, n: u32) -> Mode
    requires after_silence { IsAfterSilence mode }
    requires jams { jams_of mode ≤ count_of mode }
    requires few { n ≤ most_calm }
    ensures { result ≡ iterate silent_mode n mode }
{
    match mode {
        Mode::Extend { n: port, i, j } if i + n < FRAGMENT_EXTENSION => Mode::Extend {
            n: port,
            i: i + n,
            j: j + n,
        },
        Mode::RxClash { n: port, i } if i + n < FRAGMENT_EXTENSION => Mode::RxClash {
            n: port,
            i: i + n,
        },
        Mode::TxClash { i } if i + n < FRAGMENT_EXTENSION => Mode::TxClash { i: i + n },
        _ => Mode::Idle,
    }
}

/// A mode after so many silent half bits.
#[tactic(auto, using(crate::proofs::SilentModes::after_silence, crate::proofs::SilentModes::jams_stay))]
pub fn silent_mode(mode: Mode, n: u32) -> Mode
    requires counts { count_of mode < counts_end }
    requires jams { jams_of mode ≤ count_of mode }
    requires few { n ≤ most_calm }
    ensures { result ≡ iterate silent_mode n mode }
{
    if n == 0 {
        return mode;
    }
    later_mode(without_activity(mode), n - 1)
}

/// The mode after a half bit in which it changes by its counts alone.
pub fn mode_on(mode: Mode) -> Mode
    requires counts { count_of mode < counts_end }
    requires jams { jams_of mode ≤ count_of mode }
    ensures { result ≡ mode_on mode }
{
    match mode {
        Mode::Idle => Mode::Idle,
        Mode::Repeat { n, i } => Mode::Repeat {
            n,
            i: next_index(i),
        },
        Mode::Extend { n, i, j } => Mode::Extend {
            n,
            i: next_index(i),
            j: j + 1,
        },
        Mode::RxClash { n, i } => Mode::RxClash {
            n,
            i: next_index(i),
        },
        Mode::TxClash { i } => Mode::TxClash { i: next_index(i) },
        Mode::OnePort { n, i } => Mode::OnePort {
            n,
            i: next_index(i),
        },
    }
}

/// For how many half bits with these active ports a mode changes by its counts alone, or all that are told.
pub fn mode_steady(mode: Mode, active: Activity) -> u32
    ensures { result ≡ mode_steady mode active }
{
    match (mode, active) {
        (Mode::Idle, Activity::Nobody) => MOST_STEADY,
        (Mode::TxClash { .. }, Activity::Several) => MOST_STEADY,
        (Mode::Extend { i, .. }, Activity::Nobody) => LAST_SENT.saturating_sub(i),
        (Mode::RxClash { i, .. }, Activity::Nobody) => LAST_SENT.saturating_sub(i),
        (Mode::TxClash { i }, _) => LAST_SENT.saturating_sub(i),
        (
            Mode::Repeat { .. },
            Activity::One {
                heard: Sym::Clash,
                ..
            },
        ) => 0,
        (Mode::Repeat { n, .. }, Activity::One { n: m, .. }) if m == n => MOST_STEADY,
        (Mode::RxClash { n, .. }, Activity::One { n: m, .. }) if m == n => MOST_STEADY,
        (Mode::OnePort { n, .. }, Activity::One { n: m, .. }) if m == n => MOST_STEADY,
        _ => 0,
    }
}

/// What a mode sends, to whom it does.
pub fn sent_text(mode: Mode, hears: &[Sym]) -> Sym
    ensures { result ≡ sent_text mode hears.now }
{
    match mode {
        Mode::Idle => Sym::Idle,
        Mode::Repeat { i, .. } if i < PREAMBLE => header_sym(i),
        Mode::Repeat { n, .. } => heard_by(hears, n),
        Mode::Extend { j, .. } => jam_sym(j),
        Mode::RxClash { i, .. } => jam_sym(i),
        Mode::TxClash { i } => jam_sym(i),
        Mode::OnePort { i, .. } => jam_sym(i),
    }
}

/// What a mode sends, to whom it does, where the port that it repeats hears this.
pub fn text_for(mode: Mode, heard: Sym) -> Sym
    ensures { result ≡ text_for mode heard }
{
    match mode {
        Mode::Idle => Sym::Idle,
        Mode::Repeat { i, .. } => { if i < PREAMBLE { header_sym(i) } else { heard } }
        Mode::Extend { j, .. } => jam_sym(j),
        Mode::RxClash { i, .. } => jam_sym(i),
        Mode::TxClash { i } => jam_sym(i),
        Mode::OnePort { i, .. } => jam_sym(i),
    }
}

/// Whether several ports collide.
pub fn collision(mode: Mode) -> bool
    ensures { result ≡ is_tx_clash mode }
{
    match mode {
        Mode::TxClash { .. } => true,
        _ => false,
    }
}

fn heard_by(hears: &[Sym], n: u32) -> Sym
    ensures { result ≡ slice_index_or hears.now n sym.Idle }
{
    match hears.get(n as usize) {
        Some(s) => *s,
        None => Sym::Idle,
    }
}

/// What the mode after a half bit wishes for a port, counted from 0.
pub fn wish(mode: Mode, hears: &[Sym], port: u32) -> Sym
    ensures { result ≡ wish_of mode hears.now port }
{
    match mode {
        Mode::Idle => Sym::Idle,
        Mode::TxClash { i } => jam_sym(i),
        Mode::Repeat { n, i } => {
            if n == port {
                Sym::Idle
            } else if i < PREAMBLE {
                header_sym(i)
            } else {
                heard_by(hears, n)
            }
        }
        Mode::Extend { n, j, .. } => { if n == port { Sym::Idle } else { jam_sym(j) } }
        Mode::RxClash { n, i } | Mode::OnePort { n, i } => {
            if n == port { Sym::Idle } else { jam_sym(i) }
        }
    }
}
