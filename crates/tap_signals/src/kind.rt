//! The kinds of signals.
ghost use Rattle.std.specs.Prelude.{◌≡◌, ◌↔◌, ◌^◌, ◌<◌, IsTrue};
ghost use Rattle.mac_transmit.specs.Sender.{jam_start};
ghost use Rattle.tap_signals.specs.Kinds.{decided_kind, kind_of_mode, sent_kind};

use mac_parameters::{HALF_BITS_A_BIT, PREAMBLE};
use mac_transmit::Phase;
use repeater_core::{Mode, sends_to};

/// What a tap emits. A station sends a frame, and after a hit the jam. A port repeats what another port of its
/// repeater hears, which is counted from 0, or makes a fragment longer, or jams.
#[derive(Clone, Copy)]
pub enum SignalKind {
    Frame,
    Jam,
    Repeat { port: u32 },
    Extend,
}

/// Whether two kinds are the same.
pub fn is_same(a: SignalKind, b: SignalKind) -> bool
    ensures { IsTrue result ↔ (a ≡ b) }
{
    match (a, b) {
        (SignalKind::Frame, SignalKind::Frame) => true,
        (SignalKind::Jam, SignalKind::Jam) => true,
        (SignalKind::Extend, SignalKind::Extend) => true,
        (SignalKind::Repeat { port: p }, SignalKind::Repeat { port: q }) => p == q,
        _ => false,
    }
}

/// The position, from 0, at which the jam of a sending with this hit begins.
fn start_of_jam(hit: u32) -> u64
    ensures { result ≡ jam_start hit }
{
    if hit < PREAMBLE {
        return u64::from(PREAMBLE);
    }
    let bit = u64::from(HALF_BITS_A_BIT);
    bit * (u64::from(hit) / bit + 1)
}

/// What a station sends in half bit `t`, after which its sender is in this phase.
pub fn sent_kind(t: u64, phase: Phase) -> Option<SignalKind>
    ensures { result ≡ sent_kind t phase }
{
    let Phase::Sending { start, hit } = phase else {
        return None;
    };
    let Some(hit) = hit else {
        return Some(SignalKind::Frame);
    };
    if start_of_jam(hit) <= t.saturating_sub(start) {
        return Some(SignalKind::Jam);
    }
    Some(SignalKind::Frame)
}

/// What a repeater in this mode sends.
fn kind_of_mode(mode: Mode) -> Option<SignalKind>
    ensures { result ≡ kind_of_mode mode }
{
    match mode {
        Mode::Idle => None,
        Mode::Repeat { n, .. } => Some(SignalKind::Repeat { port: n }),
        Mode::Extend { .. } => Some(SignalKind::Extend),
        Mode::RxClash { .. } => Some(SignalKind::Jam),
        Mode::TxClash { .. } => Some(SignalKind::Jam),
        Mode::OnePort { .. } => Some(SignalKind::Jam),
    }
}

/// What is decided for a port, counted from 0, in a half bit after which its repeater is in this mode. The port had
/// `rested` half bits of rest left before it, and has `rests` after it.
pub fn decided_kind(mode: Mode, rested: u32, rests: u32, port: u32) -> Option<SignalKind>
    ensures { result ≡ decided_kind mode rested rests port }
{
    if sends_to(mode, port) && rested == 0 && rests == 0 {
        return kind_of_mode(mode);
    }
    None
}
