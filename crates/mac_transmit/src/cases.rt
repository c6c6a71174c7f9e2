//! The cases of a sender's half bit, on plain values.
ghost use Rattle.std.specs.Prelude.{◌≡◌, ◌<◌, ◌≤◌, ◌+◌, ◌^◌, ◌==◌, ◌||◌, if◌then◌else◌, length, IfNone};
ghost use Rattle.mac_parameters.specs.Parameters.{least_frame, shortest_line_text};
ghost use Rattle.mac_transmit.specs.Laws.{carrier_after};
ghost use Rattle.mac_transmit.specs.Sender.{jam_start, sending_length, line_length, line_at, symbol_of, hit_at, is_sending, is_waiting, phase_started, defer_started, phase_after};

use crate::{Defer, Phase};
use mac_parameters::{HALF_BITS_A_BIT, HALF_BITS_AN_OCTET, JAM_SIZE, PREAMBLE};
use manchester_line::{Sym, jam_sym, line_sym};

/// The position, from 0, at which the jam begins.
pub fn start_of_jam(hit: u32) -> u64
    ensures start { result ≡ jam_start hit }
    ensures small { result < 2 ^ 33 }
{
    if hit < PREAMBLE {
        u64::from(PREAMBLE)
    } else {
        let bit = u64::from(HALF_BITS_A_BIT);
        bit * (u64::from(hit) / bit + 1)
    }
}

/// The half bits of a frame's line text.
#[tactic(auto, unfolding(crate::specs::Sender::line_length), using(manchester_line::proofs::Places::length_line))]
fn whole_length(octets: &[u8]) -> u64
    requires least { least_frame ≤ length octets.now }
    requires most { length octets.now ≤ 1600 }
    ensures length { result ≡ line_length octets.now }
    ensures least { shortest_line_text ≤ result }
    ensures small { result < 2 ^ 33 }
{
    u64::from(PREAMBLE) + u64::from(HALF_BITS_AN_OCTET) * octets.len() as u64
}

/// The half bits of a sending.
pub fn length_with(octets: &[u8], hit: Option<u32>) -> u64
    requires least { least_frame ≤ length octets.now }
    requires most { length octets.now ≤ 1600 }
    ensures length { result ≡ sending_length octets.now hit }
    ensures whole { IfNone hit (shortest_line_text ≤ result) }
    ensures small { result < 2 ^ 34 }
{
    match hit {
        None => whole_length(octets),
        Some(hit) => start_of_jam(hit) + u64::from(JAM_SIZE),
    }
}

/// Half bit `p` of the frame's line text.
#[tactic(auto, unfolding(crate::specs::Sender::line_at))]
fn line_symbol(octets: &[u8], p: u64) -> Sym
    requires length { length octets.now ≤ 1600 }
    requires place { p < 2 ^ 32 }
    ensures { result ≡ line_at octets.now p }
{
    line_sym(octets, p as u32)
}

/// The symbol at position `p`, from 0, of a sending of these octets with this hit (4.2.3.2.4).
pub fn symbol_at(octets: &[u8], hit: Option<u32>, p: u64) -> Sym
    requires length { length octets.now ≤ 1600 }
    requires place { p < 2 ^ 32 }
    ensures symbol { result ≡ symbol_of octets.now hit p }
{
    match hit {
        None => line_symbol(octets, p),
        Some(hit) => {
            let jam = start_of_jam(hit);
            if p < jam {
                line_symbol(octets, p)
            } else {
                jam_sym((p - jam) as u32)
            }
        }
    }
}

/// The hit of a sending with or without carrier at position `p`.
pub fn new_hit(hit: Option<u32>, carrier: bool, p: u64) -> Option<u32>
    requires { p < 2 ^ 32 }
    ensures { result ≡ hit_at hit carrier p }
{
    match (hit, carrier) {
        (None, true) => Some(p as u32),
        _ => hit,
    }
}

pub fn sending(phase: Phase) -> bool
    ensures { result ≡ is_sending phase }
{
    matches!(phase, Phase::Sending { .. })
}

pub fn waiting(phase: Phase) -> bool
    ensures { result ≡ is_waiting phase }
{
    matches!(phase, Phase::Waiting)
}

/// The phase after a station that is free or not could start in half bit `t`.
pub fn phase_if_free(t: u64, phase: Phase, free: bool) -> Phase
    ensures { result ≡ phase_started t phase free }
{
    match phase {
        Phase::Waiting if free => Phase::Sending {
            start: t,
            hit: None,
        },
        _ => phase,
    }
}

/// The state of deference after a station that is free or not could start.
pub fn defer_if_free(phase: Phase, free: bool, defer: Defer) -> Defer
    ensures { result ≡ defer_started phase free defer }
{
    match phase {
        Phase::Waiting if free => Defer::Busy { was: true },
        _ => defer,
    }
}

/// The phase after half bit `t`, in which a sending may get its hit.
pub fn phase_with_hit(t: u64, phase: Phase, carrier: bool) -> Phase
    requires { t < 2 ^ 32 }
    ensures { result ≡ phase_after t phase carrier }
{
    match phase {
        Phase::Sending { start, hit } => Phase::Sending {
            start,
            hit: new_hit(hit, carrier, t.saturating_sub(start)),
        },
        _ => phase,
    }
}

/// The first of the half bits one after another, up to `t`, in which something was heard.
pub fn carrier_since(from: u64, t: u64, carrier: bool) -> u64
    requires { t < 2 ^ 32 }
    ensures { result ≡ carrier_after from t carrier }
{
    if carrier { from } else { t + 1 }
}

/// The same after `n` half bits from `t` on, in each of which something was heard, or Idle in each.
pub fn carrier_leapt(from: u64, t: u64, n: u64, carrier: bool) -> u64
    requires { t + n < 2 ^ 32 }
    ensures { result ≡ (if carrier || n == 0 then from else t + n) }
{
    if carrier || n == 0 { from } else { t + n }
}
