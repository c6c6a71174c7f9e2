//! The passes over the ports of a repeater.
ghost use Rattle.std.specs.Prelude.{◌≡◌, ◌≤◌, ◌<◌, ◌^◌, length, map};
ghost use Rattle.mac_parameters.specs.Parameters.{most_ports};
ghost use Rattle.repeater_core.specs.Counts.{choices_from};
ghost use Rattle.manchester_line.specs.Line.{is_signal};
ghost use Rattle.repeater_core.specs.Step.{collides, guards_after, guard_events, is_closing, is_opening, mask_from};

use crate::counts::PortCount;
use crate::masks::with_port;
use crate::modes::{Mode, wish};
use manchester_line::{Sym, is_signal};
use port_partition::{GuardEvent, PortGuard};

/// Decides a symbol for each port from the mode's wishes, and answers the ports that are halted (jabber lockup
/// protection), bit p for port p, counted from 0.
pub fn decide_all(mode: Mode, hears: &[Sym], counts: &mut [PortCount], decided: &mut [Sym]) -> u32
    requires few { length counts.old ≤ most_ports }
    requires as_many { length decided.old ≡ length counts.old }
    ensures counts { counts.new ≡ map (λ c. c.count) (choices_from mode hears.now 0 counts.old) }
    ensures decided { decided.new ≡ map (λ c. c.symbol) (choices_from mode hears.now 0 counts.old) }
    ensures halted { result ≡ mask_from 0 (map (λ c. c.halted) (choices_from mode hears.now 0 counts.old)) }
{
    let mut halted = 0;
    for k in 0..counts.len() {
        let count = &mut counts[k];
        let decision = count.decide(wish(mode, hears, k as u32));
        decided[k] = decision.symbol;
        halted = with_port(halted, k, decision.halted);
    }
    halted
}

/// Whether a port collides.
pub fn collision_at(hears: Sym, emits: Sym) -> bool
    ensures { result ≡ collides hears emits }
{
    hears == Sym::Clash || is_signal(hears) && is_signal(emits)
}

/// The ports that were closed (partition) or opened (reconnection), bit p for port p, counted from 0.
#[derive(Clone, Copy)]
pub struct Changes {
    pub closed: u32,
    pub opened: u32,
}

/// Each guard's half bit.
pub fn guard_all(guards: &mut [PortGuard], hears: &[Sym], emits: &[Sym]) -> Changes
    requires few { length guards.old ≤ most_ports }
    requires hears_len { length hears.now ≡ length guards.old }
    requires emits_len { length emits.now ≡ length guards.old }
    ensures guards { guards.new ≡ guards_after guards.old hears.now emits.now }
    ensures closed { result.closed ≡ mask_from 0 (map is_closing (guard_events guards.old hears.now emits.now)) }
    ensures opened { result.opened ≡ mask_from 0 (map is_opening (guard_events guards.old hears.now emits.now)) }
{
    let mut closed = 0;
    let mut opened = 0;
    for k in 0..guards.len() {
        let guard = &mut guards[k];
        let event = guard.step(
            is_signal(hears[k]),
            collision_at(hears[k], emits[k]),
            is_signal(emits[k]),
        );
        closed = with_port(closed, k, event == GuardEvent::Closed);
        opened = with_port(opened, k, event == GuardEvent::Opened);
    }
    Changes { closed, opened }
}
