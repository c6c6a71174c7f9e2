//! Silent half bits, in which no port hears anything: for how many of them nothing happens, the calm, and what becomes
//! of guards and counts.
ghost use Rattle.std.specs.Prelude.{◌≡◌, ◌≤◌, ◌<◌, length, map, replicate, IsTrue, true};
ghost use Rattle.std.specs.List.{All};
ghost use Rattle.manchester_line.specs.declared.Sym.TheVariants as sym;
ghost use Rattle.repeater_core.specs.Counts.{resting_count};
ghost use Rattle.std.specs.Fn.{iterate};
ghost use Rattle.mac_parameters.specs.Parameters.{most_ports};
ghost use Rattle.repeater_core.specs.SilentParts.{idle_front, port_calm, ports_calm, any_opens, silent_guard, silent_count, is_unchanged};

use crate::counts::PortCount;
use crate::limits::MOST_CALM;
use crate::modes::{Mode, sends_for, sends_to};
use manchester_line::{Sym, is_signal};
use port_partition::PortGuard;

/// The Idle symbols before the first signal.
pub fn idle_front(symbols: &[Sym]) -> usize
    ensures count { result ≡ idle_front symbols.now }
    ensures within { result ≤ length symbols.now }
{
    for k in 0..symbols.len() {
        if is_signal(symbols[k]) {
            return k;
        }
    }
    symbols.len()
}

/// Whether a port may be connected again, which a silent half bit does.
pub fn any_opens(guards: &[PortGuard]) -> bool
    ensures { result ≡ any_opens guards.now }
{
    for guard in guards {
        if guard.closed && guard.mend {
            return true;
        }
    }
    false
}

fn port_calm(mode: Mode, port: u32, rest: u32) -> u64
    ensures { result ≡ port_calm mode port rest }
{
    if sends_to(mode, port) && rest < sends_for(mode) {
        u64::from(rest)
    } else {
        MOST_CALM
    }
}

/// The calm of the ports in this mode.
pub fn ports_calm(mode: Mode, counts: &[PortCount]) -> u64
    requires { length counts.now ≤ most_ports }
    ensures { result ≡ ports_calm mode 0 counts.now }
{
    let mut calm = MOST_CALM;
    for k in 0..counts.len() {
        let count = &counts[k];
        calm = calm.min(port_calm(mode, k as u32, count.rest));
    }
    calm
}

/// Each guard's silent half bit, in which its port emits nothing.
pub fn silent_guards(guards: &mut [PortGuard])
    ensures { guards.new ≡ map silent_guard guards.old }
{
    for guard in guards.iter_mut() {
        guard.step(false, false, false);
    }
}

/// So many half bits of the ports' counts, in each of which each port rests or nothing is wished for it.
pub fn silent_counts(counts: &mut [PortCount], n: u64)
    ensures { counts.new ≡ map (λ c. iterate silent_count n c) counts.old }
{
    for count in counts.iter_mut() {
        count.be_silent(n);
    }
}

fn is_fresh(count: &PortCount) -> bool
    ensures { IsTrue result → count.now ≡ resting_count 0 }
{
    count.run == 0 && count.rest == 0 && !count.after_rest
}

/// Whether no port has output or rests.
pub fn counts_fresh(counts: &[PortCount]) -> bool
    ensures { IsTrue result → All (λ c. c ≡ resting_count 0) counts.now }
{
    for count in counts {
        if !is_fresh(count) {
            return false;
        }
    }
    true
}

fn guard_unchanged(guard: &PortGuard) -> bool
    ensures { result ≡ is_unchanged guard.now }
{
    !(guard.closed && guard.mend) && !guard.struck && guard.clash_run == 0 && guard.clean_run == 0
}

/// Whether a silent half bit, in which no port emits anything, leaves the guards as they are.
pub fn guards_unchanged(guards: &[PortGuard]) -> bool
    ensures { IsTrue result → All (λ g. is_unchanged g ≡ true) guards.now }
{
    for guard in guards {
        if !guard_unchanged(guard) {
            return false;
        }
    }
    true
}

/// Whether all symbols are Idle.
pub fn all_idle(symbols: &[Sym]) -> bool
    ensures { IsTrue result → All (λ s. s ≡ sym.Idle) symbols.now }
{
    for symbol in symbols {
        if *symbol != Sym::Idle {
            return false;
        }
    }
    true
}

/// Makes all symbols Idle.
pub fn fill_idle(symbols: &mut [Sym])
    ensures { symbols.new ≡ replicate (length symbols.old) sym.Idle }
{
    symbols.fill(Sym::Idle);
}
