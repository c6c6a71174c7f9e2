//! Steady half bits, in which nothing happens but counts: what becomes of guards, counts and the delay line in them.
ghost use Rattle.std.specs.Prelude.{◌≡◌, ◌≤◌, ◌<◌, ◌+◌, ◌-◌, ℕ, suc, length, map, slice_index_or, IsTrue};
ghost use Rattle.std.specs.Fn.{iterate};
ghost use Rattle.manchester_line.specs.declared.Sym.TheVariants.{Idle};
ghost use Rattle.manchester_line.specs.Line.{is_signal};
ghost use Rattle.repeater_core.specs.Counts.{choices_from};
ghost use Rattle.mac_parameters.specs.Parameters.{greatest_delay, jabber_limit, most_ports};
ghost use Rattle.repeater_core.specs.Delayed.{oldest, delayed_row};
ghost use Rattle.repeater_core.specs.Limits.{most_calm};
ghost use Rattle.repeater_core.specs.Modes.{IsMode};
ghost use Rattle.repeater_core.specs.Steady.{at_each, count_by, guard_by, kinds_of, line_later, mode_on, port_steady, ports_steady, sent_from, sent_text, texted, AreAlikeRows, AreSentFor, HaveNoEvents, RunsWithin};
ghost use Rattle.repeater_core.specs.Classes.{line_with, texts_after};

use crate::counts::PortCount;
use crate::line::DelayLine;
use crate::modes::{MOST_STEADY, Mode, mode_on, sends_to, sent_text, wish};
use crate::ports::collision_at;
use crate::texts::write_texts;
use mac_parameters::JABBER_LIMIT;
use manchester_line::{Sym, is_signal};
use port_partition::PortGuard;

/// What would be decided for each port in this mode.
pub fn decide_row(mode: Mode, hears: &[Sym], counts: &[PortCount], decided: &mut [Sym])
    requires few { length counts.now ≤ most_ports }
    requires as_many { length decided.old ≡ length counts.now }
    ensures { decided.new ≡ map (λ c. c.symbol) (choices_from mode hears.now 0 counts.now) }
{
    for k in 0..counts.len() {
        let count = &counts[k];
        decided[k] = count.would_decide(wish(mode, hears, k as u32));
    }
}

fn port_steady(sends: bool, count: &PortCount) -> u32
    ensures steady { result ≡ port_steady sends count.now }
    ensures within { count.now.run ≤ jabber_limit }
{
    let _run = count.run;
    if !sends {
        MOST_STEADY
    } else if count.rest == 0 {
        JABBER_LIMIT - count.run
    } else {
        count.rest
    }
}

/// For how many half bits each port is sent a signal in this mode, or rests, or neither, as in the first.
pub fn ports_steady(mode: Mode, counts: &[PortCount]) -> u32
    requires { length counts.now ≤ most_ports }
    ensures steady { result ≡ ports_steady mode 0 counts.now }
    ensures within { RunsWithin counts.now }
{
    let mut steady = MOST_STEADY;
    for k in 0..counts.len() {
        steady = steady.min(port_steady(sends_to(mode, k as u32), &counts[k]));
    }
    steady
}

/// For how many half bits alike no guard has an event.
pub fn guards_calm(guards: &[PortGuard], hears: &[Sym], emits: &[Sym]) -> u32
    requires hears_len { length hears.now ≡ length guards.now }
    requires emits_len { length emits.now ≡ length guards.now }
    ensures calm { HaveNoEvents result hears.now emits.now guards.now }
    ensures greatest { result < most_calm → ¬ HaveNoEvents (result + 1) hears.now emits.now guards.now }
{
    let mut calm = MOST_STEADY;
    for k in 0..guards.len() {
        let guard = &guards[k];
        calm = calm.min(guard.calm(
            is_signal(hears[k]),
            collision_at(hears[k], emits[k]),
            is_signal(emits[k]),
        ));
    }
    calm
}

/// Whether the ports that are sent a signal in this mode are those that have one in this row.
fn sends_as(mode: Mode, counts: &[PortCount], row: &[Sym]) -> bool
    requires few { length counts.now ≤ most_ports }
    requires as_many { length row.now ≡ length counts.now }
    ensures alike { IsTrue result → sent_from mode 0 counts.now ≡ map is_signal row.now }
    ensures differs { sent_from mode 0 counts.now ≡ map is_signal row.now → IsTrue result }
{
    for k in 0..counts.len() {
        let count = &counts[k];
        if (sends_to(mode, k as u32) && count.rest == 0) != is_signal(row[k]) {
            return false;
        }
    }
    true
}

/// For how many half bits the ports emit signals as in the first, in which they emit this row and are sent signals as
/// the mode and the counts tell: as far as the delay, or all that are told where all that is not yet emitted has
/// signals at the places of what is sent.
pub fn rows_steady(line: &DelayLine, mode: Mode, counts: &[PortCount], emits: &[Sym]) -> u32
    requires front { emits.now ≡ oldest line.now }
    requires emits_len { length emits.now ≡ line.now.ports }
    requires counts_len { length counts.now ≡ line.now.ports }
    requires narrow { line.now.ports ≤ most_ports }
    requires short { line.now.delay ≤ greatest_delay }
    ensures few { result ≤ most_calm }
    ensures rows { (k : ℕ) → k < result → k < line.now.delay → map is_signal (delayed_row k line.now) ≡ map is_signal emits.now }
    ensures past { line.now.delay < result → sent_from mode 0 counts.now ≡ map is_signal emits.now }
    ensures greatest { result < line.now.delay → ¬ AreAlikeRows (result + 1) line.now }
    ensures stopped { line.now.delay ≤ result → result < most_calm → ¬ (sent_from mode 0 counts.now ≡ map is_signal emits.now) }
{
    let alike = line.alike(emits);
    if alike as usize == line.delay() && sends_as(mode, counts, emits) {
        return MOST_STEADY;
    }
    alike
}

/// Each guard's n half bits alike.
pub fn leap_guards(guards: &mut [PortGuard], hears: &[Sym], emits: &[Sym], n: u32)
    requires hears_len { length hears.now ≡ length guards.old }
    requires emits_len { length emits.now ≡ length guards.old }
    requires calm { HaveNoEvents n hears.now emits.now guards.old }
    ensures { guards.new ≡ at_each (λ k g. iterate (guard_by k) n g) (kinds_of hears.now (map is_signal emits.now)) guards.old }
{
    for k in 0..guards.len() {
        let guard = &mut guards[k];
        guard.leap(
            n,
            is_signal(hears[k]),
            collision_at(hears[k], emits[k]),
            is_signal(emits[k]),
        );
    }
}

/// Each port's counts after n half bits in which it is sent a signal or not, as it is in this row.
pub fn leap_counts(counts: &mut [PortCount], decided: &[Sym], n: u32)
    requires as_many { length decided.now ≡ length counts.old }
    requires sent { AreSentFor n decided.now counts.old }
    ensures { counts.new ≡ at_each (λ b c. iterate (count_by b) n c) (map is_signal decided.now) counts.old }
{
    for k in 0..counts.len() {
        let count = &mut counts[k];
        count.leap(is_signal(decided[k]), n);
    }
}

/// Sends this text to the ports that are sent a signal.
fn set_text(decided: &mut [Sym], text: Sym)
    ensures { decided.new ≡ texted (map is_signal decided.old) text }
{
    for symbol in decided.iter_mut() {
        if is_signal(*symbol) {
            *symbol = text;
        }
    }
}

/// The delay line after n half bits in which the mode changes by its counts alone and sends its text to the ports that
/// are sent a signal in this row, and the mode after them.
pub fn leap_line(
    line: &mut DelayLine,
    mode: Mode,
    hears: &[Sym],
    n: u32,
    decided: &mut [Sym],
    emits: &mut [Sym],
) -> Mode
    requires decided_len { length decided.old ≡ line.old.ports }
    requires emits_len { length emits.old ≡ line.old.ports }
    requires modes { (k : ℕ) → k < n → IsMode (iterate mode_on k mode) }
    requires texts { (k : ℕ) → k < n → map is_signal (texted (map is_signal decided.old) (sent_text (mode_on (iterate mode_on k mode)) hears.now)) ≡ map is_signal decided.old }
    ensures mode { result ≡ iterate mode_on n mode }
    ensures line { line.new ≡ line_later hears.now (map is_signal decided.old) n mode line.old }
    ensures emits { 0 < n → emits.new ≡ oldest (line_later hears.now (map is_signal decided.old) (n - 1) mode line.old) }
    ensures decided { 0 < n → decided.new ≡ texted (map is_signal decided.old) (sent_text (iterate mode_on n mode) hears.now) }
{
    let mut mode = mode;
    let mut left = n;
    while left > 0 {
        mode = mode_on(mode);
        set_text(decided, sent_text(mode, hears));
        line.step(false, decided, emits);
        left -= 1;
    }
    mode
}

/// The delay line after half bits in which the mode changes by its counts alone and sends its text to the ports that
/// have a signal in this row, while the port that it repeats hears `heard`; the mode after them. What it sends is
/// written.
pub fn leap_texts(
    line: &mut DelayLine,
    mode: Mode,
    heard: &[Sym],
    decided: &[Sym],
    sent: &mut [Sym],
) -> Mode
    requires decided_len { length decided.now ≡ line.old.ports }
    requires sent_len { length sent.old ≡ length heard.now }
    requires some { 0 < length heard.now }
    requires few { length heard.now ≤ most_calm }
    requires modes { (k : ℕ) → k < length heard.now → IsMode (iterate mode_on k mode) }
    requires alike { (k : ℕ) → k < length heard.now → map is_signal (texted (map is_signal decided.now) (slice_index_or (texts_after mode heard.now) k Idle)) ≡ map is_signal decided.now }
    ensures mode { result ≡ iterate mode_on (length heard.now) mode }
    ensures line { line.new ≡ line_with (map is_signal decided.now) (texts_after mode heard.now) line.old }
    ensures sent { sent.new ≡ texts_after mode heard.now }
{
    let after = write_texts(mode, heard, sent);
    line.send(mode == Mode::Idle, decided, sent);
    after
}
