//! A repeater.
ghost use Rattle.std.specs.Prelude.{◌≡◌, ◌<◌, ◌≤◌, ◌+◌, ◌-◌, ◌/◌, ◌%◌, ◌==◌, List, length, map, slice_get, slice_index_or, Some, IfOk, IsTrue};
ghost use Rattle.std.specs.Fn.{iterate};
ghost use Rattle.repeater_core.specs.Calm.{silent_step, IsUneventful, IsCalm, IsUnchanged};
ghost use Rattle.std.specs.List.{All};
ghost use Rattle.mac_parameters.specs.Parameters.{jabber_rest};
ghost use Rattle.repeater_core.specs.Limits.{most_calm};
ghost use Rattle.mac_parameters.specs.Parameters.{greatest_delay};
ghost use Rattle.mac_parameters.specs.Parameters.{most_ports};
ghost use Rattle.repeater_core.specs.declared.modes.Mode.TheVariants.{Idle};
ghost use Rattle.repeater_core.specs.Counts.{resting_count};
ghost use Rattle.repeater_core.specs.Step.{RepeaterDevice, new_state, resumed_state, after, emitted_by, decided_by, clash_begins, closed_mask, opened_mask, halted_mask, resting_by};
ghost use Rattle.manchester_line.specs.declared.Sym.{Sym};
ghost use Rattle.manchester_line.specs.Line.{is_signal};
ghost use Rattle.repeater_core.specs.Steady.{IsSteady};
ghost use Rattle.repeater_core.specs.Classes.{after_rows, texts_after, AreHeardAs, AreSteadyRows, DecideTexts, EmitRows, IsOfSource};
ghost use Rattle.repeater_core.specs.Laws.{HasNoClash, Repeats, EndsLong};

use crate::calm::{
    all_idle, any_opens, counts_fresh, fill_idle, guards_unchanged, ports_calm, silent_counts,
    silent_guards,
};
use crate::counts::{PortCount, resting_counts};
use crate::line::DelayLine;
use crate::modes::{Mode, active_ports, collision, mode_on, mode_steady, next_mode, silent_mode};
use crate::ports::{decide_all, guard_all};
use crate::steady::{
    decide_row, guards_calm, leap_counts, leap_guards, leap_line, leap_texts, ports_steady,
    rows_steady,
};
use lists::OutOfMemory;
use manchester_line::Sym;
use port_partition::PortGuard;
use std::alloc::Global;
use std::marker::Model;

/// What happened in a half bit: whether a collision of ports began, and the ports that were closed (partition), opened
/// (reconnection) and halted (jabber lockup protection), where bit p, counted from 0, stands for port p.
#[derive(Clone, Copy)]
pub struct RepeaterEvents {
    pub clash: bool,
    pub closed: u32,
    pub opened: u32,
    pub halted: u32,
}

/// Whether the first port is one of these, bit p standing for port p.
pub fn has_first(mask: u32) -> bool
    ensures { result ≡ (mask % 2 == 1) }
{
    mask % 2 == 1
}

/// What happened at the ports behind the first, which count from 0 again.
pub fn behind_first(events: RepeaterEvents) -> RepeaterEvents
    ensures closed { result.closed ≡ events.closed / 2 }
    ensures opened { result.opened ≡ events.opened / 2 }
    ensures halted { result.halted ≡ events.halted / 2 }
{
    RepeaterEvents {
        clash: false,
        closed: events.closed / 2,
        opened: events.opened / 2,
        halted: events.halted / 2,
    }
}

/// A repeater of 2 to 32 ports that emits what it decides 1 to 200 half bits later.
#[derive(Drop)]
pub struct Repeater {
    mode: Mode,
    guards: Vec<PortGuard>,
    counts: Vec<PortCount>,
    line: DelayLine,
}

impl Model for Repeater {
    ghost use Rattle.repeater_core.specs.Step.{RepeaterDevice, IsState};

    ghost Value = { RepeaterDevice };

    ghost view = { λ r. record { mode = r.mode; guards = r.guards.items; counts = r.counts.items; line = r.line } };

    ghost invariant = { λ r. IsState (record { mode = r.mode; guards = r.guards.items; counts = r.counts.items; line = r.line }) };
}

impl Repeater {
    /// A repeater of `ports` ports, 2 to 32, that emits what it decides `delay` half bits later, 1 to 200. All ports
    /// are open, and it emits Idle at first.
    pub fn new(alloc: Global, ports: u32, delay: u32) -> Result<Repeater, OutOfMemory>
        requires two_ports { 2 ≤ ports }
        requires ports_at_most { ports ≤ most_ports }
        requires some_delay { 1 ≤ delay }
        requires delay_at_most { delay ≤ greatest_delay }
        ensures { IfOk result (λ r. r ≡ new_state ports delay) }
    {
        let ports = ports as usize;
        Ok(Repeater {
            mode: Mode::Idle,
            guards: vec![in alloc; PortGuard::new(); ports]?,
            counts: vec![in alloc; PortCount::resting(0); ports]?,
            line: DelayLine::new(alloc, ports, delay as usize)?,
        })
    }

    /// A repeater of 2 to 32 ports with these guards, whose ports rest for so many half bits more, 0 to 191, each. It
    /// emits what it decides `delay` half bits later, 1 to 200. It is in mode Idle, and all decisions so far were Idle.
    pub fn resume(
        alloc: Global,
        delay: u32,
        guards: &[PortGuard],
        rests: &[u32],
    ) -> Result<Repeater, OutOfMemory>
        requires two_ports { 2 ≤ length guards.now }
        requires ports_at_most { length guards.now ≤ most_ports }
        requires as_many { length rests.now ≡ length guards.now }
        requires some_delay { 1 ≤ delay }
        requires delay_at_most { delay ≤ greatest_delay }
        requires rests { All (λ rest. rest < jabber_rest) rests.now }
        ensures { IfOk result (λ r. r ≡ resumed_state delay guards.now rests.now) }
    {
        Ok(Repeater {
            mode: Mode::Idle,
            guards: Vec::from_slice(alloc, guards)?,
            counts: resting_counts(alloc, rests)?,
            line: DelayLine::new(alloc, guards.len(), delay as usize)?,
        })
    }

    /// The half bits of rest that a port, counted from 0, has left, 0 to 191.
    pub fn rest(&self, port: u32) -> u32
        requires { port < length self.now.guards }
        ensures { result ≡ (slice_index_or self.now.counts port (resting_count 0)).rest }
    {
        let count = &self.counts[port as usize];
        count.rest
    }

    /// The guard of a port, counted from 0.
    pub fn guard(&self, port: u32) -> &PortGuard
        requires { port < length self.now.guards }
        ensures { slice_get self.now.guards port ≡ Some result.now }
    {
        &self.guards[port as usize]
    }

    /// The mode after the half bits so far.
    pub fn mode(&self) -> Mode
        ensures { result ≡ self.now.mode }
    {
        self.mode
    }

    /// One half bit, in which the ports hear these symbols: writes what each port emits, which was decided
    /// `delay` half bits ago, and what is decided for it now (clause 9, with the profile's transitions).
    #[tactic(auto, unfolding(crate::specs::Step::mode_next, crate::specs::Step::chosen))]
    pub fn step(&mut self, hears: &[Sym], emits: &mut [Sym], decided: &mut [Sym]) -> RepeaterEvents
        requires hears_len { length hears.now ≡ length self.old.guards }
        requires emits_len { length emits.old ≡ length self.old.guards }
        requires decided_len { length decided.old ≡ length self.old.guards }
        ensures state { self.new ≡ after hears.now self.old }
        ensures ports { length self.new.guards ≡ length self.old.guards }
        ensures emits { emits.new ≡ emitted_by self.old }
        ensures decided { decided.new ≡ decided_by hears.now self.old }
        ensures clash { result.clash ≡ clash_begins hears.now self.old }
        ensures closed { result.closed ≡ closed_mask hears.now self.old }
        ensures opened { result.opened ≡ opened_mask hears.now self.old }
        ensures halted { result.halted ≡ halted_mask hears.now self.old }
        ensures repeats { Repeats (map (λ g. g.closed) self.old.guards) hears.now (resting_by hears.now self.old) decided.new }
        ensures ends_long { EndsLong self.old.counts decided.new }
        ensures no_clash_emitted { HasNoClash emits.new }
        ensures no_clash_decided { HasNoClash decided.new }
    {
        if self.mode == Mode::Idle && all_idle(hears) && self.is_unchanged() {
            fill_idle(emits);
            fill_idle(decided);
            return RepeaterEvents {
                clash: false,
                closed: 0,
                opened: 0,
                halted: 0,
            };
        }
        let collided = collision(self.mode);
        self.mode = next_mode(self.mode, active_ports(&self.guards, hears));
        let halted = decide_all(self.mode, hears, &mut self.counts, decided);
        self.line.step(self.mode == Mode::Idle, decided, emits);
        let changes = guard_all(&mut self.guards, hears, emits);
        RepeaterEvents {
            clash: collision(self.mode) && !collided,
            closed: changes.closed,
            opened: changes.opened,
            halted,
        }
    }

    /// Whether, in mode Idle, a silent half bit is known to leave all as it is.
    fn is_unchanged(&self) -> bool
        requires { self.now.mode ≡ Idle }
        ensures { IsTrue result → IsUnchanged self.now }
    {
        self.line.is_idle() && counts_fresh(&self.counts) && guards_unchanged(&self.guards)
    }

    /// The greatest n up to 4,096 such that n half bits in which every port hears Idle emit only Idle, decide only Idle
    /// and give no event.
    pub fn calm(&self) -> u64
        ensures calm { IsCalm self.now result }
        ensures greatest { result < most_calm → ¬ IsUneventful (iterate silent_step result self.now) }
    {
        if any_opens(&self.guards) {
            return 0;
        }
        ports_calm(self.mode, &self.counts).min(self.line.calm())
    }

    /// The state after `n` half bits in which every port hears Idle, at most as many as `calm` tells. Its time does not
    /// grow with `n`.
    pub fn leap(&mut self, n: u64)
        requires { IsCalm self.old n }
        ensures state { self.new ≡ iterate silent_step n self.old }
        ensures ports { length self.new.guards ≡ length self.old.guards }
    {
        if n == 0 {
            return;
        }
        self.mode = silent_mode(self.mode, n as u32);
        silent_guards(&mut self.guards);
        silent_counts(&mut self.counts, n);
        self.line.leap(n);
    }

    /// The greatest n up to 4,096 such that n half bits in which the ports hear these symbols are steady: nothing
    /// happens in them but counts. What is emitted in the first of them is written.
    pub fn steady(&self, hears: &[Sym], emits: &mut [Sym]) -> u32
        requires hears_len { length hears.now ≡ length self.now.guards }
        requires emits_len { length emits.old ≡ length self.now.guards }
        ensures few { result ≤ most_calm }
        ensures steady { IsSteady hears.now self.now result }
        ensures greatest { result < most_calm → ¬ IsSteady hears.now self.now (result + 1) }
        ensures emits { emits.new ≡ emitted_by self.now }
    {
        self.line.front(emits);
        let active = active_ports(&self.guards, hears);
        mode_steady(self.mode, active)
            .min(ports_steady(self.mode, &self.counts))
            .min(guards_calm(&self.guards, hears, emits))
            .min(rows_steady(&self.line, self.mode, &self.counts, emits))
    }

    /// The state after `n` half bits in which the ports hear these symbols, and which are steady: nothing happens in
    /// them but counts. What is emitted and decided in the last of them is written. Only the rows of the delay line are
    /// written one by one.
    pub fn leap_steady(&mut self, n: u32, hears: &[Sym], emits: &mut [Sym], decided: &mut [Sym])
        requires hears_len { length hears.now ≡ length self.old.guards }
        requires emits_len { length emits.old ≡ length self.old.guards }
        requires decided_len { length decided.old ≡ length self.old.guards }
        requires steady { IsSteady hears.now self.old n }
        ensures state { self.new ≡ iterate (after hears.now) n self.old }
        ensures ports { length self.new.guards ≡ length self.old.guards }
        ensures emits { 0 < n → emits.new ≡ emitted_by (iterate (after hears.now) (n - 1) self.old) }
        ensures decided { 0 < n → decided.new ≡ decided_by hears.now (iterate (after hears.now) (n - 1) self.old) }
        ensures none_emitted { n ≡ 0 → emits.new ≡ emits.old }
        ensures none_decided { n ≡ 0 → decided.new ≡ decided.old }
    {
        if n == 0 {
            return;
        }
        decide_row(mode_on(self.mode), hears, &self.counts, decided);
        self.line.front(emits);
        leap_guards(&mut self.guards, hears, emits, n);
        leap_counts(&mut self.counts, decided, n);
        self.mode = leap_line(&mut self.line, self.mode, hears, n, decided, emits);
    }

    /// The state after as many half bits as `heard` has symbols, at most 4,096, which are steady by their classes: in
    /// each of them each port hears Idle, a signal or Clash as it does in the row `hears`, and nothing happens but
    /// counts. `heard` is what the port that the mode repeats hears in them, and any symbols in the other modes.
    /// Written are what is emitted and decided in the first of them, and what is sent in each: it is decided for the
    /// ports that get a signal in the first, and Idle for the others.
    pub fn leap_classes(
        &mut self,
        hears: &[Sym],
        heard: &[Sym],
        emits: &mut [Sym],
        decided: &mut [Sym],
        sent: &mut [Sym],
    )
        requires hears_len { length hears.now ≡ length self.old.guards }
        requires emits_len { length emits.old ≡ length self.old.guards }
        requires decided_len { length decided.old ≡ length self.old.guards }
        requires sent_len { length sent.old ≡ length heard.now }
        requires few { length heard.now ≤ most_calm }
        requires source { IsOfSource self.old.mode hears.now heard.now }
        requires steady { IsSteady hears.now self.old (length heard.now) }
        ensures state { (rows : List (List Sym)) → AreHeardAs hears.now self.old.mode heard.now rows → self.new ≡ after_rows rows self.old }
        ensures ports { length self.new.guards ≡ length self.old.guards }
        ensures emits { 0 < length heard.now → emits.new ≡ emitted_by self.old }
        ensures decided { 0 < length heard.now → decided.new ≡ decided_by hears.now self.old }
        ensures sent { sent.new ≡ texts_after self.old.mode heard.now }
        ensures steps { (rows : List (List Sym)) → AreHeardAs hears.now self.old.mode heard.now rows → AreSteadyRows rows (map is_signal (emitted_by self.old)) (map is_signal (decided_by hears.now self.old)) self.old }
        ensures decisions { (rows : List (List Sym)) → AreHeardAs hears.now self.old.mode heard.now rows → DecideTexts rows (map is_signal (decided_by hears.now self.old)) sent.new self.old }
        ensures emissions { (rows : List (List Sym)) → AreHeardAs hears.now self.old.mode heard.now rows → EmitRows rows self.old }
    {
        if heard.is_empty() {
            return;
        }
        let n = heard.len() as u32;
        decide_row(mode_on(self.mode), hears, &self.counts, decided);
        self.line.front(emits);
        leap_guards(&mut self.guards, hears, emits, n);
        leap_counts(&mut self.counts, decided, n);
        self.mode = leap_texts(&mut self.line, self.mode, heard, decided, sent);
    }
}
