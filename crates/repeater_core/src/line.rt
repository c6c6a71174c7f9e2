//! A repeater's delay: rows of symbols that come out `delay` half bits after they were put in.
ghost use Rattle.std.specs.Prelude.{◌≡◌, ◌<◌, ◌≤◌, ◌+◌, ◌-◌, ◌*◌, [], ◌∷◌, ◌++◌, ◌==◌, ℕ, if◌then◌else◌, length, map, take, drop, replicate, slice_index_or, IfOk, IsTrue};
ghost use Rattle.std.specs.List.{All, flat_map};
ghost use Rattle.manchester_line.specs.declared.Sym.TheVariants.{Idle};
ghost use Rattle.std.specs.Fn.{iterate};
ghost use Rattle.repeater_core.specs.Limits.{most_calm};
ghost use Rattle.mac_parameters.specs.Parameters.{greatest_delay};
ghost use Rattle.mac_parameters.specs.Parameters.{most_ports};
ghost use Rattle.repeater_core.specs.Classes.{line_with};
ghost use Rattle.repeater_core.specs.Delayed.{rotated, turn_after, moved_on, oldest, delayed_row};
ghost use Rattle.repeater_core.specs.SilentParts.{idle_front, line_calm, silent_line};
ghost use Rattle.manchester_line.specs.Line.{is_signal};
ghost use Rattle.repeater_core.specs.Steady.{AreAlikeRows, texted};

use crate::calm::idle_front;
use crate::limits::MOST_CALM;
use lists::OutOfMemory;
use manchester_line::{Sym, is_signal};
use std::alloc::Global;
use std::marker::Model;

/// What was decided and not yet emitted: a ring of `delay` rows of one symbol a port. `turn` is the row that is emitted
/// next, all but the oldest `filled` rows are Idle, and the newest `alike` rows have signals at the same places.
#[derive(Drop)]
pub struct DelayLine {
    ports: usize,
    delay: usize,
    turn: usize,
    filled: usize,
    alike: usize,
    slots: Vec<Sym>,
}

impl Model for DelayLine {
    ghost use Rattle.std.specs.Prelude.{◌*◌};
    ghost use Rattle.repeater_core.specs.Delayed.{Delayed, rotated, IsRing};

    ghost Value = { Delayed };

    ghost view = { λ a. record { ports = a.ports; delay = a.delay; rows = rotated (a.turn * a.ports) a.slots.items } };

    ghost invariant = { λ a. IsRing a.ports a.delay a.turn a.filled a.alike a.slots.items };
}

/// Takes the row at `head` out and puts another in.
fn turn_row(slots: &mut [Sym], head: usize, decided: &[Sym], emits: &mut [Sym])
    requires within { head + length decided.now ≤ length slots.old }
    requires as_many { length emits.old ≡ length decided.now }
    ensures len { length slots.new ≡ length slots.old }
    ensures emits { emits.new ≡ take (length decided.now) (rotated head slots.old) }
    ensures rows { rotated (head + length decided.now) slots.new ≡ drop (length decided.now) (rotated head slots.old) ++ decided.now }
{
    for k in 0..decided.len() {
        emits[k] = slots[head + k];
        slots[head + k] = decided[k];
    }
}

/// The text where `sends` says so, and else Idle.
fn text_where(sends: bool, text: Sym) -> Sym
    ensures { result ≡ (if sends then text else Idle) }
{
    if sends { text } else { Sym::Idle }
}

/// Writes rows of two ports, as `write_rows` does.
fn write_pairs(rows: &mut [Sym], first: bool, second: bool, texts: &[Sym])
    requires { length rows.old ≡ length texts.now * 2 }
    ensures { rows.new ≡ flat_map (texted (first ∷ second ∷ [])) texts.now }
{
    for k in 0..texts.len() {
        rows[2 * k] = text_where(first, texts[k]);
        rows[2 * k + 1] = text_where(second, texts[k]);
    }
}

/// Writes a row: the text at the places of signals in `flags`, and Idle at the others.
fn write_row(row: &mut [Sym], flags: &[Sym], text: Sym)
    requires { length row.old ≡ length flags.now }
    ensures { row.new ≡ texted (map is_signal flags.now) text }
{
    for k in 0..flags.len() {
        row[k] = text_where(is_signal(flags[k]), text);
    }
}

/// Writes rows that lie one after another: each text at the places of signals in `flags`, and Idle at the others.
fn write_rows(rows: &mut [Sym], flags: &[Sym], texts: &[Sym])
    requires { length rows.old ≡ length texts.now * length flags.now }
    ensures { rows.new ≡ flat_map (texted (map is_signal flags.now)) texts.now }
{
    if flags.len() == 2 {
        write_pairs(rows, is_signal(flags[0]), is_signal(flags[1]), texts);
        return;
    }
    for k in 0..texts.len() {
        let begin = k * flags.len();
        write_row(&mut rows[begin..begin + flags.len()], flags, texts[k]);
    }
}

/// Copies the row at `head`.
fn copy_row(slots: &[Sym], head: usize, row: &mut [Sym])
    requires within { head + length row.old ≤ length slots.now }
    ensures { row.new ≡ take (length row.old) (rotated head slots.now) }
{
    for k in 0..row.len() {
        row[k] = slots[head + k];
    }
}

/// Whether the row at `head` has signals at the places of `front`.
fn row_alike(slots: &[Sym], head: usize, front: &[Sym]) -> bool
    requires within { head + length front.now ≤ length slots.now }
    ensures alike { IsTrue result → map is_signal (take (length front.now) (rotated head slots.now)) ≡ map is_signal front.now }
    ensures differs { map is_signal (take (length front.now) (rotated head slots.now)) ≡ map is_signal front.now → IsTrue result }
{
    for k in 0..front.len() {
        if is_signal(slots[head + k]) != is_signal(front[k]) {
            return false;
        }
    }
    true
}

/// The Idle symbols before the first signal in a ring that is read from `head` on.
fn ring_front(slots: &[Sym], head: usize) -> usize
    requires { head ≤ length slots.now }
    ensures { result ≡ idle_front (rotated head slots.now) }
{
    let front = idle_front(&slots[head..]);
    if front < slots.len() - head {
        front
    } else {
        front + idle_front(&slots[..head])
    }
}

fn next_turn(turn: usize, delay: usize) -> usize
    requires { turn < delay }
    ensures next { result ≡ turn_after turn delay }
    ensures within { result < delay }
{
    if turn + 1 == delay { 0 } else { turn + 1 }
}

/// The turn after so many rows that don't go past the ring's end.
fn later_turn(turn: usize, delay: usize, rows: usize) -> usize
    requires some { 0 < delay }
    requires within { turn + rows ≤ delay }
    ensures later { result ≡ (if turn + rows == delay then 0 else turn + rows) }
    ensures within { result < delay }
{
    if turn + rows == delay { 0 } else { turn + rows }
}

/// The turn before this one.
fn last_turn(turn: usize, delay: usize) -> usize
    requires { turn < delay }
    ensures last { turn ≡ turn_after result delay }
    ensures within { result < delay }
{
    if turn == 0 { delay - 1 } else { turn - 1 }
}

/// How many of the oldest rows may have a signal after so many half bits; if `idle`, all that was decided in them is
/// Idle.
fn filled_after(idle: bool, filled: usize, delay: usize, half_bits: usize) -> usize
    ensures { result ≡ (if idle then filled - half_bits else delay) }
{
    if idle {
        filled.saturating_sub(half_bits)
    } else {
        delay
    }
}

/// How many of the newest rows are known to be alike where the oldest `filled` may have a signal: all, where none has.
fn alike_where(filled: usize, delay: usize) -> usize
    ensures { result ≡ (if filled == 0 then delay else 0) }
{
    if filled == 0 { delay } else { 0 }
}

/// Puts rows in, the first one at turn `turn`: each text at the places of signals in `flags`, and Idle at the others.
/// Answers the turn after them.
fn put_rows(slots: &mut [Sym], delay: usize, turn: usize, flags: &[Sym], texts: &[Sym]) -> usize
    requires ring { length slots.old ≡ delay * length flags.now }
    requires turn { turn < delay }
    ensures len { length slots.new ≡ length slots.old }
    ensures within { result < delay }
    ensures rows { rotated (result * length flags.now) slots.new ≡ (line_with (map is_signal flags.now) texts.now (record { ports = length flags.now; delay = delay; rows = rotated (turn * length flags.now) slots.old })).rows }
{
    let mut turn = turn;
    let mut written = 0;
    while written < texts.len() {
        let rows = (texts.len() - written).min(delay - turn);
        let begin = turn * flags.len();
        write_rows(
            &mut slots[begin..begin + rows * flags.len()],
            flags,
            &texts[written..written + rows],
        );
        turn = later_turn(turn, delay, rows);
        written += rows;
    }
    turn
}

impl DelayLine {
    /// A line of so many ports and half bits of delay, in which all is Idle.
    pub fn new(alloc: Global, ports: usize, delay: usize) -> Result<DelayLine, OutOfMemory>
        requires some { 0 < delay }
        requires few { delay ≤ greatest_delay }
        requires narrow { ports ≤ most_ports }
        ensures { IfOk result (λ line. line ≡ record { ports = ports; delay = delay; rows = replicate (delay * ports) Idle }) }
    {
        let slots = vec![in alloc; Sym::Idle; delay * ports]?;
        Ok(DelayLine {
            ports,
            delay,
            turn: 0,
            filled: 0,
            alike: delay,
            slots,
        })
    }

    /// One half bit: what the ports emit now, and what is decided for them now. Only where all of that is Idle may
    /// `idle` be set.
    pub fn step(&mut self, idle: bool, decided: &[Sym], emits: &mut [Sym])
        requires decided_len { length decided.now ≡ self.old.ports }
        requires emits_len { length emits.old ≡ self.old.ports }
        requires idle { IsTrue idle → All (λ s. s ≡ Idle) decided.now }
        ensures emits { emits.new ≡ oldest self.old }
        ensures state { self.new ≡ moved_on decided.now self.old }
    {
        turn_row(&mut self.slots, self.turn * self.ports, decided, emits);
        self.turn = next_turn(self.turn, self.delay);
        self.filled = filled_after(idle, self.filled, self.delay, 1);
        self.alike = alike_where(self.filled, self.delay);
    }

    /// How many of the newest rows are known to have signals at the places of these.
    fn alike_to(&self, flags: &[Sym]) -> usize
        requires { length flags.now ≡ self.now.ports }
        ensures few { result ≤ self.now.delay }
        ensures newest { (k : ℕ) → k < self.now.delay → self.now.delay ≤ k + result → map is_signal (delayed_row k self.now) ≡ map is_signal flags.now }
    {
        let newest = last_turn(self.turn, self.delay);
        if row_alike(&self.slots, newest * self.ports, flags) {
            self.alike
        } else {
            0
        }
    }

    /// Half bits in each of which its text is decided for the ports that have a signal in `flags`, and Idle for the
    /// others, so that each is sent a signal or not as there. Only where all texts are Idle may `idle` be set. A row
    /// that goes out again in the same half bits isn't written.
    pub fn send(&mut self, idle: bool, flags: &[Sym], texts: &[Sym])
        requires flags_len { length flags.now ≡ self.old.ports }
        requires few { length texts.now ≤ most_calm }
        requires alike { (k : ℕ) → k < length texts.now → map is_signal (texted (map is_signal flags.now) (slice_index_or texts.now k Idle)) ≡ map is_signal flags.now }
        requires idle { IsTrue idle → All (λ s. s ≡ Idle) texts.now }
        ensures { self.new ≡ line_with (map is_signal flags.now) texts.now self.old }
    {
        if idle && self.filled == 0 {
            return;
        }
        let n = texts.len();
        let alike = self.alike_to(flags);
        let written = &texts[n.saturating_sub(self.delay)..];
        self.turn = put_rows(&mut self.slots, self.delay, self.turn, flags, written);
        self.filled = filled_after(idle, self.filled, self.delay, n);
        self.alike = (alike + n).min(self.delay);
    }

    /// The half bits of the delay.
    pub fn delay(&self) -> usize
        ensures { result ≡ self.now.delay }
    {
        self.delay
    }

    /// What the ports emit in this half bit.
    pub fn front(&self, emits: &mut [Sym])
        requires { length emits.old ≡ self.now.ports }
        ensures { emits.new ≡ oldest self.now }
    {
        copy_row(&self.slots, self.turn * self.ports, emits);
    }

    /// How many of the oldest rows have signals at the places of the first, which is `front`. Those that are known to
    /// aren't looked at.
    pub fn alike(&self, front: &[Sym]) -> u32
        requires front { front.now ≡ oldest self.now }
        requires front_len { length front.now ≡ self.now.ports }
        ensures few { result ≤ self.now.delay }
        ensures alike { AreAlikeRows result self.now }
        ensures greatest { result < self.now.delay → ¬ AreAlikeRows (result + 1) self.now }
    {
        if self.alike == self.delay {
            return self.delay as u32;
        }
        let known = self.alike_to(front);
        let mut turn = self.turn;
        for row in 0..self.delay - known {
            if !row_alike(&self.slots, turn * self.ports, front) {
                return row as u32;
            }
            turn = next_turn(turn, self.delay);
        }
        self.delay as u32
    }

    /// Whether all that was decided and not yet emitted is known to be Idle.
    pub fn is_idle(&self) -> bool
        ensures { IsTrue result → All (λ s. s ≡ Idle) self.now.rows }
    {
        self.filled == 0
    }

    /// The rows before the first with a signal, or 4,096 where none has one: the calm of what is not yet emitted.
    pub fn calm(&self) -> u64
        requires { 0 < self.now.ports }
        ensures { result ≡ line_calm self.now }
    {
        if self.filled == 0 {
            return MOST_CALM;
        }
        let front = ring_front(&self.slots, self.turn * self.ports);
        if front == self.slots.len() {
            MOST_CALM
        } else {
            (front / self.ports) as u64
        }
    }

    /// So many half bits, at most as many as `calm` tells, in which all that is decided is Idle.
    pub fn leap(&mut self, n: u64)
        requires some_port { 0 < self.old.ports }
        requires few { n ≤ most_calm }
        requires calm { n ≤ line_calm self.old }
        ensures { self.new ≡ iterate silent_line n self.old }
    {
        let n = n as usize;
        self.turn = (self.turn + n) % self.delay;
        self.filled = self.filled.saturating_sub(n);
        self.alike = alike_where(self.filled, self.delay);
    }
}
