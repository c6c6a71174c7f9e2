//! The line of a tap: the symbols of half bits one after another, the latest of which still reach other taps.
ghost use Rattle.std.specs.Prelude.{◌≡◌, ◌≢◌, ◌<◌, ◌≤◌, ◌+◌, ◌-◌, ◌++◌, ◌^◌, ℕ, [], ◌∷◌, length, take, replicate, true, false, slice_index_or, IfOk, IfSome, IfNone};
ghost use Rattle.manchester_line.specs.declared.Sym.{Sym};
ghost use Rattle.manchester_line.specs.declared.Sym.TheVariants.{Idle};
ghost use Rattle.manchester_line.specs.Line.{mix_of, is_signal as is_signal_of};
ghost use Rattle.net_parts.specs.Machines.{span};
ghost use Rattle.tap_lines.specs.Signals.{signals_end};
ghost use Rattle.tap_lines.specs.TapLines.{line_cut, IsIdleFrom, IsWithinSignals, TapLine, symbol_on, half_bits_back, line_extended, dropped_from, passed};
ghost use Rattle.tap_lines.specs.TapLines.{class_back, class_on, forgotten, goes_on, line_ended};
ghost use Rattle.network.specs.Times.{earlier};

use crate::runs::{end_of_signals, steady_first, steady_from};
use lists::OutOfMemory;
use manchester_line::{Sym, is_signal, mix};
use std::alloc::Global;
use std::marker::Model;

/// A line, from half bit `base` on, of a tap at a place in half bits from its segment's end. What stands on it for a
/// half bit is emitted `delay` half bits later, less the half bits of a window. The first `written` symbols of the
/// buffer stand on it; the last of them, at least the last `loud`, are signals. The Idle behind them, `quiet` half
/// bits, isn't written. What is further back than `backlog` half bits reaches no other tap, and is dropped now and then.
#[derive(Drop)]
pub struct Line {
    at: u32,
    delay: u32,
    backlog: usize,
    base: u64,
    buffer: Vec<Sym>,
    written: usize,
    quiet: usize,
    loud: usize,
}

impl Model for Line {
    ghost use Rattle.std.specs.Prelude.{◌+◌, ◌-◌, ◌≤◌, ◌++◌, length, replicate, take};
    ghost use Rattle.manchester_line.specs.declared.Sym.TheVariants.{Idle};
    ghost use Rattle.tap_lines.specs.Signals.{EndsInSignals};
    ghost use Rattle.tap_lines.specs.TapLines.{TapLine};

    ghost Value = { TapLine };

    ghost view = { λ s. record {
      at = s.at;
      delay = s.delay;
      backlog = s.backlog;
      base = s.base;
      symbols = take s.written s.buffer.items ++ replicate s.quiet Idle;
      room = length s.buffer.items - (s.written + s.quiet);
    } };

    ghost invariant = { λ s. (s.written + s.quiet ≤ length s.buffer.items) × EndsInSignals s.loud (take s.written s.buffer.items) };
}

/// Writes a piece into a buffer from place `at` on, from 0.
fn write_piece(buffer: &mut [Sym], at: usize, piece: &[Sym])
    requires { at + length piece.now ≤ length buffer.old }
    ensures len { length buffer.new ≡ length buffer.old }
    ensures text { take (at + length piece.now) buffer.new ≡ take at buffer.old ++ piece.now }
{
    buffer[at..at + piece.len()].copy_from_slice(piece);
}

/// Writes so many times Idle into a buffer from place `at` on, from 0.
fn write_idle(buffer: &mut [Sym], at: usize, count: usize)
    requires { at + count ≤ length buffer.old }
    ensures len { length buffer.new ≡ length buffer.old }
    ensures text { take (at + count) buffer.new ≡ take at buffer.old ++ replicate count Idle }
{
    buffer[at..at + count].fill(Sym::Idle);
}

/// Adds the symbols from place `from` on, from 0, to those of a piece.
fn mix_from(piece: &mut [Sym], symbols: &[Sym], from: u64)
    ensures { (j : ℕ) (d : Sym) → j < length piece.new → slice_index_or piece.new j d
        ≡ mix_of (slice_index_or piece.old j d) (slice_index_or symbols.now (from + j) Idle) }
{
    let first = from.min(symbols.len() as u64) as usize;
    let count = piece.len().min(symbols.len() - first);
    for j in 0..count {
        piece[j] = mix(piece[j], symbols[first + j]);
    }
}

/// Writes the symbols from place `from` on, from 0, into a piece in which all is Idle.
fn copy_from(piece: &mut [Sym], symbols: &[Sym], from: u64)
    requires { (j : ℕ) (d : Sym) → j < length piece.old → slice_index_or piece.old j d ≡ Idle }
    ensures { (j : ℕ) (d : Sym) → j < length piece.new → slice_index_or piece.new j d ≡ slice_index_or symbols.now (from + j) Idle }
{
    let first = from.min(symbols.len() as u64) as usize;
    let count = piece.len().min(symbols.len() - first);
    piece[..count].copy_from_slice(&symbols[first..first + count]);
}

/// Whether all symbols of a piece are Idle.
fn is_idle(piece: &[Sym]) -> bool
    ensures idle { result ≡ true → piece.now ≡ replicate (length piece.now) Idle }
    ensures other { result ≡ false → piece.now ≢ replicate (length piece.now) Idle }
{
    let mut all = true;
    for symbol in piece {
        all &= *symbol == Sym::Idle;
    }
    all
}

/// Whether all symbols of a piece are signals.
fn are_signals(piece: &[Sym]) -> bool
    ensures signals { result ≡ true → (j : ℕ) → j < length piece.now → is_signal_of (slice_index_or piece.now j Idle) ≡ true }
    ensures other { result ≡ false → ¬ ((j : ℕ) → j < length piece.now → is_signal_of (slice_index_or piece.now j Idle) ≡ true) }
{
    let mut all = true;
    for symbol in piece {
        all &= *symbol != Sym::Idle;
    }
    all
}

impl Line {
    /// The empty line of a tap from half bit 0 on, which keeps so many half bits, with room for so many symbols.
    pub fn new(
        alloc: Global,
        at: u32,
        delay: u32,
        backlog: usize,
        room: usize,
    ) -> Result<Line, OutOfMemory>
        ensures place { IfOk result (λ line. line.at ≡ at) }
        ensures delay { IfOk result (λ line. line.delay ≡ delay) }
        ensures backlog { IfOk result (λ line. line.backlog ≡ backlog) }
        ensures base { IfOk result (λ line. line.base ≡ 0) }
        ensures symbols { IfOk result (λ line. line.symbols ≡ []) }
        ensures room { IfOk result (λ line. line.room ≡ room) }
    {
        Ok(Line {
            at,
            delay,
            backlog,
            base: 0,
            buffer: vec![in alloc; Sym::Idle; room]?,
            written: 0,
            quiet: 0,
            loud: 0,
        })
    }

    /// The place of its tap.
    pub fn place(&self) -> u32
        ensures { result ≡ self.now.at }
    {
        self.at
    }

    /// How many half bits later its tap emits what stands on it, less those of a window.
    pub fn delay(&self) -> u32
        ensures { result ≡ self.now.delay }
    {
        self.delay
    }

    /// What is written on it: behind that only Idle stands on it.
    fn text(&self) -> &[Sym]
        ensures text { self.now.symbols ≡ result.now ++ replicate (length self.now.symbols - length result.now) Idle }
        ensures end { signals_end self.now.symbols ≡ length result.now }
    {
        &self.buffer[..self.written]
    }

    /// What stands on it for a half bit.
    fn symbol(&self, u: u64) -> Sym
        ensures { result ≡ symbol_on self.now u }
    {
        if u < self.base {
            return Sym::Idle;
        }
        let text = self.text();
        let place = u - self.base;
        if place < text.len() as u64 {
            text[place as usize]
        } else {
            Sym::Idle
        }
    }

    /// How far back on it, in half bits, is what a tap at a place hears.
    pub fn back(&self, at: u32, lookahead: u32) -> u64
        ensures { result ≡ half_bits_back lookahead at self.now }
    {
        let way = u64::from(at.abs_diff(self.at)) + u64::from(self.delay);
        way.saturating_sub(u64::from(lookahead))
    }

    /// What stands on it so many half bits before half bit `t`.
    fn back_from(&self, back: u64, t: u64) -> Sym
        ensures { result ≡ earlier (symbol_on self.now) t back }
    {
        if back <= t {
            self.symbol(t - back)
        } else {
            Sym::Idle
        }
    }

    /// Adds to what a tap hears in the half bits from `t` on, as many as the piece has, what stands on it so many half
    /// bits before.
    fn mix_back(&self, back: u64, t: u64, piece: &mut [Sym])
        requires { t + length piece.old < 2 ^ 64 }
        ensures { (j : ℕ) (d : Sym) → j < length piece.new → slice_index_or piece.new j d
            ≡ mix_of (slice_index_or piece.old j d) (earlier (symbol_on self.now) (t + j) back) }
    {
        for j in 0..piece.len() {
            piece[j] = mix(piece[j], self.back_from(back, t + j as u64));
        }
    }

    /// Adds to what a tap at a place hears in the half bits from `t` on, as many as the piece has, what reaches it of
    /// the line. Only where that was nothing so far may `fresh` be set.
    pub fn mix_over(&self, at: u32, lookahead: u32, t: u64, piece: &mut [Sym], fresh: bool)
        requires in_time { t + length piece.old < 2 ^ 64 }
        requires fresh { fresh ≡ true → (j : ℕ) (d : Sym) → j < length piece.old → slice_index_or piece.old j d ≡ Idle }
        ensures { (j : ℕ) (d : Sym) → j < length piece.new → slice_index_or piece.new j d
            ≡ mix_of (slice_index_or piece.old j d) (earlier (symbol_on self.now) (t + j) (half_bits_back lookahead at self.now)) }
    {
        let back = self.back(at, lookahead);
        if t < back || t - back < self.base {
            self.mix_back(back, t, piece);
            return;
        }
        if fresh {
            copy_from(piece, self.text(), t - back - self.base);
        } else {
            mix_from(piece, self.text(), t - back - self.base);
        }
    }

    /// Whether a signal is on it in half bit `u`: where it has ended, as it goes on.
    fn class(&self, u: u64) -> bool
        ensures { result ≡ class_on self.now u }
    {
        if u < self.base {
            return false;
        }
        let place = u - self.base;
        if place < self.written as u64 {
            is_signal(self.buffer[place as usize])
        } else {
            self.goes_on()
        }
    }

    /// Whether a signal was on it so many half bits before half bit `t`.
    fn class_before(&self, back: u64, t: u64) -> bool
        ensures { result ≡ class_back self.now t back }
    {
        back <= t && self.class(t - back)
    }

    /// What `steady_back` answers, half bit by half bit.
    fn steady_before(&self, back: u64, t: u64, most: usize, carrier: bool) -> usize
        requires { t + most < 2 ^ 64 }
        ensures within { result ≤ most }
        ensures steady { (j : ℕ) → j < result → class_back self.now (t + j) back ≡ carrier }
        ensures longest { result < most → class_back self.now (t + result) back ≢ carrier }
    {
        for j in 0..most {
            if self.class_before(back, t + j as u64) != carrier {
                return j;
            }
        }
        most
    }

    /// For how many half bits from `t` on, at most `most`, a signal is on it so many half bits before in all of them,
    /// or Idle in all, as `carrier` says: where it has ended, as it goes on.
    pub fn steady_back(&self, back: u64, t: u64, most: usize, carrier: bool) -> usize
        requires { t + most < 2 ^ 64 }
        ensures within { result ≤ most }
        ensures steady { (j : ℕ) → j < result → class_back self.now (t + j) back ≡ carrier }
        ensures longest { result < most → class_back self.now (t + result) back ≢ carrier }
    {
        if t < back || t - back < self.base {
            return self.steady_before(back, t, most, carrier);
        }
        let place = t - back - self.base;
        let text = &self.buffer[..self.written];
        steady_from(text, self.loud, self.goes_on(), place, most, carrier)
    }

    /// What stands on it so many half bits before those from `t` on, as many as `count`; none where not all of it is
    /// written.
    pub fn written_back(&self, back: u64, t: u64, count: usize) -> Option<&[Sym]>
        ensures len { IfSome result (λ piece. length piece.now ≡ count) }
        ensures piece { IfSome result (λ piece. piece.now ≡ span (λ u. earlier (symbol_on self.now) u back) t count) }
        ensures some { IfSome result (λ _. IsWithinSignals back t count self.now) }
        ensures none { IfNone result (¬ IsWithinSignals back t count self.now) }
    {
        if t < back || t - back < self.base {
            return None;
        }
        let text = self.text();
        let first = t - back - self.base;
        let len = text.len() as u64;
        if len < first || len - first < count as u64 {
            return None;
        }
        let first = first as usize;
        Some(&text[first..first + count])
    }

    /// Whether nothing but Idle stands on it from half bit `u` on, and it goes on so.
    pub fn is_quiet_from(&self, u: u64) -> bool
        ensures quiet { result ≡ true → IsIdleFrom u self.now }
        ensures loud { result ≡ false → ¬ IsIdleFrom u self.now }
    {
        !self.goes_on()
            && (self.written == 0 || (self.base <= u && self.written as u64 <= u - self.base))
    }

    /// Whether it goes on with a signal behind its end: as its last symbol is one.
    pub fn goes_on(&self) -> bool
        ensures { result ≡ goes_on self.now }
    {
        self.quiet == 0 && self.loud > 0
    }

    /// How many of the first symbols of a piece are signals, where it goes on with a signal, and else Idle.
    pub fn alike_first(&self, piece: &[Sym]) -> usize
        ensures within { result ≤ length piece.now }
        ensures alike { (j : ℕ) → j < result → is_signal_of (slice_index_or piece.now j Idle) ≡ goes_on self.now }
        ensures longest { result < length piece.now →
            is_signal_of (slice_index_or piece.now result Idle) ≢ goes_on self.now }
    {
        steady_first(piece, self.goes_on())
    }

    /// Puts the next symbols on it, all of which are signals, where it goes on with a signal, and else Idle.
    pub fn go_on(&mut self, piece: &[Sym])
        requires room { length piece.now ≤ self.old.room }
        requires alike { (j : ℕ) → j < length piece.now →
            is_signal_of (slice_index_or piece.now j Idle) ≡ goes_on self.old }
        ensures { self.new ≡ line_extended self.old piece.now }
    {
        if piece.is_empty() {
            return;
        }
        if self.goes_on() {
            self.put(piece);
        } else {
            self.rest(piece.len());
        }
    }

    /// The half bit behind its last symbol.
    pub fn end(&self) -> u64
        requires { self.now.base + length self.now.symbols < 2 ^ 64 }
        ensures { result ≡ self.now.base + length self.now.symbols }
    {
        self.base + (self.written + self.quiet) as u64
    }

    /// Lets it end at half bit `u`: with Idle up to there, or without what stands on it for `u` and later half bits.
    pub fn set_end(&mut self, u: u64)
        requires in_time { self.old.base + length self.old.symbols < 2 ^ 64 }
        requires begun { self.old.base ≤ u }
        requires room { u ≤ self.old.base + length self.old.symbols + self.old.room }
        ensures { self.new ≡ line_ended u self.old }
    {
        let end = self.end();
        if end < u {
            self.rest((u - end) as usize);
        } else {
            self.cut(u);
        }
    }

    /// Comes to half bit `u`, and drops what is further back from there than it must keep.
    pub fn forget(&mut self, u: u64)
        requires in_time { self.old.base + length self.old.symbols < 2 ^ 64 }
        requires keeps { self.old.backlog ≤ length self.old.symbols + self.old.room }
        ensures { self.new ≡ forgotten u self.old }
    {
        let end = self.end();
        if end < u {
            self.pass((u - end) as usize);
            return;
        }
        let gone = u
            .saturating_sub(self.backlog as u64)
            .saturating_sub(self.base);
        self.drop_first(gone as usize);
    }

    /// Puts the next symbols on it, which are signals, and at least one.
    fn put(&mut self, piece: &[Sym])
        requires some { 0 < length piece.now }
        requires room { length piece.now ≤ self.old.room }
        requires signals { (j : ℕ) → j < length piece.now → is_signal_of (slice_index_or piece.now j Idle) ≡ true }
        ensures { self.new ≡ line_extended self.old piece.now }
    {
        let from = self.written + self.quiet;
        if self.quiet > 0 {
            write_idle(&mut self.buffer, self.written, self.quiet);
            self.loud = 0;
        }
        write_piece(&mut self.buffer, from, piece);
        self.written = from + piece.len();
        self.quiet = 0;
        self.loud += piece.len();
    }

    /// Puts the next symbol on it.
    pub fn push(&mut self, s: Sym)
        requires { 0 < self.old.room }
        ensures { self.new ≡ line_extended self.old (s ∷ []) }
    {
        if s == Sym::Idle {
            self.rest(1);
        } else {
            self.put(&[s]);
        }
    }

    /// Puts the next symbols on it.
    pub fn extend(&mut self, piece: &[Sym])
        requires { length piece.now ≤ self.old.room }
        ensures { self.new ≡ line_extended self.old piece.now }
    {
        if piece.is_empty() || piece[0] == Sym::Idle {
            if is_idle(piece) {
                self.rest(piece.len());
                return;
            }
        } else if are_signals(piece) {
            self.put(piece);
            return;
        }
        for symbol in piece {
            self.push(*symbol);
        }
    }

    /// Puts so many times Idle on it.
    pub fn rest(&mut self, count: usize)
        requires { count ≤ self.old.room }
        ensures { self.new ≡ line_extended self.old (replicate count Idle) }
    {
        self.quiet += count;
    }

    /// Takes from it all but the first `kept` symbols of what is written.
    fn cut_text(&mut self, kept: usize)
        requires { kept < signals_end self.old.symbols }
        ensures { self.new ≡ line_cut (self.old.base + kept) self.old }
    {
        let lost = self.written - kept;
        if lost < self.loud {
            self.loud -= lost;
            self.written = kept;
            self.quiet = 0;
        } else {
            let end = end_of_signals(&self.buffer[..kept]);
            self.loud = end.min(1);
            self.written = end;
            self.quiet = kept - end;
        }
    }

    /// Takes from it what stands on it for half bit `u` and later ones.
    fn cut(&mut self, u: u64)
        ensures { self.new ≡ line_cut u self.old }
    {
        let written = self.written as u64;
        let kept = u.saturating_sub(self.base);
        if kept < written {
            self.cut_text(kept as usize);
        } else {
            self.quiet = (self.quiet as u64).min(kept - written) as usize;
        }
    }

    /// Drops its first symbols, so many.
    fn drop_first(&mut self, gone: usize)
        requires few { gone ≤ length self.old.symbols }
        requires in_time { self.old.base + length self.old.symbols < 2 ^ 64 }
        ensures { self.new ≡ dropped_from gone self.old }
    {
        let first = gone.min(self.written);
        self.buffer.copy_within(first..self.written, 0);
        self.written -= first;
        self.quiet -= gone - first;
        self.loud = self.loud.min(self.written);
        self.base += gone as u64;
    }

    /// So many half bits pass in which nothing but Idle stands on it, of which it keeps no more than it must.
    fn pass(&mut self, count: usize)
        requires keeps { self.old.backlog ≤ length self.old.symbols + self.old.room }
        requires in_time { self.old.base + length self.old.symbols + count < 2 ^ 64 }
        ensures { self.new ≡ passed count self.old }
    {
        let len = self.written + self.quiet;
        let kept = count.min(self.backlog);
        self.drop_first((len + count).saturating_sub(self.backlog).min(len));
        self.base += (count - kept) as u64;
        self.rest(kept);
    }
}
