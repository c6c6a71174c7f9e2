//! The taps on whose lines anything stands that may still be heard.
ghost use Rattle.std.specs.Prelude.{◌≡◌, ◌≢◌, ◌<◌, ◌≤◌, ◌∷◌, [], ℕ, List, length, take, slice_index_or};
ghost use Rattle.std.specs.Prelude.{IfOk, IfSome, IfNone};
ghost use Rattle.tap_lines.specs.TapLines.{AreIdleFrom, IsIdleFrom, IsOnlySource, TapLine, no_line};
ghost use Rattle.tap_lines.specs.TapLists.{AreIdleButFor, AreLoudTaps, TapList};

use crate::line::Line;
use lists::OutOfMemory;
use std::alloc::Global;
use std::marker::Model;

/// A list of taps by their numbers, the first `count` of these. It takes memory only when it is made.
#[derive(Drop)]
pub struct LoudTaps {
    numbers: Vec<usize>,
    count: usize,
}

impl Model for LoudTaps {
    ghost use Rattle.std.specs.Prelude.{◌≤◌, length, take};
    ghost use Rattle.tap_lines.specs.TapLists.{TapList};

    ghost Value = { TapList };

    ghost view = { λ s. record {
      taps = take s.count s.numbers.items;
      room = length s.numbers.items;
    } };

    ghost invariant = { λ s. s.count ≤ length s.numbers.items };
}

/// Writes the numbers of the taps on whose lines something else than Idle stands from half bit `u` on, and says how
/// many.
fn write_loud(lines: &[Line], u: u64, numbers: &mut [usize]) -> usize
    requires { length lines.now ≤ length numbers.old }
    ensures within { result ≤ length numbers.new }
    ensures loud { AreLoudTaps u lines.now (take result numbers.new) }
{
    let mut count = 0;
    for r in 0..lines.len() {
        if lines[r].is_quiet_from(u) {
            continue;
        }
        numbers[count] = r;
        count += 1;
    }
    count
}

/// Writes the numbers of those taps of a list on whose lines something else than Idle stands from half bit `u` on, and
/// says how many.
fn write_loud_among(lines: &[Line], u: u64, among: &LoudTaps, numbers: &mut [usize]) -> usize
    requires idle { AreIdleButFor u lines.now among.now.taps }
    requires room { length lines.now ≤ length numbers.old }
    ensures within { result ≤ length numbers.new }
    ensures loud { AreLoudTaps u lines.now (take result numbers.new) }
{
    let mut count = 0;
    for i in 0..among.len() {
        let q = among.tap(i);
        if lines[q].is_quiet_from(u) {
            continue;
        }
        numbers[count] = q;
        count += 1;
    }
    count
}

impl LoudTaps {
    /// The empty list for so many taps.
    pub fn new(alloc: Global, taps: usize) -> Result<LoudTaps, OutOfMemory>
        ensures taps { IfOk result (λ list. list.taps ≡ []) }
        ensures room { IfOk result (λ list. list.room ≡ taps) }
    {
        Ok(LoudTaps {
            numbers: vec![in alloc; 0; taps]?,
            count: 0,
        })
    }

    /// Lists the taps on whose lines something else than Idle stands from half bit `u` on.
    pub fn find(&mut self, lines: &[Line], u: u64)
        requires { length lines.now ≤ self.old.room }
        ensures loud { AreLoudTaps u lines.now self.new.taps }
        ensures room { self.new.room ≡ self.old.room }
    {
        self.count = write_loud(lines, u, &mut self.numbers);
    }

    /// Lists those of the taps of another list on whose lines something else than Idle stands from half bit `u` on.
    pub fn find_among(&mut self, lines: &[Line], u: u64, among: &LoudTaps)
        requires idle { AreIdleButFor u lines.now among.now.taps }
        requires room { length lines.now ≤ self.old.room }
        ensures loud { AreLoudTaps u lines.now self.new.taps }
        ensures room { self.new.room ≡ self.old.room }
    {
        self.count = write_loud_among(lines, u, among, &mut self.numbers);
    }

    /// How many taps it lists.
    pub fn len(&self) -> usize
        ensures { result ≡ length self.now.taps }
    {
        self.count
    }

    /// The tap at place `i`, from 0.
    pub fn tap(&self, i: usize) -> usize
        requires { i < length self.now.taps }
        ensures { result ≡ slice_index_or self.now.taps i 0 }
    {
        self.numbers[i]
    }

    /// The tap that it lists, if it is just one.
    pub fn only(&self) -> Option<usize>
        ensures some { IfSome result (λ q. self.now.taps ≡ q ∷ []) }
        ensures none { IfNone result ((q : ℕ) → self.now.taps ≢ q ∷ []) }
        ensures only { (u : ℕ) (ls : List TapLine) → AreIdleButFor u ls self.now.taps →
            IfSome result (IsOnlySource u ls) }
        ensures loud { (u : ℕ) (ls : List TapLine) → AreLoudTaps u ls self.now.taps →
            IfSome result (λ q. ¬ IsIdleFrom u (slice_index_or ls q no_line)) }
        ensures no_source { (u : ℕ) (ls : List TapLine) → AreLoudTaps u ls self.now.taps →
            IfNone result ((q : ℕ) → IsOnlySource u ls q → AreIdleFrom u ls) }
    {
        if self.count == 1 {
            Some(self.numbers[0])
        } else {
            None
        }
    }

    /// The first place from `from` on, from 0, of a tap on whose line something else than Idle stands from half bit `u`
    /// on, or else how many taps it lists.
    fn next_loud(&self, lines: &[Line], u: u64, from: usize) -> usize
        requires idle { AreIdleButFor u lines.now self.now.taps }
        requires from { from ≤ length self.now.taps }
        ensures from { from ≤ result }
        ensures within { result ≤ length self.now.taps }
        ensures idle { (i : ℕ) → from ≤ i → i < result → IsIdleFrom u (slice_index_or lines.now (slice_index_or self.now.taps i 0) no_line) }
        ensures loud { result < length self.now.taps → ¬ IsIdleFrom u (slice_index_or lines.now (slice_index_or self.now.taps result 0) no_line) }
    {
        for i in from..self.len() {
            if !lines[self.tap(i)].is_quiet_from(u) {
                return i;
            }
        }
        self.len()
    }

    /// The tap that it lists on whose line something else than Idle stands from half bit `u` on, if it is just one.
    pub fn only_from(&self, lines: &[Line], u: u64) -> Option<usize>
        requires { AreIdleButFor u lines.now self.now.taps }
        ensures only { IfSome result (IsOnlySource u lines.now) }
        ensures loud { IfSome result (λ q. ¬ IsIdleFrom u (slice_index_or lines.now q no_line)) }
        ensures none { IfNone result ((q : ℕ) → IsOnlySource u lines.now q → AreIdleFrom u lines.now) }
    {
        let i = self.next_loud(lines, u, 0);
        if i == self.len() || self.next_loud(lines, u, i + 1) < self.len() {
            return None;
        }
        Some(self.tap(i))
    }
}
