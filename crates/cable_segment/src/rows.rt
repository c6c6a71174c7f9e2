//! Rows of symbols, one a half bit, in a slice.

ghost use Rattle.std.specs.Prelude.{◌≡◌, ◌<◌, ◌≤◌, ◌+◌, ◌-◌, ◌*◌, ◌++◌, ◌≢◌, ◌==◌, if◌then◌else◌, min, IsTrue, length, take, drop, replicate, All, ℕ, slice_index, slice_index_or};
ghost use Rattle.manchester_line.specs.declared.Sym.TheVariants.{Idle};
ghost use Rattle.cable_segment.specs.Bus.{heard_at};
ghost use Rattle.mac_parameters.specs.Distances.{distance};
ghost use Rattle.mac_parameters.specs.Parameters.{greatest_place};
ghost use Rattle.cable_segment.specs.Cable.{most_ahead, rows_back};
ghost use Rattle.cable_segment.specs.Skips.{Skips};

use manchester_line::{Sym, mix};

/// What a tap hears of tap `q`.
fn heard_of(positions: &[u32], rows: &[Sym], ahead: u32, tap: u32, q: usize) -> Sym
    requires near { All (λ p. p ≤ greatest_place) positions.now }
    requires window { ahead ≤ most_ahead }
    requires tap_in { tap < length positions.now }
    requires q_in { q < length positions.now }
    requires room { length rows.now ≡ (ahead + rows_back) * length positions.now }
    ensures { result ≡ (if q == tap then Idle else slice_index_or rows.now ((ahead + distance (slice_index positions.now tap) (slice_index positions.now q)) * length positions.now + q) Idle) }
{
    let taps = positions.len();
    if q == tap as usize {
        return Sym::Idle;
    }
    let row = (ahead + positions[tap as usize].abs_diff(positions[q])) as usize;
    rows[row * taps + q]
}

/// What a tap hears, where `rows` has a row for each half bit, the latest first, and `next` tells which taps to skip. A
/// clash stays one, whatever comes to it.
pub fn heard_in(positions: &[u32], rows: &[Sym], ahead: u32, tap: u32, next: &[usize]) -> Sym
    requires near { All (λ p. p ≤ greatest_place) positions.now }
    requires window { ahead ≤ most_ahead }
    requires tap_in { tap < length positions.now }
    requires room { length rows.now ≡ (ahead + rows_back) * length positions.now }
    requires skips { Skips next.now rows.now (length positions.now) }
    ensures { result ≡ heard_at (λ back q. slice_index_or rows.now ((ahead + back) * length positions.now + q) Idle) positions.now tap }
{
    let taps = positions.len();
    let mut sound = Sym::Idle;
    let mut q = next[0];
    while q < taps && sound != Sym::Clash {
        sound = mix(sound, heard_of(positions, rows, ahead, tap, q));
        q = next[q + 1];
    }
    sound
}

/// Moves the window to the end of the slots where there is no room before it.
pub fn make_room(slots: &mut [Sym], start: usize, span: usize, taps: usize) -> usize
    requires inside { start + span ≤ length slots.old }
    requires room { span + span ≤ length slots.old }
    requires some { taps ≤ span }
    ensures before { taps ≤ result }
    ensures within { result + span ≤ length slots.new }
    ensures len { length slots.new ≡ length slots.old }
    ensures same { take span (drop result slots.new) ≡ take span (drop start slots.old) }
{
    if taps <= start {
        return start;
    }
    let at = slots.len() - span;
    slots.copy_within(start..start + span, at);
    at
}

/// Idle in the row before a place.
pub fn clear_before(slots: &mut [Sym], at: usize, taps: usize)
    requires before { taps ≤ at }
    requires within { at ≤ length slots.old }
    ensures len { length slots.new ≡ length slots.old }
    ensures rows { drop (at - taps) slots.new ≡ replicate taps Idle ++ drop at slots.old }
{
    slots[at - taps..at].fill(Sym::Idle);
}

/// One row on: a row of Idle comes before the window.
pub fn slide(slots: &mut [Sym], start: usize, span: usize, taps: usize) -> usize
    requires inside { start + span ≤ length slots.old }
    requires room { span + span ≤ length slots.old }
    requires some { taps ≤ span }
    ensures within { result + span ≤ length slots.new }
    ensures len { length slots.new ≡ length slots.old }
    ensures rows { take span (drop result slots.new) ≡ take span (replicate taps Idle ++ take span (drop start slots.old)) }
{
    let at = make_room(slots, start, span, taps);
    clear_before(slots, at, taps);
    at - taps
}

/// Tap `tap` may have symbols other than Idle from now on, if this is one.
pub fn wake(next: &mut [usize], tap: u32, s: Sym)
    requires { tap < length next.old }
    ensures idle { s ≡ Idle → next.new ≡ next.old }
    ensures below { s ≢ Idle → (q : ℕ) → q < tap + 1 → slice_index next.new q ≡ min (slice_index next.old q) tap }
    ensures above { (q : ℕ) → tap + 1 ≤ q → slice_index next.new q ≡ slice_index next.old q }
{
    if s == Sym::Idle {
        return;
    }
    let tap = tap as usize;
    for q in 0..tap + 1 {
        next[q] = next[q].min(tap);
    }
}

/// Whether a tap has Idle in all rows.
fn is_silent(rows: &[Sym], taps: usize, count: usize, tap: usize) -> bool
    requires tap_in { tap < taps }
    requires size { length rows.now ≡ count * taps }
    ensures { IsTrue result → (row : ℕ) → slice_index_or rows.now (row * taps + tap) Idle ≡ Idle }
{
    for row in 0..count {
        if rows[row * taps + tap] != Sym::Idle {
            return false;
        }
    }
    true
}

/// The first tap from `q` on that may have symbols other than Idle, given that of each tap behind it.
fn skip_from(rows: &[Sym], taps: usize, count: usize, next: &[usize], q: usize) -> usize
    requires q_in { q < taps }
    requires size { length rows.now ≡ count * taps }
    requires skips { Skips next.now rows.now taps }
    ensures on { q ≤ result }
    ensures within { result ≤ taps }
    ensures silent { (j row : ℕ) → q ≤ j → j < result → slice_index_or rows.now (row * taps + j) Idle ≡ Idle }
{
    if is_silent(rows, taps, count, q) {
        next[q + 1]
    } else {
        q
    }
}

/// Finds the taps to skip anew, if that is due.
pub fn relist(due: bool, rows: &[Sym], taps: usize, count: usize, next: &mut [usize])
    requires size { length rows.now ≡ count * taps }
    requires skips { Skips next.old rows.now taps }
    ensures { Skips next.new rows.now taps }
{
    if !due {
        return;
    }
    for k in 0..taps {
        let q = taps - 1 - k;
        next[q] = skip_from(rows, taps, count, next, q);
    }
}
