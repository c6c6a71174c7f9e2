//! For how long taps go on to hear a signal, or Idle, where the taps are listed on whose lines anything stands that
//! may still be heard: a tap hears Idle where all that reaches it is Idle. A line that has ended goes on as it ends.
ghost use Rattle.std.specs.Prelude.{◌≡◌, ◌≢◌, ◌≤◌, ◌<◌, ◌+◌, ℕ, true, false};
ghost use Rattle.tap_lines.specs.TapLines.{class_by_lines};
ghost use Rattle.tap_lines.specs.TapLists.{HearsListed};

use crate::line::Line;
use crate::loud::LoudTaps;
use crate::sources::known_ahead;

/// For how many half bits from `t` on, at most `most`, tap `p` hears Idle in all of them.
fn idle_ahead(
    lines: &[Line],
    loud: &LoudTaps,
    p: usize,
    lookahead: u32,
    far: u64,
    t: u64,
    most: usize,
) -> usize
    requires listed { HearsListed p lookahead far t most lines.now loud.now.taps }
    ensures within { result ≤ most }
    ensures idle { (j : ℕ) → j < result → class_by_lines lookahead (t + j) lines.now p ≡ false }
    ensures longest { result < most → class_by_lines lookahead (t + result) lines.now p ≡ true }
{
    let _ = far;
    let at = lines[p].place();
    let mut idle = most;
    for i in 0..loud.len() {
        let q = loud.tap(i);
        if q == p {
            continue;
        }
        let line = &lines[q];
        idle = line.steady_back(line.back(at, lookahead), t, idle, false);
    }
    idle
}

/// For how many half bits from `t` on, at most `most`, one of the listed lines alone lets tap `p` hear a signal: the
/// most that any of them does.
fn one_signal_ahead(
    lines: &[Line],
    loud: &LoudTaps,
    p: usize,
    lookahead: u32,
    far: u64,
    t: u64,
    most: usize,
) -> usize
    requires listed { HearsListed p lookahead far t most lines.now loud.now.taps }
    ensures within { result ≤ most }
    ensures signals { (j : ℕ) → j < result → class_by_lines lookahead (t + j) lines.now p ≡ true }
    ensures none { result ≡ 0 → 0 < most → class_by_lines lookahead t lines.now p ≡ false }
{
    let _ = far;
    let at = lines[p].place();
    let mut longest = 0;
    for i in 0..loud.len() {
        let q = loud.tap(i);
        if q == p {
            continue;
        }
        let line = &lines[q];
        longest = line
            .steady_back(line.back(at, lookahead), t, most, true)
            .max(longest);
        if longest == most {
            return longest;
        }
    }
    longest
}

/// For how many half bits from `t` on, at most `most`, tap `p` hears a signal in all of them, by one line after
/// another.
fn signals_ahead(
    lines: &[Line],
    loud: &LoudTaps,
    p: usize,
    lookahead: u32,
    far: u64,
    t: u64,
    most: usize,
) -> usize
    requires listed { HearsListed p lookahead far t most lines.now loud.now.taps }
    ensures within { result ≤ most }
    ensures signals { (j : ℕ) → j < result → class_by_lines lookahead (t + j) lines.now p ≡ true }
    ensures longest { result < most → class_by_lines lookahead (t + result) lines.now p ≡ false }
{
    let mut steady = 0;
    while steady < most {
        let u = t + steady as u64;
        let more = one_signal_ahead(lines, loud, p, lookahead, far, u, most - steady);
        if more == 0 {
            return steady;
        }
        steady += more;
    }
    steady
}

/// For how many half bits from `t` on, at most `most`, tap `p` hears a signal in all of them, or Idle in all, as
/// `carrier` says.
pub fn class_ahead(
    lines: &[Line],
    loud: &LoudTaps,
    p: usize,
    lookahead: u32,
    far: u64,
    t: u64,
    most: usize,
    carrier: bool,
) -> usize
    requires listed { HearsListed p lookahead far t most lines.now loud.now.taps }
    ensures within { result ≤ most }
    ensures steady { (j : ℕ) → j < result → class_by_lines lookahead (t + j) lines.now p ≡ carrier }
    ensures longest { result < most → class_by_lines lookahead (t + result) lines.now p ≢ carrier }
{
    if let Some(q) = loud.only() {
        return known_ahead(lines, q, p, lookahead, far, t, most, carrier);
    }
    if carrier {
        signals_ahead(lines, loud, p, lookahead, far, t, most)
    } else {
        idle_ahead(lines, loud, p, lookahead, far, t, most)
    }
}
