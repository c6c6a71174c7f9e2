//! The one line that taps hear, where nothing but Idle stands on the others.
ghost use Rattle.std.specs.Prelude.{◌≡◌, ◌≢◌, ◌≤◌, ◌<◌, ◌+◌, ◌-◌, ◌^◌, ℕ, length, Some, slice_index_or, IfSome, IfNone};
ghost use Rattle.tap_lines.specs.TapLines.{IsWithinSignals, half_bits_back, class_by_lines, heard_for, no_line, IsOnlySource, IsReachOf};

use crate::line::Line;
use manchester_line::Sym;

/// For how many half bits from `t` on, at most `most`, tap `p` hears a signal in all of them, or Idle in all, as
/// `carrier` says, by the line of `source`, the only one that it may hear.
pub fn known_ahead(
    lines: &[Line],
    source: usize,
    p: usize,
    lookahead: u32,
    far: u64,
    t: u64,
    most: usize,
    carrier: bool,
) -> usize
    requires tap { p < length lines.now }
    requires reach { IsReachOf far lookahead lines.now }
    requires source { IsOnlySource (t - far) lines.now source }
    requires in_time { t + most < 2 ^ 64 }
    ensures within { result ≤ most }
    ensures known { (j : ℕ) → j < result → class_by_lines lookahead (t + j) lines.now p ≡ carrier }
    ensures longest { result < most → class_by_lines lookahead (t + result) lines.now p ≢ carrier }
{
    let _ = far;
    if source == p {
        return if carrier { 0 } else { most };
    }
    let line = &lines[source];
    let back = line.back(lines[p].place(), lookahead);
    line.steady_back(back, t, most, carrier)
}

/// What tap `p` hears in the half bits from `t` on, as many as `count`, where it stands as a whole on the only line
/// that the tap may hear.
pub fn piece_of(
    lines: &[Line],
    source: Option<usize>,
    p: usize,
    lookahead: u32,
    far: u64,
    t: u64,
    count: usize,
) -> Option<&[Sym]>
    requires tap { p < length lines.now }
    requires reach { IsReachOf far lookahead lines.now }
    requires source { IfSome source (IsOnlySource (t - far) lines.now) }
    ensures len { IfSome result (λ piece. length piece.now ≡ count) }
    ensures piece { IfSome result (λ piece. piece.now ≡ heard_for lookahead t count lines.now p) }
    ensures none { IfNone result ((q : ℕ) → source ≡ Some q → q ≢ p →
        ¬ IsWithinSignals (half_bits_back lookahead (slice_index_or lines.now p no_line).at (slice_index_or lines.now q no_line)) t count
        (slice_index_or lines.now q no_line)) }
{
    let _ = far;
    let Some(q) = source else {
        return None;
    };
    if q == p {
        return None;
    }
    let line = &lines[q];
    let back = line.back(lines[p].place(), lookahead);
    line.written_back(back, t, count)
}
