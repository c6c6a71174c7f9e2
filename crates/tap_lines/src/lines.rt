//! Passes over the lines of a segment's taps.
ghost use Rattle.std.specs.Prelude.{◌≡◌, false, true};
ghost use Rattle.tap_lines.specs.TapLines.{AreIdleFrom, IsReachOf};

use crate::line::Line;

/// How far back on a line, in half bits, anything that reaches another tap is at most.
pub fn farthest(lines: &[Line], lookahead: u32) -> u64
    ensures { IsReachOf result lookahead lines.now }
{
    let mut low = u32::MAX;
    let mut high = 0;
    let mut longest = 0;
    for line in lines {
        low = low.min(line.place());
        high = high.max(line.place());
        longest = longest.max(line.delay());
    }
    let way = u64::from(high.saturating_sub(low)) + u64::from(longest);
    way.saturating_sub(u64::from(lookahead))
}

/// Whether nothing but Idle stands on any line from half bit `u` on, and all go on so.
pub fn are_idle_from(lines: &[Line], u: u64) -> bool
    ensures idle { result ≡ true → AreIdleFrom u lines.now }
    ensures loud { result ≡ false → ¬ AreIdleFrom u lines.now }
{
    for line in lines {
        if !line.is_quiet_from(u) {
            return false;
        }
    }
    true
}
