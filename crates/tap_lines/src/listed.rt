//! What taps hear where the taps are listed on whose lines anything stands that may still be heard.
ghost use Rattle.std.specs.Prelude.{◌≡◌, length};
ghost use Rattle.tap_lines.specs.TapLines.{heard_for};
ghost use Rattle.tap_lines.specs.TapLists.{HearsListed};

use crate::line::Line;
use crate::loud::LoudTaps;
use manchester_line::Sym;

/// What tap `p` hears in the half bits from `t` on, as many as the piece has, where nothing reaches a tap that is
/// further back than `far` half bits: only the lines of the listed taps are looked at.
pub fn hear_listed(
    lines: &[Line],
    loud: &LoudTaps,
    p: usize,
    lookahead: u32,
    far: u64,
    t: u64,
    piece: &mut [Sym],
)
    requires listed { HearsListed p lookahead far t (length piece.old) lines.now loud.now.taps }
    ensures { piece.new ≡ heard_for lookahead t (length piece.old) lines.now p }
{
    let _ = far;
    let at = lines[p].place();
    let mut fresh = true;
    piece.fill(Sym::Idle);
    for i in 0..loud.len() {
        let q = loud.tap(i);
        if q == p {
            continue;
        }
        lines[q].mix_over(at, lookahead, t, piece, fresh);
        fresh = false;
    }
}
