//! What ports hear.
ghost use Rattle.std.specs.Prelude.{◌≡◌, ◌≤◌, ◌<◌, ◌+◌, ◌-◌, ◌^◌, ℕ, All, length, slice_index_or};
ghost use Rattle.segment_engine.specs.SteadyPieces.{with_piece_at};
ghost use Rattle.tap_lines.specs.TapLines.{IsReachOf, heard_for};
ghost use Rattle.tap_lines.specs.TapLists.{AreIdleButFor};

use manchester_line::Sym;
use net_parts::Parcel;
use tap_lines::{Line, LoudTaps, hear_listed, piece_of};

/// What the ports hear in the half bits from `t` on, as many as the piece has, takes the place of what came in for them
/// from half bit `k` of the window on. Their taps come behind so many others.
pub fn put_all(
    t: u64,
    k: usize,
    lines: &[Line],
    loud: &LoudTaps,
    from: usize,
    lookahead: u32,
    far: u64,
    parcels: &mut [Parcel],
    piece: &mut [Sym],
)
    requires many { from + length parcels.old ≤ length lines.now }
    requires reach { IsReachOf far lookahead lines.now }
    requires loud { AreIdleButFor (t - far) lines.now loud.now.taps }
    requires in_time { t + length piece.old < 2 ^ 64 }
    requires long { All (λ p. k + length piece.old ≤ length p.symbols) parcels.old }
    ensures { (p : ℕ) (d : Parcel) → p < length parcels.new → slice_index_or parcels.new p d
        ≡ with_piece_at k (heard_for lookahead t (length piece.old) lines.now (from + p)) (slice_index_or parcels.old p d) }
{
    let source = loud.only();
    for p in 0..parcels.len() {
        let parcel = &mut parcels[p];
        if let Some(heard) = piece_of(lines, source, from + p, lookahead, far, t, piece.len()) {
            parcel.symbols.put(k, heard);
        } else {
            hear_listed(lines, loud, from + p, lookahead, far, t, piece);
            parcel.symbols.put(k, piece);
        }
    }
}

/// What the ports hear in so many half bits from `t` on, the first of a window, takes the place of what came in for them.
/// Their taps come behind so many others.
pub fn put_first(
    t: u64,
    count: usize,
    lines: &[Line],
    loud: &LoudTaps,
    from: usize,
    lookahead: u32,
    far: u64,
    parcels: &mut [Parcel],
    piece: &mut [Sym],
)
    requires many { from + length parcels.old ≤ length lines.now }
    requires reach { IsReachOf far lookahead lines.now }
    requires loud { AreIdleButFor (t - far) lines.now loud.now.taps }
    requires in_time { t + count < 2 ^ 64 }
    requires long { All (λ p. count ≤ length p.symbols) parcels.old }
    requires piece { count ≤ length piece.old }
    ensures { (p : ℕ) (d : Parcel) → p < length parcels.new → slice_index_or parcels.new p d
        ≡ with_piece_at 0 (heard_for lookahead t count lines.now (from + p)) (slice_index_or parcels.old p d) }
{
    let part = &mut piece[..count];
    put_all(t, 0, lines, loud, from, lookahead, far, parcels, part);
}
