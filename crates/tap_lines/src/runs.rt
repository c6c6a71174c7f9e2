//! Runs of symbols that are all signals, or all Idle.
ghost use Rattle.std.specs.Prelude.{◌≡◌, ◌≢◌, ◌<◌, ◌≤◌, ◌+◌, ◌-◌, ℕ, true, false, length, slice_index_or};
ghost use Rattle.manchester_line.specs.declared.Sym.TheVariants.{Idle};
ghost use Rattle.manchester_line.specs.Line.{is_signal as is_signal_of};
ghost use Rattle.tap_lines.specs.Signals.{EndsInSignals, class_at};

use manchester_line::{Sym, is_signal};

/// The place behind the last signal of a piece, from 0.
pub fn end_of_signals(piece: &[Sym]) -> usize
    ensures within { result ≤ length piece.now }
    ensures signal { 0 < result → is_signal_of (slice_index_or piece.now (result - 1) Idle) ≡ true }
    ensures idle { (j : ℕ) → result ≤ j → j < length piece.now → slice_index_or piece.now j Idle ≡ Idle }
{
    let len = piece.len();
    for gone in 0..len {
        let end = len - gone;
        if piece[end - 1] != Sym::Idle {
            return end;
        }
    }
    0
}

/// How many symbols are looked at together.
const TOGETHER: usize = 32;

/// Whether all symbols of a piece are a signal, or all of them Idle, as `carrier` says. All are looked at, so that no
/// branch goes by them.
fn are_all(piece: &[Sym], carrier: bool) -> bool
    ensures steady { result ≡ true → (j : ℕ) → j < length piece.now → is_signal_of (slice_index_or piece.now j Idle) ≡ carrier }
    ensures other { result ≡ false → ¬ ((j : ℕ) → j < length piece.now → is_signal_of (slice_index_or piece.now j Idle) ≡ carrier) }
{
    let mut all = true;
    for symbol in piece {
        all &= is_signal(*symbol) == carrier;
    }
    all
}

/// How many of the first symbols of a piece are all a signal, or are all Idle, as `carrier` says.
pub fn steady_first(piece: &[Sym], carrier: bool) -> usize
    ensures within { result ≤ length piece.now }
    ensures steady { (j : ℕ) → j < result → is_signal_of (slice_index_or piece.now j Idle) ≡ carrier }
    ensures longest { result < length piece.now → is_signal_of (slice_index_or piece.now result Idle) ≢ carrier }
{
    let len = piece.len();
    let mut steady = 0;
    while len - steady >= TOGETHER && are_all(&piece[steady..steady + TOGETHER], carrier) {
        steady += TOGETHER;
    }
    while steady < len && is_signal(piece[steady]) == carrier {
        steady += 1;
    }
    steady
}

/// For how many places from `place` on, from 0, at most `most`, there is a signal in all, or Idle in all, as `carrier`
/// says, where the text goes on behind its end as `on` says. At least the last `loud` symbols of the text are signals.
pub fn steady_from(
    text: &[Sym],
    loud: usize,
    on: bool,
    place: u64,
    most: usize,
    carrier: bool,
) -> usize
    requires { EndsInSignals loud text.now }
    ensures within { result ≤ most }
    ensures steady { (j : ℕ) → j < result → class_at text.now on (place + j) ≡ carrier }
    ensures longest { result < most → class_at text.now on (place + result) ≢ carrier }
{
    let first = place.min(text.len() as u64) as usize;
    let count = most.min(text.len() - first);
    if carrier && text.len() - loud <= first {
        return if on { most } else { count };
    }
    let steady = steady_first(&text[first..first + count], carrier);
    if steady < count || carrier != on {
        steady
    } else {
        most
    }
}
