//! Half bits of a window that are made at once: those in which each port, a closed one too, hears symbols of one class,
//! and nothing happens to the repeater but counts.
ghost use Rattle.std.specs.Prelude.{◌≡◌, ◌≢◌, ◌≤◌, ◌<◌, ◌+◌, ℕ, All, IsTrue, length, map, take, slice_index_or};
ghost use Rattle.mac_parameters.specs.Parameters.{greatest_delay};
ghost use Rattle.manchester_line.specs.declared.Sym.TheVariants.{Idle};
ghost use Rattle.manchester_line.specs.Line.{is_signal};
ghost use Rattle.repeater_core.specs.Classes.{after_rows, class_of, AreSteadyRows, DecideTexts};
ghost use Rattle.repeater_core.specs.Steady.{IsSteady};
ghost use Rattle.repeater_core.specs.Step.{decided_by, emitted_by};
ghost use Rattle.repeater_engine.specs.KeptRepeaters.{row_brought};
ghost use Rattle.repeater_engine.specs.LeapedHalfBits.{rows_brought, AreOfClasses, ReachFrom};

use crate::parcels::repeated;
use manchester_line::Sym;
use net_parts::Parcel;
use repeater_core::Repeater;

/// The class of a symbol, named by one symbol of it: Idle, a signal of either level, or Clash.
fn class_of(symbol: Sym) -> Sym
    ensures { result ≡ class_of symbol }
{
    match symbol {
        Sym::Lo => Sym::Hi,
        other => other,
    }
}

/// The other symbol of the same class: of a level the other level, and else the symbol itself.
fn twin_of(symbol: Sym) -> Sym
    ensures { class_of result ≡ class_of symbol }
{
    match symbol {
        Sym::Hi => Sym::Lo,
        Sym::Lo => Sym::Hi,
        other => other,
    }
}

/// Whether all symbols are one of these two, which are of one class. None is the last that is looked at, so that many
/// are at once.
fn all_of(symbols: &[Sym], one: Sym, twin: Sym) -> bool
    requires { class_of twin ≡ class_of one }
    ensures { IsTrue result → (j : ℕ) → j < length symbols.now → class_of (slice_index_or symbols.now j Idle) ≡ class_of one }
{
    let mut all = true;
    for symbol in symbols {
        all &= (*symbol == one) | (*symbol == twin);
    }
    all
}

/// How many symbols come before the first of another class than this one's.
fn alike_in(symbols: &[Sym], first: Sym) -> usize
    ensures within { result ≤ length symbols.now }
    ensures alike { (j : ℕ) → j < result → class_of (slice_index_or symbols.now j Idle) ≡ class_of first }
    ensures differs { result < length symbols.now → class_of (slice_index_or symbols.now result Idle) ≢ class_of first }
{
    if all_of(symbols, first, twin_of(first)) {
        return symbols.len();
    }
    let class = class_of(first);
    for j in 0..symbols.len() {
        if class_of(symbols[j]) != class {
            return j;
        }
    }
    symbols.len()
}

/// Whether each port hears in half bit `k` of a window a symbol of the class of what it hears in this row.
pub fn heard_alike(parcels: &[Parcel], k: usize, heard: &[Sym]) -> bool
    requires as_many { length heard.now ≡ length parcels.now }
    requires long { All (λ p. k < length p.symbols) parcels.now }
    ensures alike { IsTrue result → map class_of (row_brought k parcels.now) ≡ map class_of heard.now }
    ensures differs { map class_of (row_brought k parcels.now) ≡ map class_of heard.now → IsTrue result }
{
    for p in 0..parcels.len() {
        let parcel = &parcels[p];
        if class_of(parcel.symbols.as_slice()[k]) != class_of(heard[p]) {
            return false;
        }
    }
    true
}

/// For how many half bits of a window from `k` on, `most` at most, each port hears symbols of the class of what it
/// hears in this row.
pub fn alike_ahead(parcels: &[Parcel], k: usize, most: usize, heard: &[Sym]) -> usize
    requires as_many { length heard.now ≡ length parcels.now }
    requires long { ReachFrom k most parcels.now }
    ensures within { result ≤ most }
    ensures alike { AreOfClasses heard.now (rows_brought k result parcels.now) }
    ensures greatest { result < most → ¬ AreOfClasses heard.now (rows_brought k (result + 1) parcels.now) }
{
    let mut least = most;
    for p in 0..parcels.len() {
        let parcel = &parcels[p];
        let symbols = &parcel.symbols.as_slice()[k..k + least];
        least = alike_in(symbols, heard[p]);
    }
    least
}

/// Makes the `m` half bits of a window from `k` on at once, which are steady: each port hears symbols of the class of
/// what it hears in half bit `k`, and nothing happens but counts. Written are what is emitted and decided in the first
/// of them, and what is sent in each.
pub fn leap_over(
    repeater: &mut Repeater,
    parcels: &[Parcel],
    k: usize,
    m: usize,
    heard: &[Sym],
    emitted: &mut [Sym],
    decided: &mut [Sym],
    sent: &mut [Sym],
)
    requires heard { heard.now ≡ row_brought k parcels.now }
    requires many { length parcels.now ≡ length repeater.old.guards }
    requires emitted_len { length emitted.old ≡ length repeater.old.guards }
    requires decided_len { length decided.old ≡ length repeater.old.guards }
    requires sent_len { length sent.old ≡ greatest_delay }
    requires some { 0 < m }
    requires few { m ≤ greatest_delay }
    requires long { ReachFrom k m parcels.now }
    requires alike { AreOfClasses heard.now (rows_brought k m parcels.now) }
    requires steady { IsSteady heard.now repeater.old m }
    ensures state { repeater.new ≡ after_rows (rows_brought k m parcels.now) repeater.old }
    ensures ports { length repeater.new.guards ≡ length repeater.old.guards }
    ensures emitted { emitted.new ≡ emitted_by repeater.old }
    ensures decided { decided.new ≡ decided_by heard.now repeater.old }
    ensures steps { AreSteadyRows (rows_brought k m parcels.now) (map is_signal (emitted_by repeater.old)) (map is_signal decided.new) repeater.old }
    ensures decisions { DecideTexts (rows_brought k m parcels.now) (map is_signal decided.new) (take m sent.new) repeater.old }
{
    let text = repeated(repeater.mode(), parcels, k, m);
    repeater.leap_classes(heard, text, emitted, decided, &mut sent[..m]);
}
