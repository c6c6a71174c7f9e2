//! Windows in which nothing happens anywhere, many at once.
ghost use Rattle.std.specs.Prelude.{◌≡◌, ◌<◌, ◌≤◌, ◌+◌, ◌*◌, ℕ, All, IsTrue, false, length, map, ◌↔◌, slice_index_or};
ghost use Rattle.manchester_line.specs.declared.Sym.TheVariants.{Idle};
ghost use Rattle.net_parts.specs.Parts.{edges_of_part};
ghost use Rattle.net_parts.specs.Standing.{arrives, port_hears};
ghost use Rattle.net_parts.specs.Windows.{lookahead, windows};
ghost use Rattle.network.specs.Times.{decided};
ghost use Rattle.turn_run.specs.ParcelsInTurn.{all_parcels};
ghost use Rattle.turn_run.specs.PartsInTurn.{AreAtWindow, IsLater};
ghost use Rattle.turn_run.specs.SilentWindows.{IsIdleOver, StaysIdle, stamped};

use crate::kind::PartKind;
use load_plan::Plan;
use manchester_line::Sym;
use net_parts::Parcel;

/// Whether a parcel brings nothing but Idle.
fn is_idle(parcel: &Parcel) -> bool
    ensures { IsTrue result ↔ All (λ s. s ≡ Idle) parcel.now.symbols }
{
    parcel
        .symbols
        .as_slice()
        .iter()
        .all(|symbol| *symbol == Sym::Idle)
}

/// Whether no parcel brings anything but Idle.
fn are_idle(parcels: &[Parcel]) -> bool
    ensures { IsTrue result ↔ All (λ p. All (λ s. s ≡ Idle) p.symbols) parcels.now }
{
    parcels.iter().all(|parcel| is_idle(parcel))
}

/// The parcels get this stamp.
fn stamp_all(parcels: &mut [Parcel], window: u64)
    ensures { parcels.new ≡ map (stamped window) parcels.old }
{
    for parcel in parcels.iter_mut() {
        parcel.window = window;
    }
}

/// For how many windows from its present one on, at most `most`, nothing happens at any of these parts and nothing but
/// Idle goes from it, as long as nothing but Idle comes to it.
fn calm_of<K: PartKind>(parts: &[K], most: u64) -> u64
    requires running { All (λ s. K.at s < windows (K.plan s)) parts.now }
    ensures within { result ≤ most }
    ensures calm { (n : ℕ) → 0 < n → n ≤ result → All (λ s. K.calm s n) parts.now }
    ensures silent { All (λ s. StaysIdle (K.comes (K.plan s)) (K.goes (K.plan s)) (edges_of_part (K.plan s) (K.number s))
        (K.at s * lookahead (K.plan s).layout) (result * lookahead (K.plan s).layout)) parts.now }
{
    let mut calm = most;
    for part in parts {
        calm = part.quiet_windows(calm);
    }
    calm
}

/// These parts go over so many windows in which nothing happens at any of them and nothing but Idle comes to it.
fn leap_parts<K: PartKind>(parts: &mut [K], count: u64)
    requires some { 0 < count }
    requires within { All (λ s. K.at s + count < windows (K.plan s)) parts.old }
    requires calm { All (λ s. K.calm s count) parts.old }
    requires silent { All (λ s. IsIdleOver (K.comes (K.plan s)) (edges_of_part (K.plan s) (K.number s))
        (K.at s * lookahead (K.plan s).layout) (count * lookahead (K.plan s).layout)) parts.old }
    ensures { (k : ℕ) (d : K) → k < length parts.new →
        IsLater K.plan K.number K.at count (slice_index_or parts.old k d) (slice_index_or parts.new k d) }
{
    for part in parts.iter_mut() {
        part.leap(count);
    }
}

/// In how many windows from the present one on, at most `most`, nothing happens anywhere.
fn quiet_everywhere<S: PartKind, R: PartKind>(
    segments: &[S],
    repeaters: &[R],
    parcels: &[Parcel],
    most: u64,
) -> u64
    requires segments { All (λ s. S.at s < windows (S.plan s)) segments.now }
    requires repeaters { All (λ s. R.at s < windows (R.plan s)) repeaters.now }
    ensures within { result ≤ most }
    ensures idle { 0 < result → All (λ p. All (λ s. s ≡ Idle) p.symbols) parcels.now }
    ensures calm_segments { 0 < result → All (λ s. S.calm s result) segments.now }
    ensures calm_repeaters { 0 < result → All (λ s. R.calm s result) repeaters.now }
    ensures silent_segments { 0 < result → All (λ s. StaysIdle (S.comes (S.plan s)) (S.goes (S.plan s)) (edges_of_part (S.plan s) (S.number s))
        (S.at s * lookahead (S.plan s).layout) (result * lookahead (S.plan s).layout)) segments.now }
    ensures silent_repeaters { 0 < result → All (λ s. StaysIdle (R.comes (R.plan s)) (R.goes (R.plan s)) (edges_of_part (R.plan s) (R.number s))
        (R.at s * lookahead (R.plan s).layout) (result * lookahead (R.plan s).layout)) repeaters.now }
{
    if !are_idle(parcels) {
        return 0;
    }
    let calm = calm_of(segments, most);
    calm_of(repeaters, calm)
}

/// All parts go over the windows from the present one on, at most `most`, in which nothing happens anywhere, and the
/// parcels get the stamp of the one that follows. It answers how many windows they are.
pub fn leap_all<S: PartKind, R: PartKind>(
    plan: &Plan,
    window: u64,
    most: u64,
    segments: &mut [S],
    repeaters: &mut [R],
    parcels: &mut [Parcel],
) -> u64
    requires within { window + most < windows plan.now }
    requires arrive { (e u : ℕ) → S.comes plan.now e u ≡ arrives plan.now (lookahead plan.now.layout) e u }
    requires heard { (e u : ℕ) → S.goes plan.now e u ≡ port_hears plan.now e u }
    requires hear { (e u : ℕ) → R.comes plan.now e u ≡ port_hears plan.now e u }
    requires decide { (e u : ℕ) → R.goes plan.now e u ≡ decided plan.now e u }
    requires segments { AreAtWindow S.plan S.number S.at plan.now 0 (length plan.now.layout.segments) window segments.old }
    requires repeaters { AreAtWindow R.plan R.number R.at plan.now (length plan.now.layout.segments) (length plan.now.layout.repeaters) window repeaters.old }
    requires parcels { parcels.old ≡ all_parcels plan.now false window }
    ensures within { result ≤ most }
    ensures segments { AreAtWindow S.plan S.number S.at plan.now 0 (length plan.now.layout.segments) (window + result) segments.new }
    ensures repeaters { AreAtWindow R.plan R.number R.at plan.now (length plan.now.layout.segments) (length plan.now.layout.repeaters) (window + result) repeaters.new }
    ensures parcels { parcels.new ≡ all_parcels plan.now false (window + result) }
{
    let quiet = quiet_everywhere(segments, repeaters, parcels, most);
    if quiet == 0 {
        return 0;
    }
    leap_parts(segments, quiet);
    leap_parts(repeaters, quiet);
    stamp_all(parcels, window + quiet);
    quiet
}
