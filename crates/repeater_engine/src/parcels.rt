//! The parcels of a repeater, half bit by half bit.
ghost use Rattle.std.specs.Prelude.{◌≡◌, ◌<◌, ◌≤◌, All, length, map, replicate};
ghost use Rattle.mac_parameters.specs.Parameters.{greatest_delay};
ghost use Rattle.manchester_line.specs.declared.Sym.TheVariants.{Idle};
ghost use Rattle.manchester_line.specs.Line.{is_signal};
ghost use Rattle.repeater_core.specs.Classes.{IsSource};
ghost use Rattle.repeater_engine.specs.KeptRepeaters.{HaveRow, piece_of, row_brought, turned_to_segment};
ghost use Rattle.repeater_engine.specs.LeapedHalfBits.{rows_brought, HavePieces, ReachFrom};

use mac_parameters::GREATEST_DELAY;
use manchester_line::{Sym, is_signal};
use net_parts::Parcel;
use repeater_core::Mode;

/// The most half bits that are made at once.
pub const MOST_AT_ONCE: usize = GREATEST_DELAY as usize;

/// As many times Idle.
const IDLE: [Sym; MOST_AT_ONCE] = [Sym::Idle; MOST_AT_ONCE];

/// What each port hears in half bit `k` of a window, from 0: the symbol that its parcel brings for it.
pub fn hear_all(parcels: &[Parcel], k: usize, heard: &mut [Sym])
    requires len { length heard.old ≡ length parcels.now }
    requires long { All (λ p. k < length p.symbols) parcels.now }
    ensures { heard.new ≡ row_brought k parcels.now }
{
    for p in 0..parcels.len() {
        let parcel = &parcels[p];
        heard[p] = parcel.symbols.as_slice()[k];
    }
}

/// Puts what is decided for each port in half bit `k` of a window, from 0, into its parcel.
pub fn put_all(parcels: &mut [Parcel], k: usize, decided: &[Sym])
    requires len { length decided.now ≡ length parcels.old }
    requires long { All (λ p. k < length p.symbols) parcels.old }
    ensures { HaveRow k decided.now parcels.old parcels.new }
{
    for p in 0..parcels.len() {
        let parcel = &mut parcels[p];
        parcel.symbols.set(k, decided[p]);
    }
}

/// So many times Idle.
fn idle_piece(m: usize) -> &'static [Sym]
    requires { m ≤ greatest_delay }
    ensures { result.now ≡ replicate m Idle }
{
    &IDLE[..m]
}

/// What the port that a mode repeats hears in the `m` half bits of a window from `k` on, and Idle where it repeats
/// none.
pub fn repeated(mode: Mode, parcels: &[Parcel], k: usize, m: usize) -> &[Sym]
    requires few { m ≤ greatest_delay }
    requires long { ReachFrom k m parcels.now }
    ensures len { length result.now ≡ m }
    ensures source { IsSource mode result.now (rows_brought k m parcels.now) }
{
    if let Mode::Repeat { n, .. } = mode {
        if (n as usize) < parcels.len() {
            let parcel = &parcels[n as usize];
            return &parcel.symbols.as_slice()[k..k + m];
        }
    }
    idle_piece(m)
}

/// What is sent to a port: this, where there is a signal for it, and else Idle.
fn piece_for(decided: Sym, sent: &[Sym]) -> &[Sym]
    requires { length sent.now ≤ greatest_delay }
    ensures { result.now ≡ piece_of (is_signal decided) sent.now }
{
    if is_signal(decided) {
        sent
    } else {
        idle_piece(sent.len())
    }
}

/// Puts what is sent in the half bits of a window from `k` on into the parcels of the ports that have a signal in
/// `decided`, and Idle into the others.
pub fn put_pieces(parcels: &mut [Parcel], k: usize, decided: &[Sym], sent: &[Sym])
    requires len { length decided.now ≡ length parcels.old }
    requires few { length sent.now ≤ greatest_delay }
    requires long { ReachFrom k (length sent.now) parcels.old }
    ensures { HavePieces k decided.now sent.now parcels.old parcels.new }
{
    for p in 0..parcels.len() {
        let parcel = &mut parcels[p];
        parcel.symbols.put(k, piece_for(decided[p], sent));
    }
}

/// Turns the parcels to their segments, with this stamp.
pub fn turn_all(parcels: &mut [Parcel], stamp: u64)
    ensures { parcels.new ≡ map (turned_to_segment stamp) parcels.old }
{
    for parcel in parcels.iter_mut() {
        parcel.window = stamp;
        parcel.to_repeater = false;
    }
}
