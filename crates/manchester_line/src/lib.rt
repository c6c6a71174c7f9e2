//! The symbols of a half bit, the line text of a frame, and the reading of a reception.
#![tactic(auto)]

ghost use Rattle.std.specs.Prelude.{◌≡◌};
ghost use Rattle.manchester_line.specs.Line.{mix_of, half_at, is_signal};

mod decoder;
mod line;

pub use decoder::{Decoder, Heard};
pub use line::{encode_into, header_sym, jam_sym, line_sym};

/// What a tap emits or hears in one half bit of 50 ns.
#[derive(Clone, Copy, Debug, PartialEq, Eq)]
pub enum Sym {
    /// No signal.
    Idle,
    /// The high level.
    Hi,
    /// The low level.
    Lo,
    /// Several signals at once.
    Clash,
}

/// What is heard where two symbols meet on one cable: the one that isn't Idle, or a clash
/// (profile).
pub fn mix(a: Sym, b: Sym) -> Sym
    ensures { result ≡ mix_of a b }
{
    match (a, b) {
        (Sym::Idle, s) => s,
        (s, Sym::Idle) => s,
        _ => Sym::Clash,
    }
}

/// Whether a symbol is a signal, which is anything but Idle: what a station that hears it calls carrier (clause 4).
pub fn is_signal(symbol: Sym) -> bool
    ensures { result ≡ is_signal symbol }
{
    symbol != Sym::Idle
}

/// One half of a bit: its complement first and the bit itself second (clause 7).
pub fn half_of(bit: bool, second: bool) -> Sym
    ensures { result ≡ half_at bit second }
{
    if bit == second { Sym::Hi } else { Sym::Lo }
}
