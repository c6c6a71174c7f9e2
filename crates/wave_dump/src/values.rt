//! The lines of a dump that tell times and values.
ghost use Rattle.std.specs.Prelude.{◌≡◌, ◌+◌, ◌*◌, ◌<◌, ◌^◌, ◌++◌, OnOk, decimal};
ghost use Rattle.mac_parameters.specs.Parameters.{nanoseconds_a_half_bit};
ghost use Rattle.wave_dump.specs.Values.{code_of_tap, line_of_time, line_of_value, value_of_symbol};

use lists::{List, OutOfMemory};
use mac_parameters::NANOSECONDS_A_HALF_BIT;
use manchester_line::Sym;

/// The most taps of a dump (profile).
pub const MOST_TAPS: usize = 16;

/// Puts a number in decimal at the end of a text.
pub fn add_number(text: &mut List<u8>, number: u64) -> Result<(), OutOfMemory>
    ensures { OnOk result (text.new ≡ text.old ++ decimal number) }
{
    text.extend(itoa::Buffer::new().format(number).as_bytes())
}

/// Puts the line of a half bit's time at the end of a text.
#[tactic(auto, unfolding(crate::specs::Values::line_of_time))]
pub fn add_time(text: &mut List<u8>, t: u64) -> Result<(), OutOfMemory>
    requires { nanoseconds_a_half_bit * t < 2 ^ 64 }
    ensures { OnOk result (text.new ≡ text.old ++ line_of_time t) }
{
    text.extend(b"#")?;
    add_number(text, NANOSECONDS_A_HALF_BIT * t)?;
    text.extend(b"\n")
}

/// A symbol as a value of four states.
fn value_of_symbol(symbol: Sym) -> &'static [u8]
    ensures { result.now ≡ value_of_symbol symbol }
{
    match symbol {
        Sym::Idle => b"z",
        Sym::Hi => b"1",
        Sym::Lo => b"0",
        Sym::Clash => b"x",
    }
}

/// Puts the code by which a dump names the tap with this number, from 0, at the end of a text.
#[tactic(auto, unfolding(crate::specs::Values::code_of_tap))]
pub fn add_code(text: &mut List<u8>, k: usize) -> Result<(), OutOfMemory>
    requires { k < MOST_TAPS }
    ensures { OnOk result (text.new ≡ text.old ++ code_of_tap k) }
{
    text.push(b'!' + k as u8)
}

/// Puts the line of a tap's value at the end of a text.
#[tactic(auto, unfolding(crate::specs::Values::line_of_value))]
pub fn add_value(text: &mut List<u8>, k: usize, symbol: Sym) -> Result<(), OutOfMemory>
    requires { k < MOST_TAPS }
    ensures { OnOk result (text.new ≡ text.old ++ line_of_value k symbol) }
{
    text.extend(value_of_symbol(symbol))?;
    add_code(text, k)?;
    text.extend(b"\n")
}
