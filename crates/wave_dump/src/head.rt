//! The head of a dump.
ghost use Rattle.std.specs.Prelude.{◌≡◌, ◌<◌, ◌≤◌, ◌++◌, OnOk, length};
ghost use Rattle.wave_dump.specs.Dump.{head_of_dump, line_of_variable, lines_of_stretch, lines_of_variables};

use crate::values::{MOST_TAPS, add_code, add_number};
use lists::{List, OutOfMemory, Text};
use mac_parameters::NANOSECONDS_A_HALF_BIT;

/// Puts what is told of the dump as a whole at the end of a text.
#[tactic(auto, unfolding(crate::specs::Dump::lines_of_stretch))]
fn add_stretch(text: &mut List<u8>, from: u64, to: u64) -> Result<(), OutOfMemory>
    ensures { OnOk result (text.new ≡ text.old ++ lines_of_stretch from to) }
{
    text.extend(b"$comment netsim: half bits ")?;
    add_number(text, from)?;
    text.extend(b" to ")?;
    add_number(text, to)?;
    text.extend(b", of ")?;
    add_number(text, NANOSECONDS_A_HALF_BIT)?;
    text.extend(b" ns each $end\n")?;
    text.extend(b"$timescale 1 ns $end\n")
}

/// Puts the line that gives a tap its code and its name at the end of a text.
#[tactic(auto, unfolding(crate::specs::Dump::line_of_variable))]
fn add_variable(text: &mut List<u8>, k: usize, name: &Text) -> Result<(), OutOfMemory>
    requires { k < MOST_TAPS }
    ensures { OnOk result (text.new ≡ text.old ++ line_of_variable k name.now) }
{
    text.extend(b"$var wire 1 ")?;
    add_code(text, k)?;
    text.extend(b" ")?;
    text.extend(name.as_str().as_bytes())?;
    text.extend(b" $end\n")
}

/// Puts the lines that give taps their codes and names at the end of a text.
fn add_variables(text: &mut List<u8>, names: &[Text]) -> Result<(), OutOfMemory>
    requires { length names.now ≤ MOST_TAPS }
    ensures { OnOk result (text.new ≡ text.old ++ lines_of_variables 0 names.now) }
{
    'names: for k in 0..names.len() {
        add_variable(text, k, &names[k])?;
    }
    Ok(())
}

/// Puts the head of a dump at the end of a text.
#[tactic(auto, unfolding(crate::specs::Dump::head_of_dump))]
pub fn add_head(text: &mut List<u8>, names: &[Text], from: u64, to: u64) -> Result<(), OutOfMemory>
    requires { length names.now ≤ MOST_TAPS }
    ensures { OnOk result (text.new ≡ text.old ++ head_of_dump names.now from to) }
{
    add_stretch(text, from, to)?;
    text.extend(b"$scope module net $end\n")?;
    add_variables(text, names)?;
    text.extend(b"$upscope $end\n")?;
    text.extend(b"$enddefinitions $end\n")
}
