//! What a mode sends in half bits in which it changes by its counts alone.
ghost use Rattle.std.specs.Prelude.{◌≡◌, ◌<◌, ◌≤◌, ℕ, length};
ghost use Rattle.std.specs.Fn.{iterate};
ghost use Rattle.repeater_core.specs.Classes.{texts_after};
ghost use Rattle.repeater_core.specs.Limits.{counts_end, most_calm};
ghost use Rattle.repeater_core.specs.Modes.{next_count, IsMode};
ghost use Rattle.repeater_core.specs.Steady.{mode_on};

use crate::calm::fill_idle;
use crate::limits::JAM_PERIOD;
use crate::modes::{Mode, mode_on, text_for};
use mac_parameters::{FRAGMENT_EXTENSION, PREAMBLE};
use manchester_line::Sym;

/// The count of the half bits of an output after so many more of them.
fn later_count(i: u32, n: u32) -> u32
    requires count { i < counts_end }
    requires few { n ≤ most_calm }
    ensures { result ≡ iterate next_count n i }
{
    if i + n < FRAGMENT_EXTENSION {
        i + n
    } else {
        FRAGMENT_EXTENSION + (i + n - FRAGMENT_EXTENSION) % JAM_PERIOD
    }
}

/// Writes what a mode sends, half bit by half bit, while the port that it repeats hears `heard`; the mode after them.
fn write_each(mode: Mode, heard: &[Sym], sent: &mut [Sym]) -> Mode
    requires sent_len { length sent.old ≡ length heard.now }
    requires modes { (k : ℕ) → k < length heard.now → IsMode (iterate mode_on k mode) }
    ensures mode { result ≡ iterate mode_on (length heard.now) mode }
    ensures sent { sent.new ≡ texts_after mode heard.now }
{
    let mut mode = mode;
    for k in 0..heard.len() {
        mode = mode_on(mode);
        sent[k] = text_for(mode, heard[k]);
    }
    mode
}

/// Writes what a mode sends while the port that it repeats hears `heard`; the mode after that. Past the preamble and
/// start frame delimiter what is sent is what is heard.
pub fn write_texts(mode: Mode, heard: &[Sym], sent: &mut [Sym]) -> Mode
    requires sent_len { length sent.old ≡ length heard.now }
    requires some { 0 < length heard.now }
    requires few { length heard.now ≤ most_calm }
    requires modes { (k : ℕ) → k < length heard.now → IsMode (iterate mode_on k mode) }
    ensures mode { result ≡ iterate mode_on (length heard.now) mode }
    ensures sent { sent.new ≡ texts_after mode heard.now }
{
    match mode {
        Mode::Idle => {
            fill_idle(sent);
            Mode::Idle
        }
        Mode::Repeat { n, i } if i >= PREAMBLE => {
            sent.copy_from_slice(heard);
            Mode::Repeat {
                n,
                i: later_count(i, heard.len() as u32),
            }
        }
        _ => write_each(mode, heard, sent),
    }
}
