//! The half bits of a picture, and where they lie on it.
ghost use Rattle.std.specs.Prelude.{◌≡◌, ◌<◌, ◌^◌, ◌++◌, OnOk, decimal};
ghost use Rattle.run_picture.specs.Times.{IsWindow, place_of_time, x_of};

use crate::sizes::PLOT_WIDTH;
use lists::{List, OutOfMemory};

/// The half bits from `from` to below `to`, from 0.
#[derive(Clone, Copy)]
pub struct Window {
    pub from: u64,
    pub to: u64,
}

/// Puts a number in decimal at the end of a text.
pub fn add_number(text: &mut List<u8>, number: u64) -> Result<(), OutOfMemory>
    ensures { OnOk result (text.new ≡ text.old ++ decimal number) }
{
    text.extend(itoa::Buffer::new().format(number).as_bytes())
}

/// How far right a half bit lies that isn't before the window.
pub fn x_of(window: Window, t: u64) -> u64
    requires window { IsWindow window }
    requires time { t < 2 ^ 40 }
    ensures { result ≡ x_of window t }
{
    PLOT_WIDTH * t.saturating_sub(window.from) / (window.to - window.from)
}

/// Puts how far right a half bit lies at the end of a text, as a number that is negative before the window.
#[tactic(auto, unfolding(crate::specs::Times::place_of_time))]
pub fn add_place(text: &mut List<u8>, window: Window, t: u64) -> Result<(), OutOfMemory>
    requires window { IsWindow window }
    requires time { t < 2 ^ 40 }
    ensures { OnOk result (text.new ≡ text.old ++ place_of_time window t) }
{
    if t < window.from {
        text.extend(b"-")?;
        return add_number(
            text,
            PLOT_WIDTH * (window.from - t) / (window.to - window.from),
        );
    }
    add_number(text, x_of(window, t))
}
