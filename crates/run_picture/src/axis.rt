//! The axis of times, and the lanes with their names.
ghost use Rattle.std.specs.Prelude.{◌≡◌, ◌≤◌, ◌<◌, ◌^◌, ◌*◌, ◌++◌, List, true, OnOk, nat_le};
ghost use Rattle.std.specs.List.{list_all};
ghost use Rattle.run_picture.specs.Axis.{axis, first_step, microseconds, tick, tick_at, tick_step, words_of_axis};
ghost use Rattle.run_picture.specs.Times.{IsWindow};

use crate::pieces::Piece::{Number, Word};
use crate::pieces::add_pieces;
use crate::sizes::{
    HALF_BITS_A_MICROSECOND, HALF_BITS_A_TENTH, HUNDRED_MICROSECONDS, LONGEST_STEP, MOST_STEPS,
};
use crate::window::{Window, add_number, x_of};
use lists::{List, OutOfMemory};

/// The first of these steps of which so many half bits have at most `MOST_STEPS`, and where there is none, the longest.
fn first_step(steps: &[u64], width: u64) -> u64
    requires { list_all (λ step. nat_le 1 step) steps.now ≡ true }
    ensures step { result ≡ first_step steps.now width }
    ensures some { 1 ≤ result }
{
    for step in steps {
        if width.saturating_sub(1) / MOST_STEPS < *step {
            return *step;
        }
    }
    LONGEST_STEP
}

/// The half bits from tick to tick of a window with so many half bits.
fn tick_step(width: u64) -> u64
    ensures step { result ≡ tick_step width }
    ensures some { 1 ≤ result }
{
    let short_steps = [
        2,
        4,
        10,
        20,
        40,
        100,
        200,
        400,
        1000,
        HUNDRED_MICROSECONDS,
        4000,
        10_000,
        20_000,
        40_000,
    ];
    first_step(&short_steps, width)
}

/// Puts a half bit's microseconds at the end of a text: the whole ones, and the tenths where they aren't 0.
#[tactic(auto, unfolding(crate::specs::Axis::microseconds))]
fn add_microseconds(text: &mut List<u8>, t: u64) -> Result<(), OutOfMemory>
    ensures { OnOk result (text.new ≡ text.old ++ microseconds t) }
{
    add_number(text, t / HALF_BITS_A_MICROSECOND)?;
    let rest = t % HALF_BITS_A_MICROSECOND;
    if rest == 0 {
        return Ok(());
    }
    text.extend(b".")?;
    add_number(text, rest / HALF_BITS_A_TENTH)
}

/// Puts a tick of the axis at the end of a text: its line down the picture, its microseconds and its half bits.
#[tactic(auto, unfolding(crate::specs::Axis::tick))]
fn add_tick(text: &mut List<u8>, window: Window, height: u64, t: u64) -> Result<(), OutOfMemory>
    requires window { IsWindow window }
    requires time { t < 2 ^ 40 }
    ensures { OnOk result (text.new ≡ text.old ++ tick window height t) }
{
    let x = x_of(window, t);
    add_pieces(
        text,
        &[
            Word(b"<path class='line' d='M"),
            Number(x),
            Word(b" 7700V"),
            Number(height),
            Word(b"'/><text class='tick' x='"),
            Number(x),
            Word(b"' y='5700'>"),
        ],
    )?;
    add_microseconds(text, t)?;
    add_pieces(
        text,
        &[
            Word(b"</text><text class='tick' x='"),
            Number(x),
            Word(b"' y='7200'>"),
            Number(t),
            Word(b"</text>\n"),
        ],
    )
}

/// Puts the tick of a half bit at the end of a text, if it has one.
fn add_tick_at(
    text: &mut List<u8>,
    window: Window,
    height: u64,
    step: u64,
    t: u64,
) -> Result<(), OutOfMemory>
    requires window { IsWindow window }
    requires time { t < 2 ^ 40 }
    requires step { 1 ≤ step }
    ensures { OnOk result (text.new ≡ text.old ++ tick_at window height step t) }
{
    if t % step == 0 {
        return add_tick(text, window, height, t);
    }
    Ok(())
}

/// Puts the words of the axis at the end of a text.
#[tactic(auto, unfolding(crate::specs::Axis::words_of_axis))]
fn add_words_of_axis(text: &mut List<u8>) -> Result<(), OutOfMemory>
    ensures { OnOk result (text.new ≡ text.old ++ words_of_axis) }
{
    add_pieces(
        text,
        &[
            Word(b"<text class='axis' x='-5200' y='5700'>microseconds</text>"),
            Word(b"<text class='axis' x='-5200' y='7200'>half bits</text>"),
            Word(b"<text class='axis' x='-600' y='8600'>place</text>\n"),
        ],
    )
}

/// Puts the axis at the end of a text.
pub fn add_axis(text: &mut List<u8>, window: Window, height: u64) -> Result<(), OutOfMemory>
    requires { IsWindow window }
    ensures { OnOk result (text.new ≡ text.old ++ axis window height) }
{
    add_words_of_axis(text)?;
    let step = tick_step(window.to - window.from);
    'ticks: for t in window.from..window.to + 1 {
        add_tick_at(text, window, height, step, t)?;
    }
    Ok(())
}
