//! Signs of what happens in one half bit, and the bars of sendings.
ghost use Rattle.std.specs.Prelude.{◌≡◌, ◌<◌, ◌^◌, ◌++◌, OnOk};
ghost use Rattle.run_picture.specs.Signs.{bar, left_of_bar, right_of_bar, sign, sign_path, sign_word, sending_word};
ghost use Rattle.run_picture.specs.Times.{IsWindow};

use crate::pieces::Piece::{Number, Word};
use crate::pieces::add_pieces;
use crate::window::{Window, x_of};
use lists::{List, OutOfMemory};

/// What a sign stands for.
#[derive(Clone, Copy)]
pub enum Sign {
    Hit,
    Received,
    Dropped,
    Clash,
    Closed,
    Opened,
    Halted,
}

/// How a sending ended.
#[derive(Clone, Copy)]
pub enum Outcome {
    Sent,
    Collided,
    GivenUp,
    Cut,
}

/// The word by which the style names a sign.
pub fn sign_word(sign: Sign) -> &'static [u8]
    ensures { result.now ≡ sign_word sign }
{
    match sign {
        Sign::Hit => b"hit",
        Sign::Received => b"received",
        Sign::Dropped => b"dropped",
        Sign::Clash => b"clash",
        Sign::Closed => b"closed",
        Sign::Opened => b"opened",
        Sign::Halted => b"halted",
    }
}

/// The lines of a sign, from its place on.
pub fn sign_path(sign: Sign) -> &'static [u8]
    ensures { result.now ≡ sign_path sign }
{
    match sign {
        Sign::Hit => b"m0 -450l-350 -650h700z",
        Sign::Received => b"m-380 0a380 380 0 1 0 760 0a380 380 0 1 0 -760 0z",
        Sign::Dropped => b"m-350 -350l700 700m0 -700l-700 700",
        Sign::Clash => {
            b"m0 -700l170 480h500l-400 300l150 490l-420 -290l-420 290l150 -490l-400 -300h500z"
        }
        Sign::Closed | Sign::Opened => b"m-330 -330h660v660h-660z",
        Sign::Halted => b"m0 -500l500 500l-500 500l-500 -500z",
    }
}

/// Puts the sign of what happens in a half bit on a lane at the end of a text.
#[tactic(auto, unfolding(crate::specs::Signs::sign))]
pub fn add_sign(
    text: &mut List<u8>,
    window: Window,
    mark: Sign,
    t: u64,
    y: u64,
) -> Result<(), OutOfMemory>
    requires window { IsWindow window }
    requires time { t < 2 ^ 40 }
    ensures { OnOk result (text.new ≡ text.old ++ sign window mark t y) }
{
    add_pieces(
        text,
        &[
            Word(b"<path class='"),
            Word(sign_word(mark)),
            Word(b"' d='M"),
            Number(x_of(window, t)),
            Word(b" "),
            Number(y),
            Word(sign_path(mark)),
            Word(b"'/>"),
        ],
    )
}

/// The word by which the style names how a sending ended.
pub fn sending_word(outcome: Outcome) -> &'static [u8]
    ensures { result.now ≡ sending_word outcome }
{
    match outcome {
        Outcome::Sent => b"sent",
        Outcome::Collided => b"collided",
        Outcome::GivenUp => b"given_up",
        Outcome::Cut => b"cut",
    }
}

/// Where the bar of a sending begins, which is cut at the window's edge.
fn left_of_bar(window: Window, start: u64) -> u64
    requires window { IsWindow window }
    requires start { start < 2 ^ 40 }
    ensures { result ≡ left_of_bar window start }
{
    x_of(window, start.max(window.from))
}

/// Where the bar of a sending ends, which is cut at the window's edge.
fn right_of_bar(window: Window, end: u64) -> u64
    requires window { IsWindow window }
    requires end { end < 2 ^ 40 }
    ensures { result ≡ right_of_bar window end }
{
    x_of(window, end.min(window.to))
}

/// Puts the bar of a sending from one half bit to below another, cut at the window's edges, at the end of a text.
#[tactic(auto, unfolding(crate::specs::Signs::bar))]
pub fn add_bar(
    text: &mut List<u8>,
    window: Window,
    outcome: Outcome,
    start: u64,
    end: u64,
    y: u64,
) -> Result<(), OutOfMemory>
    requires window { IsWindow window }
    requires start { start < 2 ^ 40 }
    requires end { end < 2 ^ 40 }
    ensures { OnOk result (text.new ≡ text.old ++ bar window outcome start end y) }
{
    let left = left_of_bar(window, start);
    let right = right_of_bar(window, end);
    add_pieces(
        text,
        &[
            Word(b"<path class='"),
            Word(sending_word(outcome)),
            Word(b"' d='M"),
            Number(left),
            Word(b" "),
            Number(y),
            Word(b"m0 -450H"),
            Number(right),
            Word(b"v900H"),
            Number(left),
            Word(b"z'/>"),
        ],
    )
}
