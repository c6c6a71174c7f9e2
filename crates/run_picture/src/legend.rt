//! The legend of a picture: an entry for each kind of shape that its marks have.
ghost use Rattle.std.specs.Prelude.{◌≡◌, ◌<◌, ◌^◌, ◌++◌, OnOk, length};
ghost use Rattle.std.specs.List.{AllByRecursion};
ghost use Rattle.log_meter.specs.Lines.{IsLogLine};
ghost use Rattle.run_picture.specs.Kinds.{drawn_kinds};
ghost use Rattle.run_picture.specs.Legend.{ending_name, entries, entry, entry_name, entry_shape, entry_x, entry_y, kind_name, kind_path, kind_word, legend, sign_entry, sign_name};

use crate::kinds::{ShapeKind, is_drawn};
use crate::pieces::Piece::{Number, Word};
use crate::pieces::add_pieces;
use crate::signs::{Outcome, Sign, sending_word, sign_path, sign_word};
use crate::sizes::{ENTRIES_A_ROW, ENTRY_HEIGHT, ENTRY_WIDTH};
use crate::window::Window;
use lists::{List, OutOfMemory};
use log_meter::LogLine;

/// The word by which the style names a kind.
fn kind_word(kind: ShapeKind) -> &'static [u8]
    ensures { result.now ≡ kind_word kind }
{
    match kind {
        ShapeKind::Bar(outcome) => sending_word(outcome),
        ShapeKind::Front => b"front",
        ShapeKind::Point(sign) => sign_word(sign),
    }
}

/// What a legend says of how a sending ended.
fn ending_name(outcome: Outcome) -> &'static [u8]
    ensures { result.now ≡ ending_name outcome }
{
    match outcome {
        Outcome::Sent => b"sent",
        Outcome::Collided => b"collided",
        Outcome::GivenUp => b"given up",
        Outcome::Cut => b"cut",
    }
}

/// What a legend says of a sign.
fn sign_name(sign: Sign) -> &'static [u8]
    ensures { result.now ≡ sign_name sign }
{
    match sign {
        Sign::Hit => b"collision heard",
        Sign::Received => b"received",
        Sign::Dropped => b"dropped",
        Sign::Clash => b"clash",
        Sign::Closed => b"port closed",
        Sign::Opened => b"port opened",
        Sign::Halted => b"port halted",
    }
}

/// What a legend says of a kind.
fn kind_name(kind: ShapeKind) -> &'static [u8]
    ensures { result.now ≡ kind_name kind }
{
    match kind {
        ShapeKind::Bar(outcome) => ending_name(outcome),
        ShapeKind::Front => b"wave front",
        ShapeKind::Point(sign) => sign_name(sign),
    }
}

/// The lines of a sign in a legend, where the triangle of a hit stands on its place and not above it.
fn sign_entry(sign: Sign) -> &'static [u8]
    ensures { result.now ≡ sign_entry sign }
{
    match sign {
        Sign::Hit => b"m0 300l-350 -650h700z",
        _ => sign_path(sign),
    }
}

/// The lines of a kind in a legend: a short bar, two fronts from one place, or the sign.
fn kind_path(kind: ShapeKind) -> &'static [u8]
    ensures { result.now ≡ kind_path kind }
{
    match kind {
        ShapeKind::Bar(_) => b"m-1200 -450h2400v900h-2400z",
        ShapeKind::Front => b"m-600 0l1200 -700m-1200 700l1200 700",
        ShapeKind::Point(sign) => sign_entry(sign),
    }
}

/// How far right the shape of the n-th entry stands, from 0.
fn entry_x(n: u64) -> u64
    ensures x { result ≡ entry_x n }
    ensures within { result < 2 ^ 32 }
{
    1_700 + ENTRY_WIDTH * (n % ENTRIES_A_ROW)
}

/// How far down the n-th entry stands, from 0.
fn entry_y(n: u64) -> u64
    requires { n < 2 ^ 32 }
    ensures { result ≡ entry_y n }
{
    1_400 + ENTRY_HEIGHT * (n / ENTRIES_A_ROW)
}

/// Puts the shape of the n-th entry at the end of a text.
#[tactic(auto, unfolding(crate::specs::Legend::entry_shape))]
fn add_entry_shape(text: &mut List<u8>, n: u64, kind: ShapeKind) -> Result<(), OutOfMemory>
    requires { n < 2 ^ 32 }
    ensures { OnOk result (text.new ≡ text.old ++ entry_shape n kind) }
{
    add_pieces(
        text,
        &[
            Word(b"<path class='"),
            Word(kind_word(kind)),
            Word(b"' d='M-26000 0m"),
            Number(entry_x(n)),
            Word(b" "),
            Number(entry_y(n)),
            Word(kind_path(kind)),
            Word(b"'/>"),
        ],
    )
}

/// Puts what stands beside the shape of the n-th entry at the end of a text.
#[tactic(auto, unfolding(crate::specs::Legend::entry_name))]
fn add_entry_name(text: &mut List<u8>, n: u64, kind: ShapeKind) -> Result<(), OutOfMemory>
    requires { n < 2 ^ 32 }
    ensures { OnOk result (text.new ≡ text.old ++ entry_name n kind) }
{
    add_pieces(
        text,
        &[
            Word(b"<text x='-26000' dx='"),
            Number(entry_x(n) + 1_700),
            Word(b"' y='"),
            Number(entry_y(n)),
            Word(b"' dy='500'>"),
            Word(kind_name(kind)),
            Word(b"</text>\n"),
        ],
    )
}

/// Puts the n-th entry at the end of a text.
fn add_entry(text: &mut List<u8>, n: u64, kind: ShapeKind) -> Result<(), OutOfMemory>
    requires { n < 2 ^ 32 }
    ensures { OnOk result (text.new ≡ text.old ++ entry n kind) }
{
    add_entry_shape(text, n, kind)?;
    add_entry_name(text, n, kind)
}

/// Puts an entry for each of these kinds of which a picture of the lines has a shape at the end of a text.
fn add_entries(
    text: &mut List<u8>,
    window: Window,
    lines: &[LogLine],
    kinds: &[ShapeKind],
) -> Result<(), OutOfMemory>
    requires lines { AllByRecursion IsLogLine lines.now }
    requires few { length kinds.now < 2 ^ 32 }
    ensures { OnOk result (text.new ≡ text.old ++ entries 0 (drawn_kinds window lines.now kinds.now)) }
{
    let mut n = 0;
    for kind in kinds {
        if is_drawn(window, lines, *kind) {
            add_entry(text, n, *kind)?;
            n += 1;
        }
    }
    Ok(())
}

/// Puts the legend of a picture of these lines at the end of a text.
pub fn add_legend(text: &mut List<u8>, window: Window, lines: &[LogLine]) -> Result<(), OutOfMemory>
    requires { AllByRecursion IsLogLine lines.now }
    ensures { OnOk result (text.new ≡ text.old ++ legend window lines.now) }
{
    let kinds = [
        ShapeKind::Bar(Outcome::Sent),
        ShapeKind::Bar(Outcome::Collided),
        ShapeKind::Bar(Outcome::GivenUp),
        ShapeKind::Bar(Outcome::Cut),
        ShapeKind::Front,
        ShapeKind::Point(Sign::Hit),
        ShapeKind::Point(Sign::Received),
        ShapeKind::Point(Sign::Dropped),
        ShapeKind::Point(Sign::Clash),
        ShapeKind::Point(Sign::Closed),
        ShapeKind::Point(Sign::Opened),
        ShapeKind::Point(Sign::Halted),
    ];
    add_entries(text, window, lines, &kinds)
}
