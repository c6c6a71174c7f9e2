//! The head of a picture: its size, its style and its patterns.
ghost use Rattle.std.specs.Prelude.{◌≡◌, ◌++◌, OnOk};
ghost use Rattle.run_picture.specs.Head.{head, pattern_of, patterns, style};

use crate::pieces::Piece::{Number, Word};
use crate::pieces::add_pieces;
use lists::{List, OutOfMemory};

/// Puts the pattern that fills the bars of one kind of sendings at the end of a text: its name, the colour of its
/// ground, and the lines on it.
#[tactic(auto, unfolding(crate::specs::Head::pattern_of))]
fn add_pattern<'a>(
    text: &mut List<u8>,
    name: &'a [u8],
    colour: &'a [u8],
    lines: &'a [u8],
) -> Result<(), OutOfMemory>
    ensures { OnOk result (text.new ≡ text.old ++ pattern_of name.now colour.now lines.now) }
{
    add_pieces(
        text,
        &[
            Word(b"<pattern id='"),
            Word(name),
            Word(b"' width='500' height='500' patternUnits='userSpaceOnUse'>"),
            Word(b"<path d='M0 0h500v500h-500z' fill='"),
            Word(colour),
            Word(b"'/>"),
            Word(lines),
            Word(b"</pattern>\n"),
        ],
    )
}

/// Puts the style at the end of a text.
#[tactic(auto, unfolding(crate::specs::Head::style))]
fn add_style(text: &mut List<u8>) -> Result<(), OutOfMemory>
    ensures { OnOk result (text.new ≡ text.old ++ style) }
{
    add_pieces(
        text,
        &[
            Word(
                b"<style>svg{height:auto}text{font-family:sans-serif;font-size:1450px;fill:#222222}",
            ),
            Word(
                b".name,.segment{font-family:monospace}.segment{font-weight:bold}.long{font-size:1000px}",
            ),
            Word(b".name,.place,.axis{text-anchor:end}.place,.word{font-size:1200px;fill:#555555}"),
            Word(b".tick,.axis{font-size:1300px}.tick{text-anchor:middle}"),
            Word(b".lane{stroke:#999999;stroke-width:60}.line{stroke:#dddddd;stroke-width:60}"),
            Word(
                b".wave,.front{fill:none;stroke:#555555;stroke-width:90}.wave{clip-path:url(#plot)}",
            ),
            Word(b".sent{fill:url(#sent);stroke:#1b5e9b;stroke-width:80}"),
            Word(b".collided{fill:url(#collided);stroke:#a02020;stroke-width:80}"),
            Word(b".given_up{fill:url(#given_up);stroke:#4a2070;stroke-width:80}"),
            Word(b".cut{fill:url(#cut);stroke:#444444;stroke-width:80}"),
            Word(
                b".hit{fill:#111111;stroke:#ffffff;stroke-width:60}\
                .received{fill:#2e8b3d;stroke:#ffffff;stroke-width:60}",
            ),
            Word(
                b".dropped{fill:none;stroke:#a02020;stroke-width:200}\
                .clash{fill:#f0a000;stroke:#663c00;stroke-width:70}",
            ),
            Word(b".closed{fill:#111111;stroke:#111111;stroke-width:120}"),
            Word(b".opened{fill:#ffffff;stroke:#111111;stroke-width:120}"),
            Word(b".halted{fill:#8a4fc0;stroke:#111111;stroke-width:100}</style>\n"),
        ],
    )
}

/// Puts the patterns at the end of a text.
#[tactic(auto, unfolding(crate::specs::Head::patterns))]
fn add_patterns(text: &mut List<u8>) -> Result<(), OutOfMemory>
    ensures { OnOk result (text.new ≡ text.old ++ patterns) }
{
    add_pattern(
        text,
        b"sent",
        b"#9ecbee",
        b"<path d='M0 250h500' stroke='#5b9bd0' stroke-width='90'/>",
    )?;
    add_pattern(
        text,
        b"collided",
        b"#f6b3a8",
        b"<path d='M-100 600l700 -700M-100 100l200 -200M400 600l200 -200' stroke='#b02a2a' stroke-width='130'/>",
    )?;
    add_pattern(
        text,
        b"given_up",
        b"#b79ad6",
        b"<path d='M0 0l500 500M0 500l500 -500' stroke='#3c1361' stroke-width='110'/>",
    )?;
    add_pattern(
        text,
        b"cut",
        b"#eeeeee",
        b"<path d='M150 150h200v200h-200z' fill='#555555'/>",
    )
}

/// Puts the head of a picture of this height at the end of a text.
#[tactic(auto, unfolding(crate::specs::Head::head))]
pub fn add_head(text: &mut List<u8>, height: u64) -> Result<(), OutOfMemory>
    ensures { OnOk result (text.new ≡ text.old ++ head height) }
{
    add_pieces(
        text,
        &[
            Word(
                b"<svg xmlns='http://www.w3.org/2000/svg' version='1.1' width='100%' viewBox='-26000 0 133000 ",
            ),
            Number(height),
            Word(b"'>\n"),
        ],
    )?;
    add_style(text)?;
    text.extend(b"<defs>\n")?;
    add_patterns(text)?;
    add_pieces(
        text,
        &[
            Word(b"<clipPath id='plot'><path d='M0 0H100000V"),
            Number(height),
            Word(b"H0z'/></clipPath>\n"),
            Word(b"</defs>\n"),
            Word(b"<path d='M-26000 0h133000v"),
            Number(height),
            Word(b"h-133000z' fill='#ffffff'/>\n"),
        ],
    )
}
