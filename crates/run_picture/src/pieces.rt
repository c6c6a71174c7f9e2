//! Texts that are made of pieces: of words, and of numbers in decimal.
ghost use Rattle.std.specs.Prelude.{◌≡◌, ◌++◌, OnOk};
ghost use Rattle.run_picture.specs.Pieces.{text_of_piece, text_of_pieces};

use crate::window::add_number;
use lists::{List, OutOfMemory};

/// A piece of a text.
#[derive(Clone, Copy)]
pub enum Piece<'a> {
    Word(&'a [u8]),
    Number(u64),
}

/// Puts a piece at the end of a text.
fn add_piece(text: &mut List<u8>, piece: Piece) -> Result<(), OutOfMemory>
    ensures { OnOk result (text.new ≡ text.old ++ text_of_piece piece.entry) }
{
    match piece {
        Piece::Word(octets) => text.extend(octets),
        Piece::Number(n) => add_number(text, n),
    }
}

/// Puts pieces at the end of a text, one after the other.
pub fn add_pieces(text: &mut List<u8>, pieces: &[Piece]) -> Result<(), OutOfMemory>
    ensures { OnOk result (text.new ≡ text.old ++ text_of_pieces pieces.now) }
{
    for piece in pieces {
        add_piece(text, *piece)?;
    }
    Ok(())
}
