//! A line under way, written without memory.
ghost use Rattle.std.specs.Prelude.{◌≡◌, ◌≤◌, ◌<◌, ◌^◌, ◌+◌, ◌∷◌, [], ◌++◌, length, decimal, take, drop};

use itoa::Buffer;
use std::marker::Model;

/// The octets that a line has room for.
const ROOM: usize = 800;

/// A line under way, which a contract sees as its octets.
#[derive(Drop)]
pub struct LineText {
    octets: [u8; ROOM],
    len: usize,
}

impl Model for LineText {
    ghost use Rattle.std.specs.Prelude.{List, ℕ, take, ◌≤◌};

    ghost Value = { List ℕ };

    ghost view = { λ l. take l.len l.octets };

    ghost invariant = { λ l. l.len ≤ 800 };
}

impl LineText {
    /// The empty line.
    pub fn new() -> LineText
        ensures { result ≡ [] }
    {
        LineText {
            octets: [0; ROOM],
            len: 0,
        }
    }

    /// Puts a text at the end.
    pub fn text(&mut self, text: &[u8])
        requires { length self.old + length text.now ≤ 800 }
        ensures { self.new ≡ self.old ++ text.now }
    {
        let end = self.len + text.len();
        self.octets[self.len..end].copy_from_slice(text);
        self.len = end;
    }

    /// Puts a number at the end, in decimal digits.
    pub fn number(&mut self, number: u64)
        requires { length self.old + 20 ≤ 800 }
        ensures text { self.new ≡ self.old ++ decimal number }
        ensures short { length self.new ≤ length self.old + 20 }
        ensures u32 { number < 2 ^ 32 → length self.new ≤ length self.old + 10 }
    {
        let mut buffer = Buffer::new();
        self.text(buffer.format(number).as_bytes());
    }

    /// Puts a word and a number at the end.
    pub fn field(&mut self, word: &[u8], number: u64)
        requires { length self.old + length word.now + 20 ≤ 800 }
        ensures text { self.new ≡ self.old ++ word.now ++ decimal number }
        ensures short { length self.new ≤ length self.old + length word.now + 20 }
        ensures u32 { number < 2 ^ 32 → length self.new ≤ length self.old + length word.now + 10 }
    {
        self.text(word);
        self.number(number);
    }

    /// Puts the line at the front of a room, leaves the rest of it, and answers the line's length.
    pub fn copy_to(&self, out: &mut [u8]) -> usize
        requires { length self.now ≤ length out.old }
        ensures len { result ≡ length self.now }
        ensures front { take result out.new ≡ self.now }
        ensures rest { drop result out.new ≡ drop result out.old }
    {
        out[..self.len].copy_from_slice(&self.octets[..self.len]);
        self.len
    }
}
