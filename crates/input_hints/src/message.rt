//! A message that is put together piece by piece.

use crate::shown::{show, show_word};
use lists::OutOfMemory;
use std::alloc::Global;

/// The text so far, and whether memory ran out for a piece of it.
#[derive(Drop)]
pub struct Message {
    pub alloc: Global,
    text: String,
    is_cut: bool,
}

impl Message {
    pub fn new(alloc: Global) -> Message {
        Message {
            alloc,
            text: String::new(alloc),
            is_cut: false,
        }
    }

    /// Remembers where memory ran out.
    pub fn note(&mut self, done: Result<(), OutOfMemory>) {
        if done.is_err() {
            self.is_cut = true;
        }
    }

    pub fn add(&mut self, piece: &str) {
        if self.text.push_str(piece).is_err() {
            self.is_cut = true;
        }
    }

    pub fn add_number(&mut self, number: u64) {
        let text = &mut self.text;
        if write!(text, "{number}").is_err() {
            self.is_cut = true;
        }
    }

    /// Adds a number that may be below 0.
    pub fn add_signed(&mut self, number: i64) {
        let text = &mut self.text;
        if write!(text, "{number}").is_err() {
            self.is_cut = true;
        }
    }

    pub fn show(&mut self, text: &str) {
        let done = show(&mut self.text, text);
        self.note(done);
    }

    /// Adds two hexadecimal digits.
    pub fn add_octet(&mut self, octet: u8) {
        let text = &mut self.text;
        if write!(text, "{octet:02x}").is_err() {
            self.is_cut = true;
        }
    }

    pub fn show_word(&mut self, word: &str) {
        let done = show_word(&mut self.text, word);
        self.note(done);
    }

    /// Puts the message at the end of a text, unless a piece of it is missing.
    pub fn put_into(&self, out: &mut String) -> Result<(), OutOfMemory> {
        if self.is_cut {
            return Err(OutOfMemory);
        }
        out.push_str(self.text.as_str())?;
        Ok(())
    }
}
