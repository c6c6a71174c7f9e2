//! The nearest of known words.

use crate::message::Message;
use crate::rows::word_of;
use lists::OutOfMemory;
use std::alloc::Global;
use strsim::levenshtein;
use toml::Value;

/// No edits at all lead from words of more octets to another.
const MOST_COMPARED: usize = 64;

/// The most edits between a word and what was meant by it.
const MOST_EDITS: usize = 2;

/// The nearest word so far, and how many edits lead to it.
#[derive(Drop)]
pub struct Nearest<'a> {
    alloc: Global,
    word: &'a str,
    found: Option<&'a str>,
    edits: usize,
}

impl<'a> Nearest<'a> {
    /// No word yet. One that is no shorter than the number of its edits counts.
    pub fn new(alloc: Global, word: &'a str) -> Nearest<'a> {
        let edits = MOST_EDITS
            .min(word.len().saturating_sub(1))
            .saturating_add(1);
        Nearest {
            alloc,
            word,
            found: None,
            edits,
        }
    }

    /// Takes a known word into account: of equally near ones the first stays.
    pub fn take(&mut self, known: &'a str) -> Result<(), OutOfMemory> {
        if self.word.len() > MOST_COMPARED || known.len() > MOST_COMPARED {
            return Ok(());
        }
        let edits = levenshtein(self.alloc, self.word, known)?;
        if edits < self.edits {
            self.edits = edits;
            self.found = Some(known);
        }
        Ok(())
    }

    pub fn found(&self) -> Option<&'a str> {
        self.found
    }
}

/// The nearest of words with blanks between them.
pub fn nearest_in<'a>(out: &mut Message, words: &'a str, word: &'a str) -> Option<&'a str> {
    let mut nearest = Nearest::new(out.alloc, word);
    for known in words.split_whitespace() {
        let done = nearest.take(known);
        out.note(done);
    }
    nearest.found()
}

/// Takes the names of rows into account.
pub fn take_names<'a>(out: &mut Message, nearest: &mut Nearest<'a>, rows: &'a [Value]) {
    for row in rows {
        if let Some(name) = word_of(row, "name") {
            let done = nearest.take(name);
            out.note(done);
        }
    }
}

/// Goes on after a name that nothing has: what may have been meant.
pub fn tell_nearest(out: &mut Message, found: Option<&str>) {
    if let Some(name) = found {
        out.add(": did you mean ");
        out.show_word(name);
        out.add("?");
    }
}
