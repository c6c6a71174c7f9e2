//! What a run was asked, and how it ended.

use lists::Text;

/// How a run ended: the help's text, the words, the status, and a front of what was said on standard output.
#[derive(Clone, Copy)]
pub struct Ended<'a> {
    pub help: &'a str,
    pub words: &'a [Text],
    pub status: u8,
    pub said: &'a str,
}

/// The word at a place, or the empty one.
pub fn word_at<'a>(words: &'a [Text], place: usize) -> &'a str {
    match words.get(place) {
        Some(word) => word.as_str(),
        None => "",
    }
}

/// A text, or the empty one.
pub fn or_empty(text: Option<&str>) -> &str {
    match text {
        Some(text) => text,
        None => "",
    }
}

/// The word of a line after the first that is as given.
pub fn after<'a>(line: &'a str, word: &str) -> Option<&'a str> {
    let mut found = false;
    for known in line.split_whitespace() {
        if found {
            return Some(known);
        }
        found = known == word;
    }
    None
}

/// Whether a word is some digits and nothing else.
pub fn are_digits(word: &str) -> bool {
    !word.is_empty() && word.bytes().all(|octet| octet.is_ascii_digit())
}
