//! What is wrong with a layout file, told by the file itself, which is read again.
#![tactic(auto)]

mod asked;
mod digits;
mod files;
mod layouts;
mod message;
mod near;
mod places;
mod rows;
mod said;
mod shown;
mod tables;
mod taken;
mod tomls;
mod ways;

pub use asked::{Ended, after, are_digits, or_empty, word_at};
pub use files::{MOST_PIECES, PIECE, read_file};
pub use layouts::{begin, document_of, number_at, tell_layout, tell_unread, text_at};
pub use message::Message;
pub use near::{Nearest, take_names, tell_nearest};
pub use rows::{is_named, row_named, rows_of, word_of};
pub use shown::{show, show_front, show_word};
