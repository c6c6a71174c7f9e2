//! The page of a run: one HTML file that shows what the taps of a network emit in some half bits, and what the log has
//! of them.
#![tactic(auto)]

mod head;
pub mod laws;
mod layout_lines;
mod names;
mod pages;
mod row_lines;
mod signal_lines;
mod tail;

pub use head::HEAD;
pub use lists::OutOfMemory;
pub use pages::page;
pub use tail::TAIL;
