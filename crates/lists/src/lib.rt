//! Lists and texts that contracts see as plain lists, and the one answer for want of memory.
#![tactic(auto)]

mod list;
mod memory;
mod text;

pub use list::List;
pub use memory::OutOfMemory;
pub use text::Text;
