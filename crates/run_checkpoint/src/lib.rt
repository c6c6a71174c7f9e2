//! The text of a network's state, from which a run can go on, and the reading of it (profile).
#![tactic(auto)]

mod entries_read;
mod fault;
mod fields;
mod guard_line;
pub mod laws;
mod octets_line;
mod places;
mod ranges;
mod reading;
mod row_line;
mod row_order;
mod sender_line;
mod states_read;
mod text_line;
mod told;
mod waiting;
mod writing;

pub use fault::{StateFault, state_fault_text};
pub use guard_line::{GuardLine, guard_of};
pub use lists::OutOfMemory;
pub use octets_line::octets_of;
pub use ranges::{is_guard_in, is_sender_in};
pub use reading::{MOST_STATE_OCTETS, read_state};
pub use row_line::{is_end_line, row_of};
pub use sender_line::{DeferLine, SenderLine, sender_of, time_of};
pub use writing::state_text;
