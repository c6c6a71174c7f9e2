//! Rows of the collision log with their texts, the counters of devices, and logs merged in order of time.
#![tactic(auto)]

mod counters;
mod line;
mod merged;
mod row;
mod texts;

pub use counters::{Counters, counters_text};
pub use merged::merge;
pub use row::{Body, Row, Rows, RowsList, Why};
pub use texts::row_text;
