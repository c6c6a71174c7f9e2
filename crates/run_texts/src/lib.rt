//! The texts of a run: its log, the counters of its devices and their sums, and the captures of its stations.
//! `laws` says that a run's rows and captures can be written so.
#![tactic(auto)]

mod captures;
mod counts;
pub mod laws;
mod log;
mod names;
mod totals;

pub use captures::pcap_of;
pub use counts::counters_of_rows;
pub use log::log_of_rows;
pub use totals::{Sums, totals_of_rows};
