//! Reads the log of a run back, and makes figures of it: who got how much of the channel.
#![tactic(auto)]

mod bodies;
mod device_figures;
mod entry;
mod fault;
mod line;
mod log;
mod metering;
mod tallies;
mod tally;
mod texts;

pub use device_figures::{
    Figures, RepeaterFigures, RepeaterList, RepeaterTally, StationFigures, StationList,
    StationTally,
};
pub use fault::{LineFault, LogFault};
pub use line::{LogLine, LogLines, read_line};
pub use lists::OutOfMemory;
pub use log::{MOST_LOG_OCTETS, read_log};
pub use metering::figures;
pub use texts::{figures_text, log_fault_text};
