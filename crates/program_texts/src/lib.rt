//! The texts that the program writes: fixed ones, lines of faults, names of files, and verdicts.
#![tactic(auto)]

mod texts;
mod verdict;

pub use texts::{
    HELP, NO_QUIET, VERSION, WORDS_FAULT, add_count, add_half_bits, add_number, line_of_fault,
    line_of_load_fault, line_of_output_fault, line_of_range_fault, line_of_read_fault,
    line_of_stopped, line_of_stranger, line_of_tap_fault, line_of_unplanned, name_of_capture,
    name_of_counters, name_of_log, name_of_state,
};
pub use verdict::{add_station, verdict_line};
