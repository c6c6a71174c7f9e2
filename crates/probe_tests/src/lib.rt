//! Tests of runs that are read back from their text, and of the bursts in them. What taps hear, dumps of waves and
//! pictures are stored cases.
#![tactic(auto)]

#[cfg(test)]
mod runs;
