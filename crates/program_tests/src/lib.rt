//! Tests of the top call over stores and sinks in memory, of which a call fails.
#![tactic(auto)]

#[cfg(test)]
mod blocks;
#[cfg(test)]
mod calls;
#[cfg(test)]
mod failing;
