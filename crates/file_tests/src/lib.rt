//! Tests of what no command shows: captures and files by pieces, stores, merged logs, the layouts of demo, and layouts
//! that are lengthened.
#![tactic(auto)]

#[cfg(test)]
mod captures;
#[cfg(test)]
mod demos;
#[cfg(test)]
mod logs;
#[cfg(test)]
mod pieces;
#[cfg(test)]
mod slacks;
#[cfg(test)]
mod stores;
