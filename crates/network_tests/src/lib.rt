//! Tests of the windows of layouts, the edges of their parts, the parcels with which a run begins, and the plan of the
//! most sends. Whole networks are stored cases.
#![tactic(auto)]

#[cfg(test)]
mod sends;
#[cfg(test)]
mod windows;
