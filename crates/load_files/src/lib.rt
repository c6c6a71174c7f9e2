//! Reads the loads of stations from a store of files, in the order of the stations.
#![tactic(auto)]

mod load;
mod loads;
mod stop;

pub use loads::read_loads;
pub use stop::LoadStop;
