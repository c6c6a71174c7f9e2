//! Files and a sink in memory, some of whose numbered calls fail: for tests.
#![tactic(auto)]

mod calls;
mod sink;
mod store;

pub use sink::MemorySink;
pub use store::MemoryStore;
