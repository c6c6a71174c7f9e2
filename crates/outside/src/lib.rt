//! Files, a sink and a gate as the program sees them, with meanings that a contract can name.
#![tactic(auto)]

mod failure;
mod file;
mod folder;
mod out;
mod reads;
mod store;

pub use failure::{Act, Failure};
pub use file::File;
pub use folder::FolderStore;
pub use out::OutSink;
pub use store::{Gate, OpenGate, Sink, SinkFail, Store, StoreFail};
