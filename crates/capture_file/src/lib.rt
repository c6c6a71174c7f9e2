//! Captures: files of frames with their times, in the form that `tcpdump` and Wireshark call pcap, version 2.4.
#![tactic(auto)]

mod entries;
mod fault;
mod form;
pub mod laws;
mod reader;
mod reading;
mod writer;

pub use entries::{FrameOctets, Record, Records};
pub use fault::CaptureFault;
pub use lists::OutOfMemory;
pub use reader::{CaptureReader, read_capture};
pub use writer::CaptureWriter;
