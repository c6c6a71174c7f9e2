//! The receiver of a station, half bit by half bit and by leaps.
#![tactic(auto)]

mod receiver;

pub use receiver::Receiver;
