//! Frames of Ethernet with pad and frame check sequence, the judgement of received ones, and queues of
//! frames that wait to be sent.
#![tactic(auto)]

mod check_sequence;
mod frame;
mod queue;
mod verdict;

pub use check_sequence::fcs;
pub use frame::{Frame, FrameFault, build, build_up_to};
pub use queue::{Queue, Ready};
pub use verdict::{Verdict, judge, judge_up_to};
