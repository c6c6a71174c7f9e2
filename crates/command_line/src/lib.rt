//! What both programs do around the call: the words of the command line, how much of a run is done, and what is said at
//! the end.
#![tactic(auto)]

mod end;
mod given;
mod progress;
mod watch;

pub use end::{ended_by, tell, tell_no_memory};
pub use given::read_words;
pub use progress::Progress;
pub use watch::watched;
