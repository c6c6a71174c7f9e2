//! What is kept of a call of the system that failed.

use lists::Text;
use std::alloc::Global;
use std::io;

/// What was asked of the system.
#[derive(Clone, Copy)]
pub enum Act {
    Read,
    Write,
    Say,
}

/// A call of the system that failed: what was asked, of which file, and the system's error, where it gave one.
#[derive(Drop)]
pub struct Failure {
    pub act: Act,
    pub name: Option<Text>,
    pub error: Option<io::Error>,
}

impl Failure {
    /// A name that no memory is left for is left out.
    pub(crate) fn of_file(
        alloc: Global,
        act: Act,
        name: &str,
        error: Option<io::Error>,
    ) -> Failure {
        Failure {
            act,
            name: Text::new(alloc, name).ok(),
            error,
        }
    }
}
