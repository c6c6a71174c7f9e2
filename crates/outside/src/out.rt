//! The standard output: the edge that no contract sees beyond.
ghost use Rattle.std.specs.Prelude.{◌≡◌};
ghost use Rattle.outside.specs.Folder.{faults_of};

use crate::failure::{Act, Failure};
use crate::{Sink, SinkFail};
use lists::List;
use std::alloc::Global;

/// How many octets of what is said are kept.
const MOST_KEPT: usize = 4_096;

/// The standard output. It tells no content to a contract, but keeps a front of what it was given, and what failed
/// first. One call of the system writes; how much went is the answer, and the caller goes on.
#[derive(Drop)]
pub struct OutSink<R: Print + Drop> {
    rt: R,
    faults: u64,
    said: List<u8>,
    first: Option<Failure>,
}

impl<R: Print + Drop> OutSink<R> {
    /// The standard output of the runtime, with no fault so far.
    pub fn new(rt: R, alloc: Global) -> OutSink<R>
        ensures { faults_of result ≡ 0 }
    {
        OutSink {
            rt,
            faults: 0,
            said: List::new(alloc),
            first: None,
        }
    }

    /// The first write that failed.
    pub fn take_failure(&mut self) -> Option<Failure>
        ensures { faults_of self.new ≡ faults_of self.old }
    {
        self.first.take()
    }

    /// A front of what was written, with the piece whose write failed first.
    pub fn said(&self) -> &[u8] {
        self.said.as_slice()
    }
}

/// Keeps a piece where there is room and memory for it.
fn keep_piece(said: &mut List<u8>, piece: &[u8]) {
    let room = MOST_KEPT.saturating_sub(said.len());
    let kept = piece.get(..room).unwrap_or(piece);
    let _ = said.extend(kept);
}

impl<R: Print + Drop> Sink for OutSink<R> {
    ghost use Rattle.std.specs.Prelude.{None};

    ghost written = { λ _. None };

    ghost faults = { λ s. s.faults };

    ghost refused = { λ s. s.faults };

    fn write(&mut self, bytes: &[u8]) -> Result<usize, SinkFail> {
        let error = match self.rt.write_some(bytes) {
            Ok(count) if count > 0 || bytes.is_empty() => {
                keep_piece(&mut self.said, bytes.get(..count).unwrap_or(bytes));
                return Ok(count);
            }
            Ok(_) => None,
            Err(error) => Some(error),
        };
        if self.first.is_none() {
            keep_piece(&mut self.said, bytes);
            self.first = Some(Failure {
                act: Act::Say,
                name: None,
                error,
            });
        }
        self.faults = self.faults.saturating_add(1);
        Err(SinkFail::Failed)
    }
}
