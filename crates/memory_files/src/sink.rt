//! A sink in memory, some of whose numbered writes fail.
ghost use Rattle.std.specs.Prelude.{◌≡◌, ◌≤◌, [], length, IfOk, is_err, IsErrOf, IsTrue, ◌↔◌};
ghost use Rattle.memory_files.specs.Calls.{no_calls, next_call, is_failing, faults_after};
ghost use Rattle.outside.specs.Files.{written_more, Rose, RoseAtNothing, IsSinkRefusal};
ghost use Rattle.memory_files.specs.Sinks.{octets_of, writes_of, failed_of, refused_of};

use crate::calls::Calls;
use lists::{List, OutOfMemory};
use outside::{Sink, SinkFail};
use std::alloc::Global;

/// A sink that keeps what it gets in memory and tells it.
#[derive(Drop)]
pub struct MemorySink {
    octets: List<u8>,
    writes: Calls,
    faults: u64,
    refused: u64,
}

impl MemorySink {
    /// An empty sink, of whose writes none fails but for memory.
    pub fn new(alloc: Global) -> MemorySink
        ensures octets { octets_of result ≡ [] }
        ensures writes { writes_of result ≡ no_calls [] }
        ensures faults { failed_of result ≡ 0 }
        ensures refused { refused_of result ≡ 0 }
    {
        MemorySink {
            octets: List::new(alloc),
            writes: Calls::new(alloc),
            faults: 0,
            refused: 0,
        }
    }

    /// An empty sink, whose writes of these numbers, counted from 1, fail.
    pub fn with_failing(alloc: Global, writes: &[u32]) -> Result<MemorySink, OutOfMemory>
        ensures octets { IfOk result (λ sink. octets_of sink ≡ []) }
        ensures writes { IfOk result (λ sink. writes_of sink ≡ no_calls writes.now) }
        ensures faults { IfOk result (λ sink. failed_of sink ≡ 0) }
        ensures refused { IfOk result (λ sink. refused_of sink ≡ 0) }
    {
        Ok(MemorySink {
            octets: List::new(alloc),
            writes: Calls::with_failing(alloc, writes)?,
            faults: 0,
            refused: 0,
        })
    }

    /// All the octets that the sink got.
    pub fn bytes(&self) -> &[u8]
        ensures { result.now ≡ octets_of self.now }
    {
        self.octets.as_slice()
    }
}

impl Sink for MemorySink {
    ghost use Rattle.std.specs.Prelude.{Some};

    ghost written = { λ s. Some s.octets };

    ghost faults = { λ s. s.faults };

    ghost refused = { λ s. s.refused };

    /// Takes the whole piece or nothing.
    fn write(&mut self, bytes: &[u8]) -> Result<usize, SinkFail>
        ensures bound { IfOk result (λ n. n ≤ length bytes.now) }
        ensures written { octets_of self.new ≡ written_more bytes.now result (octets_of self.old) }
        ensures faults { failed_of self.old ≤ failed_of self.new }
        ensures refused { refused_of self.old ≤ refused_of self.new }
        ensures failed { IsErrOf result SinkFail.Failed → Rose (failed_of self.old) (failed_of self.new) }
        ensures nothing { RoseAtNothing bytes.now result (failed_of self.old) (failed_of self.new) }
        ensures refusal { IsSinkRefusal bytes.now result → Rose (refused_of self.old) (refused_of self.new) }

        // Exactly the numbered writes fail, and each refusal is counted once.
        ensures whole { IfOk result (λ n. n ≡ length bytes.now) }
        ensures numbered { IsErrOf result SinkFail.Failed ↔ IsTrue (is_failing (writes_of self.new)) }
        ensures writes { writes_of self.new ≡ next_call (writes_of self.old) }
        ensures faults_after { failed_of self.new ≡ faults_after (is_failing (writes_of self.new)) (failed_of self.old) }
        ensures refused_after { refused_of self.new ≡ faults_after (is_err result) (refused_of self.old) }
    {
        if self.writes.next_fails() {
            self.faults = self.faults.saturating_add(1);
            self.refused = self.refused.saturating_add(1);
            return Err(SinkFail::Failed);
        }
        match self.octets.extend(bytes) {
            Ok(()) => Ok(bytes.len()),
            Err(OutOfMemory) => {
                self.refused = self.refused.saturating_add(1);
                Err(SinkFail::OutOfMemory)
            }
        }
    }
}
