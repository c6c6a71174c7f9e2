//! Calls of one kind, some of which fail by their numbers.
ghost use Rattle.std.specs.Prelude.{◌≡◌, [], IfOk};
ghost use Rattle.memory_files.specs.Calls.{next_call, is_failing};

use lists::{List, OutOfMemory};
use std::alloc::Global;

/// The calls of one kind: the numbers of those that fail, counted from 1, and how many were made.
#[derive(Drop)]
pub(crate) struct Calls {
    failing: List<u32>,
    made: u64,
}

impl Calls {
    /// Calls of which none fails.
    pub(crate) fn new(alloc: Global) -> Calls
        ensures failing { result.failing ≡ [] }
        ensures made { result.made ≡ 0 }
    {
        Calls {
            failing: List::new(alloc),
            made: 0,
        }
    }

    /// Calls of which those of these numbers fail.
    pub(crate) fn with_failing(alloc: Global, numbers: &[u32]) -> Result<Calls, OutOfMemory>
        ensures failing { IfOk result (λ calls. calls.failing ≡ numbers.now) }
        ensures made { IfOk result (λ calls. calls.made ≡ 0) }
    {
        let mut failing = List::new(alloc);
        for number in numbers {
            failing.push(*number)?;
        }
        Ok(Calls { failing, made: 0 })
    }

    /// Makes one more call, and says whether it fails.
    pub(crate) fn next_fails(&mut self) -> bool
        ensures next { self.new ≡ next_call self.old }
        ensures fails { result ≡ is_failing self.new }
    {
        self.made = self.made.saturating_add(1);
        let made = self.made;
        self.failing
            .as_slice()
            .iter()
            .any(|number| u64::from(*number) == made)
    }
}
