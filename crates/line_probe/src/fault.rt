//! What can be wrong with a text of runs.
use lists::OutOfMemory;

/// The first fault of a text of runs. Lines are numbered from 1.
#[derive(Clone, Copy, Debug, PartialEq, Eq)]
pub enum RunsFault {
    /// A line is none of a run, or lacks its line feed.
    BadLine { line: u32 },
    /// A run doesn't begin where the one before ends.
    Gap { line: u32 },
    /// A run has the symbol of the one before.
    Same { line: u32 },
    /// An allocation was refused.
    OutOfMemory,
}

impl RunsFault {
    ghost use Rattle.std.specs.Prelude.{◌≡◌};
    ghost use Rattle.line_probe.specs.Faults.{code_of_fault};

    /// The fault's code, from 1.
    pub fn code(&self) -> u32
        ensures { result ≡ code_of_fault self.now }
    {
        match self {
            RunsFault::BadLine { .. } => 1,
            RunsFault::Gap { .. } => 2,
            RunsFault::Same { .. } => 3,
            RunsFault::OutOfMemory => 4,
        }
    }
}

impl From<OutOfMemory> for RunsFault {
    ghost use Rattle.std.specs.Prelude.{◌≡◌};
    ghost use Rattle.line_probe.specs.declared.fault.RunsFault.TheVariants as fault;

    ghost from_gives = { λ _ f. f ≡ fault.OutOfMemory };

    fn from(_: OutOfMemory) -> Self {
        RunsFault::OutOfMemory
    }
}
