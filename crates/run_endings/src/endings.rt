//! How a call ends.
ghost use Rattle.std.specs.Prelude.{◌≡◌};

use lists::OutOfMemory;

/// How a call ends.
#[derive(Clone, Copy)]
pub enum Ending {
    /// All is done.
    Done,
    /// The words are none of the forms.
    Words,
    /// The layout has a fault.
    Layout,
    /// A load has a fault.
    Load,
    /// A file to be read isn't held, or a read failed.
    Read,
    /// A write failed.
    Write,
    /// An allocation was refused.
    Memory,
    /// A probe has a tap that the layout hasn't, or ends after the run.
    Probe,
    /// A log has a fault.
    Log,
    /// A line of a log names what the layout lacks.
    Stranger,
    /// No half bit of the run at or after the one that was asked for is quiet.
    Unquiet,
    /// The state of a prefix has a fault.
    State,
    /// A file to be written has the name of a file that is read.
    Output,
}

impl Ending {
    ghost use Rattle.run_endings.specs.Answers.{ending_of, status_of};

    /// How a call ends of which this came.
    pub fn of(done: Result<(), Ending>) -> Ending
        ensures { result ≡ ending_of done }
    {
        match done {
            Ok(()) => Ending::Done,
            Err(ending) => ending,
        }
    }

    /// The program's status.
    pub fn status(self) -> u8
        ensures { result ≡ status_of self }
    {
        match self {
            Ending::Done => 0,
            Ending::Words => 1,
            Ending::Layout => 2,
            Ending::Load => 3,
            Ending::Read => 4,
            Ending::Write => 5,
            Ending::Memory => 6,
            Ending::Probe => 7,
            Ending::Log => 8,
            Ending::Unquiet => 9,
            Ending::State => 10,
            Ending::Stranger => 11,
            Ending::Output => 12,
        }
    }
}

impl From<OutOfMemory> for Ending {
    ghost use Rattle.std.specs.Prelude.{◌≡◌};
    ghost use Rattle.run_endings.specs.declared.endings.Ending.TheVariants as ending;

    ghost from_gives = { λ _ e. e ≡ ending.Memory };

    fn from(_: OutOfMemory) -> Self {
        Ending::Memory
    }
}
