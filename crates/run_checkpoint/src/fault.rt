//! What can be wrong with the text of a state.
ghost use Rattle.std.specs.Prelude.{◌≡◌, ◌++◌, IfOk, OnOk, decimal};
ghost use Rattle.run_checkpoint.specs.Faults.{line_of_state_with};

use lists::{List, OutOfMemory};
use std::alloc::Global;

/// The first fault of the text of a state. Lines are numbered from 1.
#[derive(Clone, Copy)]
pub enum StateFault {
    /// There are more than 268,435,456 octets.
    TooLarge,
    /// A line isn't of the form that is due there, lacks its line feed, is missing, or follows the last one.
    BadLine { line: u32 },
    /// The values of a line break a rule.
    BadValue { line: u32 },
    /// An allocation was refused.
    OutOfMemory,
}

impl StateFault {
    ghost use Rattle.std.specs.Prelude.{◌≡◌};
    ghost use Rattle.run_checkpoint.specs.Faults.{code_of_state_fault, line_of_state_fault, name_of_state_fault};

    /// The fault's code, from 1.
    pub fn code(&self) -> u32
        ensures { result ≡ code_of_state_fault self.now }
    {
        match self {
            StateFault::TooLarge => 1,
            StateFault::BadLine { .. } => 2,
            StateFault::BadValue { .. } => 3,
            StateFault::OutOfMemory => 4,
        }
    }

    /// The fault's name as it is printed.
    pub fn name(&self) -> &'static str
        ensures { result.now ≡ name_of_state_fault self.now }
    {
        match self {
            StateFault::TooLarge => "TooLarge",
            StateFault::BadLine { .. } => "BadLine",
            StateFault::BadValue { .. } => "BadValue",
            StateFault::OutOfMemory => "OutOfMemory",
        }
    }

    /// The number of the line that the fault is in, from 1, and 0 where it is in none.
    pub fn line(&self) -> u32
        ensures { result ≡ line_of_state_fault self.now }
    {
        match self {
            StateFault::BadLine { line } | StateFault::BadValue { line } => *line,
            _ => 0,
        }
    }
}

impl From<OutOfMemory> for StateFault {
    ghost use Rattle.std.specs.Prelude.{◌≡◌};
    ghost use Rattle.run_checkpoint.specs.declared.fault.StateFault.TheVariants as fault;

    ghost from_gives = { λ _ f. f ≡ fault.OutOfMemory };

    fn from(_: OutOfMemory) -> Self {
        StateFault::OutOfMemory
    }
}

/// Puts a word and a number at the end of a text.
pub fn add_figure(text: &mut List<u8>, word: &[u8], number: u64) -> Result<(), OutOfMemory>
    ensures { OnOk result (text.new ≡ text.old ++ word.now ++ decimal number) }
{
    text.extend(word)?;
    text.extend(itoa::Buffer::new().format(number).as_bytes())
}

/// What is said of the text of a state with this fault: `state fault C NAME line N`.
pub fn state_fault_text(alloc: Global, fault: &StateFault) -> Result<List<u8>, OutOfMemory>
    ensures { IfOk result (λ line. line ≡ line_of_state_with fault.now) }
{
    let mut line = List::new(alloc);
    add_figure(&mut line, b"state fault ", u64::from(fault.code()))?;
    line.extend(b" ")?;
    line.extend(fault.name().as_bytes())?;
    add_figure(&mut line, b" line ", u64::from(fault.line()))?;
    line.extend(b"\n")?;
    Ok(line)
}
