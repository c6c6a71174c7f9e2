//! What can be wrong with a line and with a log.
use lists::OutOfMemory;

/// The fault of a line.
#[derive(Clone, Copy)]
pub enum LineFault {
    /// The octets are no line of a log.
    Bad,
    /// An allocation was refused.
    OutOfMemory,
}

impl LineFault {
    ghost use Rattle.std.specs.Prelude.{◌≡◌};
    ghost use Rattle.log_meter.specs.Faults.{code_of_line_fault};

    /// The fault's code, from 1.
    pub fn code(&self) -> u32
        ensures { result ≡ code_of_line_fault self.now }
    {
        match self {
            LineFault::Bad => 1,
            LineFault::OutOfMemory => 2,
        }
    }
}

impl From<OutOfMemory> for LineFault {
    ghost use Rattle.std.specs.Prelude.{◌≡◌};
    ghost use Rattle.log_meter.specs.declared.fault.LineFault.TheVariants as fault;

    ghost from_gives = { λ _ f. f ≡ fault.OutOfMemory };

    fn from(_: OutOfMemory) -> Self {
        LineFault::OutOfMemory
    }
}

/// The first fault of a log. Lines are numbered from 1.
#[derive(Clone, Copy)]
pub enum LogFault {
    /// There are more than 268,435,456 octets.
    TooLarge,
    /// A line is none of a log, or lacks its line feed.
    BadLine { line: u32 },
    /// A line is of an earlier half bit than the line before.
    Order { line: u32 },
    /// An allocation was refused.
    OutOfMemory,
}

impl LogFault {
    ghost use Rattle.std.specs.Prelude.{◌≡◌};
    ghost use Rattle.log_meter.specs.Faults.{code_of_log_fault, line_of_log_fault, name_of_fault};

    /// The fault's code, from 1.
    pub fn code(&self) -> u32
        ensures { result ≡ code_of_log_fault self.now }
    {
        match self {
            LogFault::TooLarge => 1,
            LogFault::BadLine { .. } => 2,
            LogFault::Order { .. } => 3,
            LogFault::OutOfMemory => 4,
        }
    }

    /// The fault's name as it is printed.
    pub fn name(&self) -> &'static str
        ensures { result.now ≡ name_of_fault self.now }
    {
        match self {
            LogFault::TooLarge => "TooLarge",
            LogFault::BadLine { .. } => "BadLine",
            LogFault::Order { .. } => "Order",
            LogFault::OutOfMemory => "OutOfMemory",
        }
    }

    /// The number of the line that the fault is in, from 1, and 0 where it is in none.
    pub fn line(&self) -> u32
        ensures { result ≡ line_of_log_fault self.now }
    {
        match self {
            LogFault::BadLine { line } | LogFault::Order { line } => *line,
            _ => 0,
        }
    }
}

impl From<OutOfMemory> for LogFault {
    ghost use Rattle.std.specs.Prelude.{◌≡◌};
    ghost use Rattle.log_meter.specs.declared.fault.LogFault.TheVariants as fault;

    ghost from_gives = { λ _ f. f ≡ fault.OutOfMemory };

    fn from(_: OutOfMemory) -> Self {
        LogFault::OutOfMemory
    }
}
