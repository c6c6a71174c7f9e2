//! What can be wrong with a capture.
use lists::OutOfMemory;

/// The first fault of a capture. Records are numbered from 1.
#[derive(Clone, Copy, Debug, PartialEq, Eq)]
pub enum CaptureFault {
    /// There are fewer octets than a header has.
    Short,
    /// The first four octets are none that a capture begins with.
    Magic,
    /// The version isn't 2.4.
    Version,
    /// The frames aren't those of Ethernet.
    LinkType,
    /// A record says that it has more than 262,144 octets.
    Length { number: u32 },
    /// The file ends within a record.
    CutRecord { number: u32 },
    /// There are more than 67,108,864 octets.
    TooLarge,
    /// An allocation was refused.
    OutOfMemory,
}

impl CaptureFault {
    ghost use Rattle.std.specs.Prelude.{◌≡◌};
    ghost use Rattle.capture_file.specs.Names.{code_of, name_of, number_of};

    /// The fault's code, from 1.
    pub fn code(&self) -> u32
        ensures { result ≡ code_of self.now }
    {
        match self {
            CaptureFault::Short => 1,
            CaptureFault::Magic => 2,
            CaptureFault::Version => 3,
            CaptureFault::LinkType => 4,
            CaptureFault::Length { .. } => 5,
            CaptureFault::CutRecord { .. } => 6,
            CaptureFault::TooLarge => 7,
            CaptureFault::OutOfMemory => 8,
        }
    }

    /// The fault's name as it is printed.
    pub fn name(&self) -> &'static str
        ensures { result.now ≡ name_of self.now }
    {
        match self {
            CaptureFault::Short => "Short",
            CaptureFault::Magic => "Magic",
            CaptureFault::Version => "Version",
            CaptureFault::LinkType => "LinkType",
            CaptureFault::Length { .. } => "Length",
            CaptureFault::CutRecord { .. } => "CutRecord",
            CaptureFault::TooLarge => "TooLarge",
            CaptureFault::OutOfMemory => "OutOfMemory",
        }
    }

    /// The number of the record that the fault is in, from 1, and 0 where it is in none.
    pub fn number(&self) -> u32
        ensures { result ≡ number_of self.now }
    {
        match self {
            CaptureFault::Length { number } | CaptureFault::CutRecord { number } => *number,
            _ => 0,
        }
    }
}

impl From<OutOfMemory> for CaptureFault {
    ghost use Rattle.std.specs.Prelude.{◌≡◌};
    ghost use Rattle.capture_file.specs.declared.fault.CaptureFault.TheVariants as fault;

    ghost from_gives = { λ _ f. f ≡ fault.OutOfMemory };

    fn from(_: OutOfMemory) -> Self {
        CaptureFault::OutOfMemory
    }
}
