//! What a store of files, a sink and a gate promise.
ghost use Rattle.std.specs.Prelude.{◌≡◌, ◌<◌, ◌≤◌, ℕ, List, Option, length, option_map, IfOk, IfSome, IsErrOf};
ghost use Rattle.outside.specs.Files.{Files, IsRead, IsAbsent, Rose, RoseAtNothing, IsRefusedAtNone, started, appended, written_more, IsSinkRefusal};

/// Why a store refused a call.
#[derive(Clone, Copy, Debug, PartialEq, Eq)]
pub enum StoreFail {
    /// The store tells its files, and the named one isn't among them.
    Missing,
    /// The outside failed, and the store's count of such faults has risen.
    Failed,
    OutOfMemory,
}

/// Why a sink refused a write.
#[derive(Clone, Copy, Debug, PartialEq, Eq)]
pub enum SinkFail {
    /// The outside failed, and the sink's count of such faults has risen.
    Failed,
    OutOfMemory,
}

/// Files by their names. After a refusal the files are as before.
pub trait Store {
    /// The files, where the store tells them.
    ghost held: { Self → Option Files };

    /// How many reads failed.
    ghost read_faults: { Self → ℕ };

    /// How many starts and appends failed.
    ghost write_faults: { Self → ℕ };

    /// Reads octets of a file from a place on, counted from 0, into a room that isn't empty, and answers how many.
    /// None come exactly where the place is at or past the end.
    fn read(&mut self, name: &str, from: u64, into: &mut [u8]) -> Result<usize, StoreFail>
        requires { 0 < length into.old }
        ensures bound { IfOk result (λ n. n ≤ length into.new) }
        ensures octets { IfSome (held self.old) (λ files. IsRead name.now from files result into.new) }
        ensures missing { IsErrOf result StoreFail.Missing → IsAbsent name.now (held self.old) }
        ensures held { held self.new ≡ held self.old }
        ensures reads { read_faults self.old ≤ read_faults self.new }
        ensures writes { write_faults self.old ≤ write_faults self.new }
        ensures failed { IsErrOf result StoreFail.Failed → Rose (read_faults self.old) (read_faults self.new) };

    /// Makes a file empty, whether it was there or not. Other files stay.
    fn start(&mut self, name: &str) -> Result<(), StoreFail>
        ensures held { held self.new ≡ option_map (started name.now result) (held self.old) }
        ensures missing { IsErrOf result StoreFail.Missing → ⊥ }
        ensures reads { read_faults self.old ≤ read_faults self.new }
        ensures writes { write_faults self.old ≤ write_faults self.new }
        ensures failed { IsErrOf result StoreFail.Failed → Rose (write_faults self.old) (write_faults self.new) };

    /// Puts a front of the octets at the end of a file, and answers how long that front is. Other files stay.
    fn append(&mut self, name: &str, bytes: &[u8]) -> Result<usize, StoreFail>
        ensures bound { IfOk result (λ n. n ≤ length bytes.now) }
        ensures held { held self.new ≡ option_map (appended name.now bytes.now result) (held self.old) }
        ensures absent { IsRefusedAtNone name.now (held self.old) result }
        ensures missing { IsErrOf result StoreFail.Missing → IsAbsent name.now (held self.old) }
        ensures reads { read_faults self.old ≤ read_faults self.new }
        ensures writes { write_faults self.old ≤ write_faults self.new }
        ensures failed { IsErrOf result StoreFail.Failed → Rose (write_faults self.old) (write_faults self.new) }
        ensures nothing { RoseAtNothing bytes.now result (write_faults self.old) (write_faults self.new) };
}

/// One stream of octets. After a refusal it is as before.
pub trait Sink {
    /// What was written, where the sink tells it.
    ghost written: { Self → Option (List ℕ) };

    /// How many writes failed.
    ghost faults: { Self → ℕ };

    /// How many writes took nothing of a piece, be it a failure or want of memory.
    ghost refused: { Self → ℕ };

    /// Writes a front of the octets, and answers how long that front is.
    fn write(&mut self, bytes: &[u8]) -> Result<usize, SinkFail>
        ensures bound { IfOk result (λ n. n ≤ length bytes.now) }
        ensures written { written self.new ≡ option_map (written_more bytes.now result) (written self.old) }
        ensures faults { faults self.old ≤ faults self.new }
        ensures refused { refused self.old ≤ refused self.new }
        ensures failed { IsErrOf result SinkFail.Failed → Rose (faults self.old) (faults self.new) }
        ensures nothing { RoseAtNothing bytes.now result (faults self.old) (faults self.new) }
        ensures refusal { IsSinkRefusal bytes.now result → Rose (refused self.old) (refused self.new) };
}

/// Where a part waits at the beginning of a window until it may go on, and where a run's progress can be counted.
pub trait Gate: Sync {
    /// A run of so many parts, windows a part and half bits begins: called once, before its first window.
    fn begin(&self, parts: u32, windows: u64, half_bits: u64);

    /// Lets the part of this number into the window of this number, both counted from 0.
    fn enter(&self, part: u32, window: u64);
}

/// The gate that lets every part pass at once.
#[derive(Clone, Copy)]
pub struct OpenGate;

impl Gate for OpenGate {
    fn begin(&self, _parts: u32, _windows: u64, _half_bits: u64) {}

    fn enter(&self, _part: u32, _window: u64) {}
}
