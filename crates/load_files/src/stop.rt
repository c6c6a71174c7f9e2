//! Why loads can't be read.
use capture_file::CaptureFault;

/// Why the loads of stations can't be read. Stations are numbered from 0.
#[derive(Clone, Copy)]
pub enum LoadStop {
    /// The load of a station is the first with a fault.
    Fault { station: u32, fault: CaptureFault },
    /// The load of a station isn't held, or a read of it failed.
    Unread { station: u32 },
    OutOfMemory,
}
