//! The records of a capture.
ghost use Rattle.std.specs.Prelude.{◌≡◌, ◌++◌, ◌≤◌, IfOk, OnOk, OnErr, length, take};

use lists::List;

/// Octets, such as those of a frame.
pub type FrameOctets = List<u8>;

/// A frame that was captured.
#[derive(Drop)]
pub struct Record {
    /// When it was captured, in nanoseconds.
    pub nanos: u64,
    /// How many octets it had on the line.
    pub original: u32,
    /// The octets that were kept.
    pub octets: FrameOctets,
}

/// The records of a capture, in the file's order.
pub type Records = List<Record>;

/// Takes items from the end until only `count` are left.
pub fn shorten<T: Drop>(list: &mut List<T>, count: usize)
    requires { count ≤ length list.old }
    ensures { list.new ≡ take count list.old }
{
    for _more in count..list.len() {
        list.pop();
    }
}
