//! What happens at a device.
use collision_log::Body;
use lists::List;

/// What happened at a device, and in which half bit, from 0.
#[derive(Clone, Copy)]
pub struct Event {
    pub t: u64,
    pub body: Body,
}

/// What happened at a device, in order.
pub type Events = List<Event>;
