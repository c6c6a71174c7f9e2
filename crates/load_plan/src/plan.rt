//! A plan and its queues.
ghost use Rattle.std.specs.Prelude.{◌≡◌, length};
ghost use Rattle.layout.specs.Sound.{IsSound};

use frame_layout::Queue;
use layout::Layout;
use lists::List;

/// The queues of the stations, in the order of their numbers.
pub type Queues = List<Queue>;

/// The records of a load that are counted and not sent.
#[derive(Clone, Copy)]
pub struct Skips {
    pub short: u32,
    pub long: u32,
    pub snapped: u32,
}

/// The counts of the stations, in the order of their numbers.
pub type SkipList = List<Skips>;

/// A layout with what each of its stations has to send.
#[derive(Drop)]
pub struct Plan {
    pub layout: Layout,
    pub queues: Queues,
    pub skips: SkipList,
    ghost queued: { length queues ≡ length layout.stations },
    ghost counted: { length skips ≡ length layout.stations },
    ghost sound: { ∥ IsSound layout ∥₁ },
}
