//! The guard of a repeater's port: a port with too many or too long collisions is partitioned from the others, and
//! connected again after a clean run (our profile, in the manner of the auto-partition of clause 9).
#![tactic(auto)]

mod guard;

pub use guard::{FOREVER, GuardEvent, PortGuard};
