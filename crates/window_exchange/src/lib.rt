//! Mailboxes, through which workers hand parcels to each other. What comes out of a box was put into it, no more often
//! than it was put, and it is true for the plan that the box's type carries, or spoiled.
#![tactic(auto)]

pub mod laws;
mod mail;
mod mailbox;
mod pauses;
mod planned;
mod rule;

pub use mail::{Lists, Name};
pub use mailbox::{MailPass, Mailbox};
pub use pauses::Pauses;
pub use planned::Planned;
