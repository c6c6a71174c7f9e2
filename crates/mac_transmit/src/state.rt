//! What a sender goes on from.

use crate::{Defer, Phase};

/// What a sender is doing and how it waits, its attempt, from 1, its place in its queue, from 0, and its number of
/// draws.
#[derive(Clone, Copy)]
pub struct SenderState {
    pub phase: Phase,
    pub defer: Defer,
    pub attempt: u32,
    pub place: u32,
    pub drawn: u32,
}
