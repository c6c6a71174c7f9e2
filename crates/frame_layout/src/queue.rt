//! Frames that wait to be sent.
ghost use Rattle.std.specs.Prelude.{◌≡◌, ◌<◌, ◌≤◌, [], ◌∷◌, ◌++◌, length, slice_get, Some, OnOk, OnErr, IfOk};
ghost use Rattle.frame_layout.specs.Queue.{IsNotBelowLast, IsInOrder};

use crate::Frame;
use lists::OutOfMemory;
use std::alloc::Global;
use std::marker::Model;

/// A frame and the half bit, counted from 0, from which on it may be sent.
#[derive(Drop)]
pub struct Ready {
    pub at: u64,
    pub frame: Frame,
}

/// At most 4,294,967,295 frames in the order in which they are sent, which is that of their half bits. A
/// contract sees them as a list.
#[derive(Drop)]
pub struct Queue {
    items: Vec<Ready>,
}

impl Model for Queue {
    ghost use Rattle.std.specs.Prelude.{List, ◌≤◌, length};
    ghost use Rattle.frame_layout.specs.declared.queue.Ready.{Ready};
    ghost use Rattle.frame_layout.specs.Queue.{IsInOrder};

    ghost Value = { List Ready };

    ghost view = { λ q. q.items.items };

    ghost invariant = { λ q. (length q.items.items ≤ 4294967295) × IsInOrder q.items.items };
}

impl Queue {
    /// The empty queue, which takes no memory.
    pub fn new(alloc: Global) -> Queue
        ensures { result ≡ [] }
    {
        Queue {
            items: Vec::new(alloc),
        }
    }

    /// Puts a frame at the end, ready no earlier than the one before it. A refusal leaves the queue as
    /// it was and drops the frame.
    pub fn push(&mut self, at: u64, frame: Frame) -> Result<(), OutOfMemory>
        requires room { length self.old < 4294967295 }
        requires order { IsNotBelowLast self.old at }
        ensures ok { OnOk result (self.new ≡ self.old ++ record { at = at; frame = frame } ∷ []) }
        ensures err { OnErr result (self.new ≡ self.old) }
    {
        self.items.push(Ready { at, frame })?;
        Ok(())
    }

    /// The number of frames.
    pub fn len(&self) -> u32
        ensures { result ≡ length self.now }
    {
        self.items.len() as u32
    }

    /// The frame at place `i`, counted from 0, with its half bit.
    pub fn get(&self, i: u32) -> &Ready
        requires { i < length self.now }
        ensures { slice_get self.now i ≡ Some result.now }
    {
        &self.items[i as usize]
    }

    /// A queue of its own with the same half bits and the same frames, whose octets both share.
    pub fn copy(&self) -> Result<Queue, OutOfMemory>
        ensures { IfOk result (λ copy. copy ≡ self.now) }
    {
        let items = copies(*self.items.allocator(), self.items.as_slice())?;
        Ok(Queue { items })
    }
}

fn copies(alloc: Global, items: &[Ready]) -> Result<Vec<Ready>, OutOfMemory>
    ensures { IfOk result (λ copies. copies.items ≡ items.now) }
{
    let mut copies = Vec::with_capacity(alloc, items.len())?;
    for item in items {
        copies.push(copy_of(item)?)?;
    }
    Ok(copies)
}

fn copy_of(ready: &Ready) -> Result<Ready, OutOfMemory>
    ensures { IfOk result (λ copy. copy ≡ ready.now) }
{
    Ok(Ready {
        at: ready.at,
        frame: ready.frame.copy()?,
    })
}
