//! What a log tells of the frames of a station.
ghost use Rattle.std.specs.Prelude.{◌≡◌, ◌<◌, ◌+◌, ℕ, [], IfOk, OnOk, length, slice_index_or};
ghost use Rattle.frame_table.specs.Histories.{end_of, frame_named, history, histories_with, sending_start};
ghost use Rattle.frame_table.specs.declared.history.History.{History};

use crate::events::Event;
use collision_log::Body;
use lists::OutOfMemory;
use std::alloc::Global;

/// What became of a frame.
#[derive(Clone, Copy)]
pub enum Outcome {
    Sent,
    GivenUp,
    Cut,
}

/// What became of a frame, and in which half bit.
#[derive(Clone, Copy)]
pub struct End {
    pub t: u64,
    pub outcome: Outcome,
}

/// The half bits in which a frame's first and its last attempt began, its end, and how many attempts there were.
#[derive(Clone, Copy)]
pub struct History {
    pub first: Option<u64>,
    pub start: Option<u64>,
    pub end: Option<End>,
    pub attempts: u64,
}

/// The frame that a sending is of, from 1.
pub fn frame_named(body: &Body) -> Option<u32>
    ensures { result ≡ frame_named body.now }
{
    match *body {
        Body::Sent { frame, .. }
        | Body::Collided { frame, .. }
        | Body::GivenUp { frame, .. }
        | Body::Cut { frame, .. } => Some(frame),
        _ => None,
    }
}

/// The half bit in which a sending began.
fn sending_start(body: &Body) -> u64
    ensures { result ≡ sending_start body.now }
{
    match *body {
        Body::Sent { start, .. }
        | Body::Collided { start, .. }
        | Body::GivenUp { start, .. }
        | Body::Cut { start, .. } => start,
        _ => 0,
    }
}

/// What became of the frame of a sending that ended in half bit `t`.
fn end_of(t: u64, body: &Body) -> Option<End>
    ensures { result ≡ end_of t body.now }
{
    let outcome = match *body {
        Body::Sent { .. } => Outcome::Sent,
        Body::GivenUp { .. } => Outcome::GivenUp,
        Body::Cut { .. } => Outcome::Cut,
        _ => return None,
    };
    Some(End { t, outcome })
}

impl History {
    ghost use Rattle.std.specs.Prelude.{◌≡◌, ℕ, [], IfOk};
    ghost use Rattle.frame_table.specs.Histories.{history, with_attempt};

    /// The history of a frame before anything is told of it.
    fn new() -> History
        ensures { (n : ℕ) → result ≡ history n [] }
    {
        History {
            first: None,
            start: None,
            end: None,
            attempts: 0,
        }
    }

    /// The history with one more attempt.
    fn with(&self, event: &Event) -> Result<History, OutOfMemory>
        ensures { IfOk result (λ h. h ≡ with_attempt self.now event.now) }
    {
        let start = sending_start(&event.body);
        Ok(History {
            first: self.first.or(Some(start)),
            start: Some(start),
            end: end_of(event.t, &event.body).or(self.end),
            attempts: self.attempts.checked_add(1).ok_or(OutOfMemory)?,
        })
    }
}

/// Adds an event to the history of its frame, where there is one.
fn note(histories: &mut [History], event: &Event) -> Result<(), OutOfMemory>
    ensures { OnOk result (histories.new ≡ histories_with histories.old (frame_named event.now.body) event.now) }
{
    let Some(frame) = frame_named(&event.body) else {
        return Ok(());
    };
    if 1 <= frame && frame as usize <= histories.len() {
        let k = frame as usize - 1;
        histories[k] = histories[k].with(event)?;
    }
    Ok(())
}

/// Adds events to the histories of their frames.
fn note_all(histories: &mut [History], events: &[Event]) -> Result<(), OutOfMemory>
    requires { (k : ℕ) (d : History) → k < length histories.old →
        slice_index_or histories.old k d ≡ history (k + 1) [] }
    ensures { OnOk result ((k : ℕ) (d : History) → k < length histories.old →
        slice_index_or histories.new k d ≡ history (k + 1) events.now) }
{
    for event in events {
        note(histories, event)?;
    }
    Ok(())
}

/// The histories of so many frames before anything is told of them.
fn untold(alloc: Global, count: usize) -> Result<Vec<History>, OutOfMemory>
    ensures count { IfOk result (λ hs. length hs.items ≡ count) }
    ensures each { IfOk result (λ hs. (k : ℕ) (d : History) → k < count →
        slice_index_or hs.items k d ≡ history (k + 1) []) }
{
    let mut histories = Vec::new(alloc);
    for _k in 0..count {
        histories.push(History::new())?;
    }
    Ok(histories)
}

/// What a station's events tell of so many frames.
pub fn histories(alloc: Global, count: usize, events: &[Event]) -> Result<Vec<History>, OutOfMemory>
    ensures count { IfOk result (λ hs. length hs.items ≡ count) }
    ensures each { IfOk result (λ hs. (k : ℕ) (d : History) → k < count →
        slice_index_or hs.items k d ≡ history (k + 1) events.now) }
{
    let mut histories = untold(alloc, count)?;
    note_all(histories.as_mut_slice(), events)?;
    Ok(histories)
}
