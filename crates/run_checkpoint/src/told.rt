//! What the lines of rows have told so far.
ghost use Rattle.std.specs.Prelude.{◌≡◌, ◌<◌, ◌++◌, ◌∷◌, [], List, IfOk, OnOk, slice_index_or, slice_set};
ghost use Rattle.network.specs.declared.outputs.Taken.{Taken};
ghost use Rattle.run_checkpoint.specs.Progress.{IsToldOf, captures_after, ended_after};

use crate::row_order::ended_frame;
use crate::waiting::is_reception;
use collision_log::{Row, Rows};
use layout::Octets;
use lists::OutOfMemory;
use network::{Captures, Taken, TakenList};
use std::alloc::Global;

/// The rows so far, the frames that each station received, and how many frames of each have ended.
#[derive(Drop)]
pub struct ToldSoFar {
    pub rows: Rows,
    pub captures: Vec<TakenList>,
    pub ended: Vec<u32>,
}

/// Nothing is told yet of so many stations.
pub fn nothing_told(alloc: Global, stations: usize) -> Result<ToldSoFar, OutOfMemory>
    ensures { IfOk result (λ told. IsToldOf stations told []) }
{
    let mut captures = Vec::new(alloc);
    let mut ended = Vec::new(alloc);
    'stations: for _k in 0..stations {
        captures.push(TakenList::new(alloc))?;
        ended.push(0)?;
    }
    Ok(ToldSoFar {
        rows: Rows::new(alloc),
        captures,
        ended,
    })
}

/// Puts a frame at the end of those that this station received.
fn add_taken(captures: &mut [TakenList], device: u32, taken: Taken) -> Result<(), OutOfMemory>
    ensures { OnOk result (captures.new ≡ slice_set captures.old device (slice_index_or captures.old device [] ++ taken ∷ [])) }
{
    let device = device as usize;
    if device < captures.len() {
        captures[device].push(taken)?;
    }
    Ok(())
}

/// So many frames of this station have ended.
fn set_ended(ended: &mut [u32], device: u32, count: u32)
    ensures { ended.new ≡ slice_set ended.old device count }
{
    let device = device as usize;
    if device < ended.len() {
        ended[device] = count;
    }
}

/// A row may end a frame of its device.
fn note_end(ended: &mut [u32], row: &Row)
    ensures { ended.new ≡ ended_after ended.old row.now }
{
    if let Some(frame) = ended_frame(&row.body) {
        set_ended(ended, row.device, frame);
    }
}

/// A row may tell a frame with these octets, which its station received.
fn note_frame(captures: &mut [TakenList], row: &Row, octets: Octets) -> Result<(), OutOfMemory>
    ensures { OnOk result (captures.new ≡ captures_after captures.old row.now octets) }
{
    if !is_reception(&row.body) {
        return Ok(());
    }
    add_taken(captures, row.device, Taken { t: row.t, octets })
}

impl ToldSoFar {
    ghost use Rattle.std.specs.Prelude.{◌≡◌, ◌++◌, ◌∷◌, [], OnOk};
    ghost use Rattle.run_checkpoint.specs.Progress.{captures_after, ended_after};

    /// Puts a row at the end, with the octets of the frame where one was received.
    pub fn add(&mut self, row: Row, octets: Octets) -> Result<(), OutOfMemory>
        ensures rows { OnOk result (self.new.rows ≡ self.old.rows ++ row ∷ []) }
        ensures captures { OnOk result (self.new.captures.items ≡ captures_after self.old.captures.items row octets) }
        ensures ended { OnOk result (self.new.ended.items ≡ ended_after self.old.ended.items row) }
    {
        note_end(&mut self.ended, &row);
        note_frame(&mut self.captures, &row, octets)?;
        self.rows.push(row)
    }
}

/// The same captures as a list.
pub fn listed(alloc: Global, captures: Vec<TakenList>) -> Result<Captures, OutOfMemory>
    ensures { IfOk result (λ list. list ≡ captures.items) }
{
    let mut list = Captures::new(alloc);
    for taken in captures {
        list.push(taken)?;
    }
    Ok(list)
}
