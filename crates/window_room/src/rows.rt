//! Rows, of which those of a window lie in room that was taken before it.
ghost use Rattle.std.specs.Prelude.{◌≡◌, ◌+◌, ◌<◌, ◌≤◌, true, false, [], ◌∷◌, ◌++◌, length, drop, OnOk};
ghost use Rattle.window_room.specs.FreshRows.{KeptRows};

use collision_log::{Row, Rows};
use lists::OutOfMemory;
use std::alloc::Global;
use std::marker::Model;

/// Rows in their order: those that are settled, and those that lie in the room of a window, from place `done` on.
#[derive(Drop)]
pub struct WindowRows {
    settled: Rows,
    fresh: Vec<Row>,
    done: usize,
}

impl Model for WindowRows {
    ghost use Rattle.std.specs.Prelude.{◌-◌, ◌++◌, ◌≤◌, vec_len, vec_capacity, length, drop};
    ghost use Rattle.window_room.specs.FreshRows.{KeptRows};

    ghost Value = { KeptRows };

    ghost view = { λ s. record {
      rows = s.settled ++ drop s.done s.fresh.items;
      room = vec_capacity s.fresh - vec_len s.fresh;
      fresh = length s.fresh.items - s.done;
    } };

    ghost invariant = { λ s. s.done ≤ length s.fresh.items };
}

/// Puts the rows from place `done` on at the end of the settled ones. On refusal those that were put there are done.
fn settle_rows(rows: &[Row], done: &mut usize, settled: &mut Rows) -> Result<(), OutOfMemory>
    requires { done.old ≤ length rows.now }
    ensures within { done.new ≤ length rows.now }
    ensures same { settled.new ++ drop done.new rows.now ≡ settled.old ++ drop done.old rows.now }
    ensures all { OnOk result (done.new ≡ length rows.now) }
{
    for i in *done..rows.len() {
        settled.push(rows[i])?;
        *done = i + 1;
    }
    Ok(())
}

impl WindowRows {
    /// No rows, and room for none.
    pub fn new(alloc: Global) -> WindowRows
        ensures rows { result.rows ≡ [] }
        ensures fresh { result.fresh ≡ 0 }
    {
        WindowRows {
            settled: Rows::new(alloc),
            fresh: Vec::new(alloc),
            done: 0,
        }
    }

    /// Moves the rows out of the room of the window.
    pub fn settle(&mut self) -> Result<(), OutOfMemory>
        ensures rows { self.new.rows ≡ self.old.rows }
        ensures room { self.old.room ≤ self.new.room }
        ensures fresh { OnOk result (self.new.fresh ≡ 0) }
    {
        settle_rows(&self.fresh, &mut self.done, &mut self.settled)?;
        self.fresh.clear();
        self.done = 0;
        Ok(())
    }

    /// Whether there is room for so many more rows.
    pub fn has_room(&self, rows: usize) -> bool
        ensures enough { result ≡ true → rows ≤ self.now.room }
        ensures less { result ≡ false → self.now.room < rows }
    {
        rows <= self.fresh.capacity() - self.fresh.len()
    }

    /// Makes room for so many more rows.
    pub fn reserve(&mut self, rows: usize) -> Result<(), OutOfMemory>
        ensures rows { self.new.rows ≡ self.old.rows }
        ensures kept { self.old.room ≤ self.new.room }
        ensures room { OnOk result (rows ≤ self.new.room) }
    {
        self.fresh.try_reserve(rows)?;
        Ok(())
    }

    /// Puts the row at the end.
    pub fn push(&mut self, row: Row)
        requires { 0 < self.old.room }
        ensures rows { self.new.rows ≡ self.old.rows ++ row ∷ [] }
        ensures room { self.old.room ≤ self.new.room + 1 }
    {
        let Ok(()) = self.fresh.push(row) else {
            unreachable!()
        };
    }

    /// The rows, all of which are settled.
    pub fn into_rows(self) -> Rows
        requires { self.fresh ≡ 0 }
        ensures { result ≡ self.rows }
    {
        self.settled
    }
}
