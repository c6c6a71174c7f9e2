//! Rows and captures of a part.
ghost use Rattle.std.specs.Prelude.{◌≡◌, ◌<◌, ◌≤◌, [], ◌∷◌, ◌++◌, length, replicate, OnOk, IfOk};
ghost use Rattle.window_room.specs.Rooms.{IsSettled, KeepsRoom, RoomFor, SameLists, captures_with};

use crate::frames::WindowFrames;
use crate::rows::WindowRows;
use collision_log::Row;
use lists::OutOfMemory;
use network::Outputs;
use std::alloc::Global;
use std::marker::Model;

/// The rows of a part and the captures of its stations, and room for those of a window. Stations count from 0 among the
/// stations of the part. What comes in a window lies in the room until `settle`, or a `reserve` for which the room is
/// too small, moves it into lists.
#[derive(Drop)]
pub struct RowRoom {
    rows: WindowRows,
    frames: WindowFrames,
}

impl Model for RowRoom {
    ghost use Rattle.window_room.specs.Rooms.{Room};

    ghost Value = { Room };

    ghost view = { λ s. record {
      rows = s.rows.rows;
      captures = s.frames.captures;
      row_room = s.rows.room;
      frame_room = s.frames.frame_room;
      octet_room = s.frames.octet_room;
      fresh_rows = s.rows.fresh;
      fresh_frames = s.frames.fresh;
    } };
}

impl RowRoom {
    /// No rows, no captures of so many stations, and room for none.
    pub fn new(alloc: Global, stations: usize) -> Result<RowRoom, OutOfMemory>
        ensures rows { IfOk result (λ room. room.rows ≡ []) }
        ensures captures { IfOk result (λ room. room.captures ≡ replicate stations []) }
        ensures settled { IfOk result IsSettled }
    {
        Ok(RowRoom {
            rows: WindowRows::new(alloc),
            frames: WindowFrames::new(alloc, stations)?,
        })
    }

    /// Moves the rows and frames out of the room of a window into the lists that are handed out. Nothing is lost,
    /// whether there is memory or not.
    pub fn settle(&mut self) -> Result<(), OutOfMemory>
        ensures same { SameLists self.old self.new }
        ensures kept { KeepsRoom 0 0 0 self.old self.new }
        ensures settled { OnOk result (IsSettled self.new) }
    {
        self.rows.settle()?;
        self.frames.settle()
    }

    /// Makes room for so many more rows, frames, and octets of frames. Nothing is lost, whether there is memory or not.
    /// Where there is room already, nothing is moved.
    pub fn reserve(&mut self, rows: usize, frames: usize, octets: usize) -> Result<(), OutOfMemory>
        ensures same { SameLists self.old self.new }
        ensures kept { KeepsRoom 0 0 0 self.old self.new }
        ensures room { OnOk result (RoomFor rows frames octets self.new) }
    {
        if self.rows.has_room(rows) && self.frames.has_room(frames, octets) {
            return Ok(());
        }
        self.settle()?;
        self.rows.reserve(rows)?;
        self.frames.reserve(frames, octets)
    }

    /// Puts the row at the end.
    pub fn push_row(&mut self, row: Row)
        requires { 0 < self.old.row_room }
        ensures rows { self.new.rows ≡ self.old.rows ++ row ∷ [] }
        ensures captures { self.new.captures ≡ self.old.captures }
        ensures room { KeepsRoom 1 0 0 self.old self.new }
    {
        self.rows.push(row)
    }

    /// Puts a frame whose reception ended at half bit `t`, without its frame check sequence, at the end of what this
    /// station captured.
    #[tactic(auto, using(crate::proofs::StationCaptures::length_with))]
    pub fn capture(&mut self, station: usize, t: u64, octets: &[u8])
        requires station { station < length self.old.captures }
        requires frame { 0 < self.old.frame_room }
        requires octets { length octets.now ≤ self.old.octet_room }
        ensures rows { self.new.rows ≡ self.old.rows }
        ensures captures { self.new.captures
            ≡ captures_with station (record { t = t; octets = octets.now } ∷ []) self.old.captures }
        ensures stations { length self.new.captures ≡ length self.old.captures }
        ensures room { KeepsRoom 0 1 (length octets.now) self.old self.new }
    {
        self.frames.push(station, t, octets)
    }

    /// The rows, and the captures of each station in the order of the stations. It takes no memory.
    pub fn into_outputs(self) -> Outputs
        requires { IsSettled self }
        ensures rows { result.rows ≡ self.rows }
        ensures captures { result.captures ≡ self.captures }
    {
        Outputs {
            rows: self.rows.into_rows(),
            captures: self.frames.into_captures(),
        }
    }
}
