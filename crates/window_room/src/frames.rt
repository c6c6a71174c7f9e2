//! Captured frames, of which those of a window lie in room that was taken before it.
ghost use Rattle.std.specs.Prelude.{◌≡◌, ◌+◌, ◌<◌, ◌≤◌, true, false, [], ◌∷◌, ◌++◌, length, drop, map, replicate, OnOk, OnErr, IfOk, All};
ghost use Rattle.window_room.specs.FreshFrames.{KeptFrames, IsMark, captures_marked};
ghost use Rattle.window_room.specs.Rooms.{captures_with};

use layout::Octets;
use lists::OutOfMemory;
use network::{Captures, Taken, TakenList};
use std::alloc::Global;
use std::marker::Model;

/// Where the octets of a frame lie, when its reception ended, and which station captured it, from 0.
#[derive(Clone, Copy)]
pub struct Mark {
    pub station: usize,
    pub t: u64,
    pub start: usize,
    pub end: usize,
}

/// What each station captured: the frames that are settled, and those that lie in the room of a window, from mark
/// `done` on, the octets of one after those of the other. `list` has a place for the captures of each station.
#[derive(Drop)]
pub struct WindowFrames {
    alloc: Global,
    settled: Vec<TakenList>,
    list: Captures,
    marks: Vec<Mark>,
    octets: Vec<u8>,
    done: usize,
}

impl Model for WindowFrames {
    ghost use Rattle.std.specs.Prelude.{◌≡◌, ◌-◌, ◌≤◌, vec_len, vec_capacity, length, drop, All};
    ghost use Rattle.window_room.specs.FreshFrames.{KeptFrames, IsMark, captures_marked};

    ghost Value = { KeptFrames };

    ghost view = { λ s. record {
      captures = captures_marked s.octets.items (drop s.done s.marks.items) s.settled.items;
      frame_room = vec_capacity s.marks - vec_len s.marks;
      octet_room = vec_capacity s.octets - vec_len s.octets;
      fresh = length s.marks.items - s.done;
    } };

    ghost invariant = { λ s.
        All (IsMark (length s.octets.items) (length s.settled.items)) s.marks.items
        × (s.done ≤ length s.marks.items) × (length s.list ≡ length s.settled.items) };
}

/// Puts a frame at the end of a station's captures.
fn settle_frame(
    alloc: Global,
    t: u64,
    octets: &[u8],
    taken: &mut TakenList,
) -> Result<(), OutOfMemory>
    ensures ok { OnOk result (taken.new ≡ taken.old ++ record { t = t; octets = octets.now } ∷ []) }
    ensures err { OnErr result (taken.new ≡ taken.old) }
{
    let mut frame = Octets::new(alloc);
    frame.extend(octets)?;
    taken.push(Taken { t, octets: frame })
}

/// Puts the frames of the marks from place `done` on at the end of the captures. On refusal those that were put there
/// are done.
fn settle_frames(
    alloc: Global,
    octets: &[u8],
    marks: &[Mark],
    done: &mut usize,
    captures: &mut [TakenList],
) -> Result<(), OutOfMemory>
    requires marks { All (IsMark (length octets.now) (length captures.old)) marks.now }
    requires done { done.old ≤ length marks.now }
    ensures within { done.new ≤ length marks.now }
    ensures len { length captures.new ≡ length captures.old }
    ensures same { captures_marked octets.now (drop done.new marks.now) captures.new
        ≡ captures_marked octets.now (drop done.old marks.now) captures.old }
    ensures all { OnOk result (done.new ≡ length marks.now) }
{
    for i in *done..marks.len() {
        let mark = marks[i];
        let taken = &mut captures[mark.station];
        settle_frame(alloc, mark.t, &octets[mark.start..mark.end], taken)?;
        *done = i + 1;
    }
    Ok(())
}

/// The captures, in the places of a list.
fn handed(captures: Vec<TakenList>, mut list: Captures) -> Captures
    requires { length list ≡ length captures.items }
    ensures { result ≡ captures.items }
{
    let mut k = 0;
    for taken in captures {
        list.set(k, taken);
        k += 1;
    }
    list
}

/// No captures of so many stations.
fn none_of(alloc: Global, stations: usize) -> Result<Vec<TakenList>, OutOfMemory>
    ensures { IfOk result (λ captures. captures.items ≡ replicate stations []) }
{
    let mut captures = Vec::new(alloc);
    for _station in 0..stations {
        captures.push(TakenList::new(alloc))?;
    }
    Ok(captures)
}

/// A place for the captures of each of so many stations.
fn places(alloc: Global, stations: usize) -> Result<Captures, OutOfMemory>
    ensures { IfOk result (λ list. length list ≡ stations) }
{
    let mut list = Captures::new(alloc);
    for _station in 0..stations {
        list.push(TakenList::new(alloc))?;
    }
    Ok(list)
}

impl WindowFrames {
    /// No captures of so many stations, and room for none.
    pub fn new(alloc: Global, stations: usize) -> Result<WindowFrames, OutOfMemory>
        ensures captures { IfOk result (λ frames. frames.captures ≡ replicate stations []) }
        ensures fresh { IfOk result (λ frames. frames.fresh ≡ 0) }
    {
        Ok(WindowFrames {
            alloc,
            settled: none_of(alloc, stations)?,
            list: places(alloc, stations)?,
            marks: Vec::new(alloc),
            octets: Vec::new(alloc),
            done: 0,
        })
    }

    /// Moves the frames out of the room of the window.
    pub fn settle(&mut self) -> Result<(), OutOfMemory>
        ensures captures { self.new.captures ≡ self.old.captures }
        ensures frames { self.old.frame_room ≤ self.new.frame_room }
        ensures octets { self.old.octet_room ≤ self.new.octet_room }
        ensures fresh { OnOk result (self.new.fresh ≡ 0) }
    {
        settle_frames(
            self.alloc,
            &self.octets,
            &self.marks,
            &mut self.done,
            &mut self.settled,
        )?;
        self.marks.clear();
        self.octets.clear();
        self.done = 0;
        Ok(())
    }

    /// Whether there is room for so many more frames and octets of frames.
    pub fn has_room(&self, frames: usize, octets: usize) -> bool
        ensures frames { result ≡ true → frames ≤ self.now.frame_room }
        ensures octets { result ≡ true → octets ≤ self.now.octet_room }
        ensures less { result ≡ false → frames ≤ self.now.frame_room → self.now.octet_room < octets }
    {
        frames <= self.marks.capacity() - self.marks.len()
            && octets <= self.octets.capacity() - self.octets.len()
    }

    /// Makes room for so many more frames and octets of frames.
    pub fn reserve(&mut self, frames: usize, octets: usize) -> Result<(), OutOfMemory>
        ensures captures { self.new.captures ≡ self.old.captures }
        ensures kept_frames { self.old.frame_room ≤ self.new.frame_room }
        ensures kept_octets { self.old.octet_room ≤ self.new.octet_room }
        ensures frames { OnOk result (frames ≤ self.new.frame_room) }
        ensures octets { OnOk result (octets ≤ self.new.octet_room) }
    {
        self.marks.try_reserve(frames)?;
        self.octets.try_reserve(octets)?;
        Ok(())
    }

    /// Puts a frame whose reception ended at half bit `t` at the end of a station's captures.
    pub fn push(&mut self, station: usize, t: u64, octets: &[u8])
        requires station { station < length self.old.captures }
        requires frame { 0 < self.old.frame_room }
        requires octets { length octets.now ≤ self.old.octet_room }
        ensures captures { self.new.captures
            ≡ captures_with station (record { t = t; octets = octets.now } ∷ []) self.old.captures }
        ensures frames { self.old.frame_room ≤ self.new.frame_room + 1 }
        ensures octets { self.old.octet_room ≤ self.new.octet_room + length octets.now }
    {
        let start = self.octets.len();
        let Ok(()) = self.octets.extend_from_slice(octets) else {
            unreachable!()
        };
        let end = self.octets.len();
        let mark = Mark {
            station,
            t,
            start,
            end,
        };
        let Ok(()) = self.marks.push(mark) else {
            unreachable!()
        };
    }

    /// The captures, all of which are settled.
    pub fn into_captures(self) -> Captures
        requires { self.fresh ≡ 0 }
        ensures { result ≡ self.captures }
    {
        handed(self.settled, self.list)
    }
}
