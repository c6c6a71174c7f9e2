//! What a worker does with its parts.
ghost use Rattle.std.specs.Prelude.{◌≡◌, ◌<◌, ◌≤◌, ◌+◌, ◌++◌, ◌↔◌, ◌⊎◌, [], All, Any, IsTrue, OnErr, OnOk, insert, length, slice_index_or};
ghost use Rattle.layout.specs.declared.lines.PortLine.{PortLine};
ghost use Rattle.layout.specs.declared.lines.RepeaterLine.{RepeaterLine};
ghost use Rattle.part_dealing.specs.Turns.{turn_place, duty_with};

use crate::dealing::Outlet;
use layout::Layout;
use lists::OutOfMemory;
use std::alloc::Global;

/// A part of a worker, and the last segment on which it is; its outlets are those from place `first` on to before place
/// `end`. It is at the border where one of them leads to another worker.
#[derive(Clone, Copy)]
pub struct Duty {
    pub part: u32,
    pub last: u32,
    pub first: usize,
    pub end: usize,
    pub border: bool,
}

/// The parts of a worker in the order of their turns, and all their outlets. A repeater has its turn behind its last
/// segment: then the parcels of all its segments are there, and those of the last are at hand.
#[derive(Drop)]
pub struct Duties {
    pub turns: Vec<Duty>,
    pub outlets: Vec<Outlet>,
}

impl Duty {
    /// Whether the part is a segment, which is its own last one.
    pub fn is_segment(self) -> bool
        ensures { IsTrue result ↔ self.part ≡ self.last }
    {
        self.part == self.last
    }
}

impl Duties {
    /// No parts.
    pub fn new(alloc: Global) -> Duties
        ensures turns { result.turns.items ≡ [] }
        ensures outlets { result.outlets.items ≡ [] }
    {
        Duties {
            turns: Vec::new(alloc),
            outlets: Vec::new(alloc),
        }
    }

    /// Adds a part whose last segment is this one, at the border or not. On refusal nothing changes.
    pub fn add(
        &mut self,
        part: u32,
        last: u32,
        outlets: &[Outlet],
        border: bool,
    ) -> Result<(), OutOfMemory>
        ensures turns { OnOk result (self.new.turns.items ≡ insert self.old.turns.items (turn_place last self.old.turns.items) (duty_with part last (length self.old.outlets.items) (length outlets.now) border)) }
        ensures outlets { OnOk result (self.new.outlets.items ≡ self.old.outlets.items ++ outlets.now) }
        ensures turns_kept { OnErr result (self.new.turns.items ≡ self.old.turns.items) }
        ensures outlets_kept { OnErr result (self.new.outlets.items ≡ self.old.outlets.items) }
    {
        let first = self.outlets.len();
        self.turns.reserve(1)?;
        self.outlets.extend_from_slice(outlets)?;
        let end = self.outlets.len();
        let place = turn_of(self.turns.as_slice(), last);
        self.turns.insert(
            place,
            Duty {
                part,
                last,
                first,
                end,
                border,
            },
        )?;
        Ok(())
    }
}

/// The place of the first turn whose part has a later segment, or behind the last.
fn turn_of(turns: &[Duty], last: u32) -> usize
    ensures place { result ≡ turn_place last turns.now }
    ensures within { result ≤ length turns.now }
{
    for i in 0..turns.len() {
        if turns[i].last > last {
            return i;
        }
    }
    turns.len()
}

/// The last of the segments on which a repeater has ports, and 0 where it has none.
pub fn last_segment(layout: &Layout, repeater: usize) -> u32
    requires { repeater < length layout.now.repeaters }
    ensures none_later { (d : RepeaterLine) → All (λ (p : PortLine). p.segment ≤ result) (slice_index_or layout.now.repeaters repeater d).ports }
    ensures one { (d : RepeaterLine) → (result ≡ 0) ⊎ Any (λ (p : PortLine). p.segment ≡ result) (slice_index_or layout.now.repeaters repeater d).ports }
{
    let ports = layout.repeaters.as_slice()[repeater].ports.as_slice();
    let mut last = 0u32;
    for port in ports {
        last = last.max(port.segment);
    }
    last
}
