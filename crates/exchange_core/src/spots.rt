//! Where the parcels of edges belong.
ghost use Rattle.std.specs.Prelude.{◌≡◌, ◌≢◌, ◌<◌, [], ℕ, length, OnOk, slice_index_or};

use lists::OutOfMemory;
use std::alloc::Global;

/// Where the parcel of an edge belongs: a part's number, and the place there where it is looked for first.
#[derive(Clone, Copy)]
pub struct Spot {
    pub part: u32,
    pub place: u32,
}

/// For each edge the number of its part of one kind, and the place of its parcel there, as they were learnt.
#[derive(Drop)]
pub struct Spots {
    parts: Vec<u32>,
    places: Vec<u32>,
}

impl Spots {
    /// Nothing is learnt.
    pub fn new(alloc: Global) -> Spots
        ensures parts { result.parts.items ≡ [] }
        ensures places { result.places.items ≡ [] }
    {
        Spots {
            parts: Vec::new(alloc),
            places: Vec::new(alloc),
        }
    }

    /// Where the parcel of this edge belongs, or the first place of part 0.
    pub fn spot(&self, edge: u32) -> Spot
        ensures part { result.part ≡ slice_index_or self.now.parts.items edge 0 }
        ensures place { result.place ≡ slice_index_or self.now.places.items edge 0 }
    {
        Spot {
            part: kept(self.parts.as_slice(), edge),
            place: kept(self.places.as_slice(), edge),
        }
    }

    /// Keeps the number of the part that has these edges, and the place of each among them. On refusal what is kept of
    /// other edges stays.
    pub fn learn(&mut self, edges: &[u32], part: u32) -> Result<(), OutOfMemory>
        ensures mine { OnOk result ((k : ℕ) → k < length edges.now → slice_index_or self.new.parts.items (slice_index_or edges.now k 0) 0 ≡ part) }
        ensures others { (e : ℕ) → ((k : ℕ) → k < length edges.now → slice_index_or edges.now k 0 ≢ e) → slice_index_or self.new.parts.items e 0 ≡ slice_index_or self.old.parts.items e 0 }
    {
        for k in 0..edges.len() {
            keep(&mut self.parts, edges[k], part)?;
            keep(&mut self.places, edges[k], u32::try_from(k).unwrap_or(0))?;
        }
        Ok(())
    }
}

/// What is kept of this edge, or 0.
fn kept(numbers: &[u32], edge: u32) -> u32
    ensures { result ≡ slice_index_or numbers.now edge 0 }
{
    let edge = edge as usize;
    if edge < numbers.len() {
        numbers[edge]
    } else {
        0
    }
}

/// Keeps a number of this edge. On refusal what is kept of other edges stays.
fn keep(numbers: &mut Vec<u32>, edge: u32, number: u32) -> Result<(), OutOfMemory>
    ensures mine { OnOk result (slice_index_or numbers.new.items edge 0 ≡ number) }
    ensures others { (e : ℕ) → e ≢ edge → slice_index_or numbers.new.items e 0 ≡ slice_index_or numbers.old.items e 0 }
{
    let edge = edge as usize;
    while numbers.len() <= edge {
        numbers.push(0)?;
    }
    numbers[edge] = number;
    Ok(())
}
