//! What one worker owns.
ghost use Rattle.std.specs.Prelude.{◌≡◌, ◌<◌, false, true, map, if◌then◌else◌, OnOk, OnErr, IfSome, IsTrue, ◌↔◌};
ghost use Rattle.load_plan.specs.declared.plan.Plan.{Plan};
ghost use Rattle.net_parts.specs.declared.parcel.Parcel.{Parcel};
ghost use Rattle.net_parts.specs.Parts.{is_segment_part, edges_of_part};
ghost use Rattle.net_parts.specs.Parcels.{IsTrueParcel};
ghost use Rattle.exchange_core.specs.Holdings.{IsHoldingReady, IsHoldingClean, MayBeSpoiled, added_segment, added_repeater, reserved_holding, refused_holding, run_holding, spoil_holding};
ghost use Rattle.exchange_core.specs.Shares.{Held, nothing_held, part_of, owns, change, is_refilled, posted_parcel, post_held, has_place_for, take_held, may_post, first_with_edge, carry_held, with_segment, with_repeater, handed_as, handed_out, IsOfPlan, HasNoneOf, AreParcelsFor, IsSoundShare};

use crate::holder::{Holder, absent_parcel};
use crate::lane::PartsOfKind;
use crate::spots::Spots;
use lists::OutOfMemory;
use net_parts::{Parcel, ParcelList, Part};
use std::alloc::Global;
use std::marker::Model;

/// Parts, in the order in which they were added.
pub type PartList<T> = Vec<T>;

/// What one worker owns: parts of one plan, each once, and the parcels at them, each of which has that plan's symbols
/// or is spoiled. It never has two parcels of one edge.
#[derive(Drop)]
pub struct Share<S: Part, R: Part> {
    alloc: Global,
    segments: PartsOfKind<S>,
    repeaters: PartsOfKind<R>,
    segment_spots: Spots,
    repeater_spots: Spots,
}

impl<S: Part, R: Part> Model for Share<S, R> {
    ghost use Rattle.exchange_core.specs.Shares.{Held, share_of, IsWholeShare};

    ghost Value = { Held };

    ghost view = { λ s. share_of s.segments s.repeaters };

    ghost invariant = { λ s. IsWholeShare s.segment_spots.parts.items s.repeater_spots.parts.items (share_of s.segments s.repeaters) };
}

impl<S: Part, R: Part> Share<S, R> {
    /// A share without parts.
    pub fn new(alloc: Global) -> Share<S, R>
        ensures { result ≡ nothing_held }
    {
        Share {
            alloc,
            segments: PartsOfKind::new(alloc),
            repeaters: PartsOfKind::new(alloc),
            segment_spots: Spots::new(alloc),
            repeater_spots: Spots::new(alloc),
        }
    }

    /// What is so of every share.
    pub fn sound(&self)
        ensures { IsSoundShare self.now }
    {
        let _ = &self.segments;
    }

    /// Adds a segment with its parcels, of whose edges the share has no parcel yet. On refusal both are dropped.
    pub fn add_segment(&mut self, part: S, parcels: ParcelList) -> Result<(), OutOfMemory>
        requires kind { is_segment_part (S.plan part) (S.number part) ≡ true }
        requires fresh { owns (S.number part) self.old ≡ false }
        requires plan { IsOfPlan (S.plan part) self.old }
        requires parcels { AreParcelsFor (S.plan part) (S.number part) (S.at part) parcels }
        requires once { HasNoneOf (edges_of_part (S.plan part) (S.number part)) self.old }
        ensures ok { OnOk result (self.new ≡ with_segment (added_segment (S.plan part) (S.number part) (S.at part) parcels) self.old) }
        ensures err { OnErr result (self.new ≡ self.old) }
    {
        self.segment_spots.learn(part.edges(), part.part())?;
        let holder = Holder::segment(self.alloc, part, parcels)?;
        self.segments.add(holder)
    }

    /// Adds a repeater, whose parcels are all away. On refusal it is dropped.
    pub fn add_repeater(&mut self, part: R) -> Result<(), OutOfMemory>
        requires kind { is_segment_part (R.plan part) (R.number part) ≡ false }
        requires fresh { owns (R.number part) self.old ≡ false }
        requires plan { IsOfPlan (R.plan part) self.old }
        ensures ok { OnOk result (self.new ≡ with_repeater (added_repeater (R.plan part) (R.number part) (R.at part)) self.old) }
        ensures err { OnErr result (self.new ≡ self.old) }
    {
        self.repeater_spots.learn(part.edges(), part.part())?;
        let holder = Holder::repeater(self.alloc, part)?;
        self.repeaters.add(holder)
    }

    /// Whether the part was added.
    pub fn owns(&self, part: u32) -> bool
        ensures { result ≡ owns part self.now }
    {
        self.segments.owns(part) || self.repeaters.owns(part)
    }

    /// Whether the part's window is one of the run's, and all its parcels are here with that window's stamp, spoiled or
    /// not.
    pub fn ready(&self, part: u32) -> bool
        requires { owns part self.now ≡ true }
        ensures { IsTrue result ↔ IfSome (part_of part self.now) IsHoldingReady }
    {
        if self.segments.owns(part) {
            self.segments.get(part).ready()
        } else {
            self.repeaters.get(part).ready()
        }
    }

    /// The part's window, which goes on when it is lost.
    pub fn window(&self, part: u32) -> u64
        requires { owns part self.now ≡ true }
        ensures { IfSome (part_of part self.now) (λ h. result ≡ h.window) }
    {
        if self.segments.owns(part) {
            self.segments.get(part).window()
        } else {
            self.repeaters.get(part).window()
        }
    }

    /// Whether no parcel at the part is spoiled.
    pub fn clean(&self, part: u32) -> bool
        requires { owns part self.now ≡ true }
        ensures { IsTrue result ↔ IfSome (part_of part self.now) IsHoldingClean }
    {
        if self.segments.owns(part) {
            self.segments.get(part).clean()
        } else {
            self.repeaters.get(part).clean()
        }
    }

    /// Whether the part was spoiled.
    pub fn lost(&self, part: u32) -> bool
        requires { owns part self.now ≡ true }
        ensures { IfSome (part_of part self.now) (λ h. result ≡ h.lost) }
    {
        if self.segments.owns(part) {
            self.segments.get(part).lost()
        } else {
            self.repeaters.get(part).lost()
        }
    }

    /// Takes the memory that the part's window needs.
    pub fn reserve(&mut self, part: u32) -> Result<(), OutOfMemory>
        requires { owns part self.old ≡ true }
        ensures ok { OnOk result (self.new ≡ change reserved_holding part self.old) }
        ensures err { OnErr result (self.new ≡ change refused_holding part self.old) }
    {
        if self.segments.owns(part) {
            self.segments.reserve(part)
        } else {
            self.repeaters.reserve(part)
        }
    }

    /// Run: makes the part's window.
    pub fn run(&mut self, part: u32)
        requires owned { owns part self.old ≡ true }
        requires ready { IfSome (part_of part self.old) IsHoldingReady }
        requires clean { IfSome (part_of part self.old) IsHoldingClean }
        requires kept { IfSome (part_of part self.old) (λ h. h.lost ≡ false) }
        requires room { IfSome (part_of part self.old) (λ h. h.reserved ≡ true) }
        ensures { self.new ≡ change run_holding part self.old }
    {
        if self.segments.owns(part) {
            self.segments.run(part);
        } else {
            self.repeaters.run(part);
        }
    }

    /// Spoil: gives the part up for its window, after want of memory here or elsewhere.
    pub fn spoil(&mut self, part: u32)
        requires owned { owns part self.old ≡ true }
        requires ready { IfSome (part_of part self.old) IsHoldingReady }
        requires cause { IfSome (part_of part self.old) MayBeSpoiled }
        ensures { self.new ≡ change spoil_holding part self.old }
    {
        if self.segments.owns(part) {
            self.segments.spoil(part);
        } else {
            self.repeaters.spoil(part);
        }
    }

    /// Whether the parcel of this edge is here and goes to where it isn't.
    pub fn refilled(&self, edge: u32) -> bool
        ensures { result ≡ is_refilled edge self.now }
    {
        let segment = self.segment_spots.spot(edge);
        if self.segments.may_post(segment, edge) {
            return true;
        }
        let repeater = self.repeater_spots.spot(edge);
        self.repeaters.may_post(repeater, edge)
    }

    /// Whether the share owns the part to which the parcel goes.
    pub fn awaits(&self, parcel: &Parcel) -> bool
        ensures { result ≡ has_place_for parcel.now self.now }
    {
        let edge = parcel.edge;
        if parcel.to_repeater {
            let repeater = self.repeater_spots.spot(edge);
            return self.repeaters.has(repeater, edge);
        }
        let segment = self.segment_spots.spot(edge);
        self.segments.has(segment, edge)
    }

    /// Post: hands out a parcel that is here and goes to where it isn't. It takes no memory.
    pub fn post(&mut self, edge: u32) -> Parcel
        requires { is_refilled edge self.old ≡ true }
        ensures value { result ≡ posted_parcel edge self.old }
        ensures edge { result.edge ≡ edge }
        ensures honest { (plan : Plan) → IsOfPlan plan self.old → IsTrueParcel plan result }
        ensures new { self.new ≡ post_held edge self.old }
    {
        let mut parcel = absent_parcel(self.alloc, edge, true);
        let segment = self.segment_spots.spot(edge);
        if self.segments.post(segment, edge, &mut parcel) {
            return parcel;
        }
        let repeater = self.repeater_spots.spot(edge);
        self.repeaters.post(repeater, edge, &mut parcel);
        parcel
    }

    /// Take: puts a parcel to the part to which it goes, and drops another of its edge. It takes no memory.
    pub fn take(&mut self, parcel: Parcel)
        requires owned { has_place_for parcel self.old ≡ true }
        requires honest { (plan : Plan) → IsOfPlan plan self.old → IsTrueParcel plan parcel }
        ensures { self.new ≡ take_held parcel self.old }
    {
        let mut parcel = parcel;
        let edge = parcel.edge;
        let segment = self.segment_spots.spot(edge);
        let repeater = self.repeater_spots.spot(edge);
        if parcel.to_repeater {
            self.segments.empty(segment, edge);
            self.repeaters
                .receive(repeater.part, &mut parcel, repeater.place);
        } else {
            self.repeaters.empty(repeater, edge);
            self.segments
                .receive(segment.part, &mut parcel, segment.place);
        }
    }

    /// Post and Take at once: brings the parcel of an edge to the part where it isn't, if it is here and goes there.
    /// Where that part isn't here, the parcel is emptied, and its memory stays in its place. It is looked for at the
    /// segment first, or else at the repeater. It takes no memory.
    pub fn carry(&mut self, edge: u32, at_segment: bool)
        ensures { self.new ≡ carry_held edge self.old }
    {
        if at_segment {
            if !self.leave_segment(edge) {
                self.leave_repeater(edge);
            }
        } else if !self.leave_repeater(edge) {
            self.leave_segment(edge);
        }
    }

    /// Brings the parcel of an edge from its segment to its repeater, and says whether it was at the segment and goes
    /// there.
    fn leave_segment(&mut self, edge: u32) -> bool
        ensures when { result ≡ may_post edge (first_with_edge edge self.old.segments.places) }
        ensures new { self.new ≡ (if may_post edge (first_with_edge edge self.old.segments.places) then carry_held edge self.old else self.old) }
    {
        let segment = self.segment_spots.spot(edge);
        let repeater = self.repeater_spots.spot(edge);
        self.segments
            .bring(segment, edge, &mut self.repeaters, repeater)
    }

    /// Brings the parcel of an edge from its repeater to its segment, and says whether it was at the repeater and goes
    /// there.
    fn leave_repeater(&mut self, edge: u32) -> bool
        ensures when { result ≡ may_post edge (first_with_edge edge self.old.repeaters.places) }
        ensures new { self.new ≡ (if may_post edge (first_with_edge edge self.old.repeaters.places) then carry_held edge self.old else self.old) }
    {
        let segment = self.segment_spots.spot(edge);
        let repeater = self.repeater_spots.spot(edge);
        self.repeaters
            .bring(repeater, edge, &mut self.segments, segment)
    }

    /// The parts in the order in which they were added, which takes no memory. The parcels are dropped.
    pub fn into_parts(self) -> (PartList<S>, PartList<R>)
        ensures segments { map (λ s. handed_as (S.plan s) (S.number s) (S.at s)) result.0.items ≡ handed_out self.segments }
        ensures repeaters { map (λ r. handed_as (R.plan r) (R.number r) (R.at r)) result.1.items ≡ handed_out self.repeaters }
    {
        let Share {
            alloc: _,
            segments,
            repeaters,
            segment_spots: _,
            repeater_spots: _,
        } = self;
        (segments.into_parts(), repeaters.into_parts())
    }
}
