//! What a worker owns of the plan that a type carries.
ghost use Rattle.std.specs.Prelude.{◌≡◌, ◌<◌, ◌≤◌, ◌↔◌, [], true, false, All, IfSome, IsTrue, None, OnErr, OnOk, Some, if◌then◌else◌, length};
ghost use Rattle.net_parts.specs.Parcels.{IsTrueParcel, arrived};
ghost use Rattle.exchange_core.specs.Holdings.{IsHoldingReady, IsHoldingClean, added_repeater, added_segment};
ghost use Rattle.exchange_core.specs.Shares.{carry_held, has_place_for, is_refilled, nothing_held, owns, part_of, post_held, posted_parcel, rack, take_held, with_repeater, with_segment};
ghost use Rattle.worker_gate.specs.PlannedShares.{IsPlannedShare, StaysPlanned};
ghost use Rattle.worker_gate.specs.SteppedShares.{IsReadyIn, IsStepped};

use exchange_core::Share;
use lists::OutOfMemory;
use load_plan::Plan;
use net_parts::{Pace, Parcel, Part, paced_opening};
use std::alloc::Global;
use std::marker::PhantomData;
use window_exchange::Planned;

/// The segments of a worker, which may get more of them.
#[derive(Drop)]
pub struct Segments<P: Planned, S: Part, R: Part> {
    share: Share<S, R>,
    of: PhantomData<P>,
    ghost planned: { IsPlannedShare P.plan share },
    ghost alone: { share.repeaters ≡ rack [] [] },
}

/// The parts of a worker, and the parcels at them.
#[derive(Drop)]
pub struct Desk<P: Planned, S: Part, R: Part> {
    share: Share<S, R>,
    of: PhantomData<P>,
    ghost planned: { IsPlannedShare P.plan share },
}

impl<P: Planned, S: Part, R: Part> Segments<P, S, R> {
    /// No parts.
    pub fn new(alloc: Global) -> Segments<P, S, R>
        ensures { result.share ≡ nothing_held }
    {
        Segments {
            share: Share::new(alloc),
            of: PhantomData,
        }
    }

    /// Adds a segment with the parcels of the first window. On refusal both are dropped.
    pub fn add(
        &mut self,
        alloc: Global,
        plan: &Plan,
        pace: &Pace,
        part: S,
    ) -> Result<(), OutOfMemory>
        requires boxed { Some plan.now ≡ P.plan }
        requires paced { pace.now.plan.value ≡ plan.now }
        requires plan { S.plan part ≡ plan.now }
        requires number { S.number part < length plan.now.layout.segments }
        requires start { S.at part ≡ 0 }
        requires free { owns (S.number part) self.old.share ≡ false }
        ensures ok { OnOk result (self.new.share ≡ with_segment (added_segment (S.plan part) (S.number part) (S.at part) (arrived plan.now (S.number part) 0)) self.old.share) }
        ensures err { OnErr result (self.new.share ≡ self.old.share) }
    {
        let number = part.part();
        let parcels = paced_opening(alloc, plan, pace, number)?;
        self.share.add_segment(part, parcels)
    }

    /// The same parts, which may get repeaters.
    pub fn into_desk(self) -> Desk<P, S, R>
        ensures { result.share ≡ self.share }
    {
        let Segments { share, of: _ } = self;
        Desk {
            share,
            of: PhantomData,
        }
    }
}

impl<P: Planned, S: Part, R: Part> Desk<P, S, R> {
    /// Adds a repeater, whose parcels are all away. On refusal it is dropped.
    pub fn add_repeater(&mut self, plan: &Plan, part: R) -> Result<(), OutOfMemory>
        requires boxed { Some plan.now ≡ P.plan }
        requires plan { R.plan part ≡ plan.now }
        requires number { length plan.now.layout.segments ≤ R.number part }
        requires free { owns (R.number part) self.old.share ≡ false }
        ensures ok { OnOk result (self.new.share ≡ with_repeater (added_repeater (R.plan part) (R.number part) (R.at part)) self.old.share) }
        ensures err { OnErr result (self.new.share ≡ self.old.share) }
    {
        self.share.add_repeater(part)
    }

    /// Makes the part's window, or gives the part up after want of memory, if it is ready here. Says whether it is.
    pub fn step(&mut self, part: u32) -> bool
        ensures when { IsTrue result ↔ IsReadyIn part self.old.share }
        ensures waits { result ≡ false → self.new.share ≡ self.old.share }
        ensures goes { result ≡ true → IsStepped part self.old.share self.new.share }
    {
        step(&mut self.share, part)
    }

    /// Hands out the parcel of an edge, if it is here and goes to where it isn't.
    pub fn post(&mut self, edge: u32) -> Option<Parcel>
        ensures value { result ≡ (if is_refilled edge self.old.share then Some (posted_parcel edge self.old.share) else None) }
        ensures honest { IfSome result (λ parcel. IfSome P.plan (λ plan. IsTrueParcel plan parcel)) }
        ensures new { self.new.share ≡ (if is_refilled edge self.old.share then post_held edge self.old.share else self.old.share) }
    {
        if self.share.refilled(edge) {
            Some(self.share.post(edge))
        } else {
            None
        }
    }

    /// Puts a parcel to its part, if that is here, and drops it otherwise.
    pub fn take(&mut self, parcel: Parcel)
        requires { IfSome P.plan (λ plan. IsTrueParcel plan parcel) }
        ensures { self.new.share ≡ (if has_place_for parcel self.old.share then take_held parcel self.old.share else self.old.share) }
    {
        if self.share.awaits(&parcel) {
            self.share.take(parcel);
        }
    }

    /// Brings the parcel of an edge to the part where it isn't, if it is here and goes there; where that part isn't
    /// here, it is emptied, and its memory stays in its place. It is looked for at the segment first, or else at the
    /// repeater.
    pub fn carry(&mut self, edge: u32, at_segment: bool)
        ensures { self.new.share ≡ carry_held edge self.old.share }
    {
        self.share.carry(edge, at_segment);
    }

    /// Whether the part has made so many windows, or was given up for them, or isn't here.
    pub fn is_past(&self, part: u32, windows: u64) -> bool
        ensures { IsTrue result ↔ IfSome (part_of part self.now.share) (λ h. windows ≤ h.window) }
    {
        !self.share.owns(part) || self.share.window(part) >= windows
    }

    /// Whether the part was given up.
    pub fn is_lost(&self, part: u32) -> bool
        ensures here { IfSome (part_of part self.now.share) (λ h. result ≡ h.lost) }
        ensures elsewhere { owns part self.now.share ≡ false → result ≡ false }
    {
        self.share.owns(part) && self.share.lost(part)
    }

    /// The parts alone, in the order in which they were added.
    pub fn into_parts(self) -> (Vec<S>, Vec<R>)
        ensures segments { All (λ s. Some (S.plan s) ≡ P.plan) result.0.items }
        ensures repeaters { All (λ r. Some (R.plan r) ≡ P.plan) result.1.items }
    {
        let Desk { share, of: _ } = self;
        share.into_parts()
    }
}

/// Makes the part's window, or gives the part up after want of memory, if it is ready here. Says whether it is.
fn step<S: Part, R: Part>(share: &mut Share<S, R>, part: u32) -> bool
    ensures planned { StaysPlanned share.old share.new }
    ensures when { IsTrue result ↔ IsReadyIn part share.old }
    ensures waits { result ≡ false → share.new ≡ share.old }
    ensures goes { result ≡ true → IsStepped part share.old share.new }
{
    if !share.owns(part) || !share.ready(part) {
        return false;
    }
    if share.lost(part) {
        share.spoil(part);
        return true;
    }
    if !share.clean(part) {
        share.spoil(part);
        return true;
    }
    make(share, part);
    true
}

/// Makes the part's window, or gives the part up after want of memory.
fn make<S: Part, R: Part>(share: &mut Share<S, R>, part: u32)
    requires owned { owns part share.old ≡ true }
    requires ready { IfSome (part_of part share.old) IsHoldingReady }
    requires clean { IfSome (part_of part share.old) IsHoldingClean }
    requires kept { IfSome (part_of part share.old) (λ h. h.lost ≡ false) }
    ensures planned { StaysPlanned share.old share.new }
    ensures goes { IsStepped part share.old share.new }
{
    match share.reserve(part) {
        Ok(()) => share.run(part),
        Err(_) => share.spoil(part),
    }
}
