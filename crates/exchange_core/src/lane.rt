//! Parts of one kind.
ghost use Rattle.std.specs.Prelude.{◌≡◌, ◌<◌, ◌≤◌, ◌+◌, [], false, true, map, if◌then◌else◌, OnOk, OnErr, IfSome, None, Some, slice_index_or, slice_set, vec_len, vec_capacity};
ghost use Rattle.net_parts.specs.declared.parcel.Parcel.{Parcel};
ghost use Rattle.net_parts.specs.Parcels.{IsTrueParcel};
ghost use Rattle.exchange_core.specs.Holdings.{IsHoldingReady, IsHoldingClean, reserved_holding, refused_holding, run_holding, spoil_holding, vacate_holding, take_holding};
ghost use Rattle.exchange_core.specs.Shares.{Rack, part_on, is_owned, changed, change_on, has_place, leaves, parcel_in, received_on, widened, add_on, handed, handed_as, handed_out, IsAddedInOrder};

use crate::holder::Holder;
use crate::spots::Spot;
use lists::OutOfMemory;
use net_parts::{Parcel, Part};
use std::alloc::Global;
use std::marker::Model;

/// Parts of one kind, each at the place of its number, and room to hand them out in the order in which they were added.
#[derive(Drop)]
pub struct PartsOfKind<P: Part> {
    places: Vec<Option<Holder<P>>>,
    order: Vec<u32>,
    spare: Vec<P>,
}

impl<P: Part> Model for PartsOfKind<P> {
    ghost use Rattle.std.specs.Prelude.{◌≡◌, ◌≤◌, [], vec_len, vec_capacity};
    ghost use Rattle.exchange_core.specs.Shares.{Rack, rack};

    ghost Value = { Rack };

    ghost view = { λ s. rack s.places.items s.order.items };

    ghost invariant = { λ s. (s.spare.items ≡ []) × (vec_len s.order ≤ vec_capacity s.spare) };
}

impl<P: Part> PartsOfKind<P> {
    /// No parts, which takes no memory.
    pub fn new(alloc: Global) -> PartsOfKind<P>
        ensures places { result.places ≡ [] }
        ensures order { result.order ≡ [] }
    {
        PartsOfKind {
            places: Vec::new(alloc),
            order: Vec::new(alloc),
            spare: Vec::new(alloc),
        }
    }

    /// Whether there is a part of this number.
    pub fn owns(&self, part: u32) -> bool
        ensures { result ≡ is_owned (part_on part self.now) }
    {
        let part = part as usize;
        part < self.places.len() && self.places[part].is_some()
    }

    /// The part of this number.
    pub fn get(&self, part: u32) -> &Holder<P>
        requires { is_owned (part_on part self.now) ≡ true }
        ensures { part_on part self.now ≡ Some result.now }
    {
        let part = part as usize;
        if part < self.places.len() {
            if let Some(holder) = &self.places[part] {
                return holder;
            }
        }
        unreachable!()
    }

    /// Adds a part. On refusal it is dropped.
    pub fn add(&mut self, holder: Holder<P>) -> Result<(), OutOfMemory>
        ensures ok { OnOk result (self.new ≡ add_on holder self.old) }
        ensures err { OnErr result (self.new ≡ self.old) }
    {
        let number = holder.number();
        let place = number as usize;
        self.order.reserve(1)?;
        self.spare.reserve(self.order.len() + 1)?;
        widen(&mut self.places, place + 1)?;
        self.places[place] = Some(holder);
        let _ = self.order.push(number);
        Ok(())
    }

    /// Takes the memory that the window of a part needs.
    pub fn reserve(&mut self, part: u32) -> Result<(), OutOfMemory>
        requires { is_owned (part_on part self.old) ≡ true }
        ensures ok { OnOk result (self.new ≡ change_on reserved_holding part self.old) }
        ensures err { OnErr result (self.new ≡ change_on refused_holding part self.old) }
    {
        let part = part as usize;
        if part < self.places.len() {
            return reserve_at(&mut self.places[part]);
        }
        unreachable!()
    }

    /// Runs the window of a part.
    pub fn run(&mut self, part: u32)
        requires owned { is_owned (part_on part self.old) ≡ true }
        requires ready { IfSome (part_on part self.old) IsHoldingReady }
        requires clean { IfSome (part_on part self.old) IsHoldingClean }
        requires kept { IfSome (part_on part self.old) (λ h. h.lost ≡ false) }
        requires room { IfSome (part_on part self.old) (λ h. h.reserved ≡ true) }
        ensures { self.new ≡ change_on run_holding part self.old }
    {
        let part = part as usize;
        if part < self.places.len() {
            run_at(&mut self.places[part]);
            return;
        }
        unreachable!()
    }

    /// Gives a part up for its window.
    pub fn spoil(&mut self, part: u32)
        requires owned { is_owned (part_on part self.old) ≡ true }
        requires ready { IfSome (part_on part self.old) IsHoldingReady }
        ensures { self.new ≡ change_on spoil_holding part self.old }
    {
        let part = part as usize;
        if part < self.places.len() {
            spoil_at(&mut self.places[part]);
            return;
        }
        unreachable!()
    }

    /// Whether a part has this edge, whose parcel is looked for at the place that is given.
    pub fn has(&self, at: Spot, edge: u32) -> bool
        ensures { result ≡ has_place edge (part_on at.part self.now) }
    {
        let part = at.part as usize;
        part < self.places.len() && has_at(&self.places[part], edge, at.place)
    }

    /// Whether the parcel of this edge is at a part that has the edge, and goes to the other part. It is looked for at
    /// the place that is given.
    pub fn may_post(&self, from: Spot, edge: u32) -> bool
        ensures { result ≡ leaves edge (part_on from.part self.now) }
    {
        let part = from.part as usize;
        part < self.places.len() && may_post_at(&self.places[part], edge, from.place)
    }

    /// Hands out the parcel of an edge for another of the edge, if it is at this part, which has the edge, and goes to
    /// the other part, and says whether it is so. It is looked for at the place that is given.
    pub fn post(&mut self, from: Spot, edge: u32, parcel: &mut Parcel) -> bool
        requires { parcel.old.edge ≡ edge }
        ensures value { result ≡ leaves edge (part_on from.part self.old) }
        ensures left { self.new ≡ (if leaves edge (part_on from.part self.old) then change_on (vacate_holding edge) from.part self.old else self.old) }
        ensures out { parcel.new ≡ (if leaves edge (part_on from.part self.old) then parcel_in edge (part_on from.part self.old) else parcel.old) }
    {
        let part = from.part as usize;
        if part < self.places.len() {
            return post_at(&mut self.places[part], edge, from.place, parcel);
        }
        false
    }

    /// Empties the parcel of an edge, which is looked for at the place that is given. Its memory stays in its place.
    pub fn empty(&mut self, at: Spot, edge: u32)
        ensures { self.new ≡ (if has_place edge (part_on at.part self.old) then change_on (vacate_holding edge) at.part self.old else self.old) }
    {
        let part = at.part as usize;
        if part < self.places.len() {
            empty_at(&mut self.places[part], edge, at.place);
        }
    }

    /// Brings the parcel of an edge to a part of the other kind, if it is at this part, which has the edge, and goes
    /// there, and says whether it is so. Where that part isn't there, the parcel is emptied, and its memory stays here.
    /// It is looked for at the places that are given.
    pub fn bring<Q: Part>(
        &mut self,
        from: Spot,
        edge: u32,
        to: &mut PartsOfKind<Q>,
        at: Spot,
    ) -> bool
        requires { leaves edge (part_on from.part self.old) ≡ true → IfSome (part_on at.part to.old) (λ h. IsTrueParcel h.plan (parcel_in edge (part_on from.part self.old))) }
        ensures value { result ≡ leaves edge (part_on from.part self.old) }
        ensures left { self.new ≡ (if leaves edge (part_on from.part self.old) then change_on (vacate_holding edge) from.part self.old else self.old) }
        ensures come { to.new ≡ (if leaves edge (part_on from.part self.old) then received_on (parcel_in edge (part_on from.part self.old)) at.part to.old else to.old) }
    {
        let part = from.part as usize;
        if part < self.places.len() {
            return bring_at(&mut self.places[part], edge, from.place, to, at);
        }
        false
    }

    /// Puts a parcel to a part that has its edge, and hands out what lay there. The place is looked for at `hint`
    /// first.
    pub fn receive(&mut self, part: u32, parcel: &mut Parcel, hint: u32)
        requires { IfSome (part_on part self.old) (λ h. IsTrueParcel h.plan parcel.old) }
        ensures new { self.new ≡ received_on parcel.old part self.old }
        ensures edge { parcel.new.edge ≡ parcel.old.edge }
    {
        let part = part as usize;
        if part < self.places.len() {
            receive_at(&mut self.places[part], parcel, hint);
        }
    }

    /// The parts in the order in which they were added, which takes no memory. The parcels are dropped.
    pub fn into_parts(self) -> Vec<P>
        requires { IsAddedInOrder self }
        ensures { map (λ p. handed_as (P.plan p) (P.number p) (P.at p)) result.items ≡ handed_out self }
    {
        let PartsOfKind {
            places,
            order,
            spare,
        } = self;
        let mut places = places;
        let mut spare = spare;
        let numbers = order.as_slice();
        for part in numbers {
            let _ = spare.push(take_out(&mut places, *part));
        }
        spare
    }
}

/// Takes the part of this number out of its place.
fn take_out<P: Part>(places: &mut Vec<Option<Holder<P>>>, part: u32) -> P
    requires { is_owned (slice_index_or places.old.items part None) ≡ true }
    ensures value { handed_as (P.plan result) (P.number result) (P.at result) ≡ handed (slice_index_or places.old.items part None) }
    ensures rest { places.new.items ≡ slice_set places.old.items part None }
{
    let place = part as usize;
    if place < places.len() {
        if let Some(holder) = places[place].take() {
            return holder.into_part();
        }
    }
    unreachable!()
}

/// Widens the places to so many at least, or leaves them.
fn widen<P: Part>(places: &mut Vec<Option<Holder<P>>>, count: usize) -> Result<(), OutOfMemory>
    ensures ok { OnOk result (places.new.items ≡ widened count places.old.items) }
    ensures err { OnErr result (places.new.items ≡ places.old.items) }
{
    if places.len() < count {
        places.reserve(count - places.len())?;
        while places.len() < count {
            let _ = places.push(None);
        }
    }
    Ok(())
}

/// Takes the memory that the window of the part in this place needs.
fn reserve_at<P: Part>(place: &mut Option<Holder<P>>) -> Result<(), OutOfMemory>
    requires { is_owned place.old ≡ true }
    ensures ok { OnOk result (place.new ≡ changed reserved_holding place.old) }
    ensures err { OnErr result (place.new ≡ changed refused_holding place.old) }
{
    if let Some(holder) = place {
        return holder.reserve();
    }
    unreachable!()
}

/// Runs the window of the part in this place.
fn run_at<P: Part>(place: &mut Option<Holder<P>>)
    requires ready { IfSome place.old IsHoldingReady }
    requires clean { IfSome place.old IsHoldingClean }
    requires kept { IfSome place.old (λ h. h.lost ≡ false) }
    requires room { IfSome place.old (λ h. h.reserved ≡ true) }
    ensures { place.new ≡ changed run_holding place.old }
{
    if let Some(holder) = place {
        holder.run();
    }
}

/// Gives the part in this place up for its window.
fn spoil_at<P: Part>(place: &mut Option<Holder<P>>)
    requires ready { IfSome place.old IsHoldingReady }
    ensures { place.new ≡ changed spoil_holding place.old }
{
    if let Some(holder) = place {
        holder.spoil();
    }
}

/// Whether the part in this place has this edge, whose parcel is looked for at `hint` first.
fn has_at<P: Part>(place: &Option<Holder<P>>, edge: u32, hint: u32) -> bool
    ensures { result ≡ has_place edge place.now }
{
    match place {
        Some(holder) => holder.has(edge, hint),
        None => false,
    }
}

/// Whether the part in this place has this edge, and its parcel is there and goes to the other part. It is looked for
/// at `hint` first.
fn may_post_at<P: Part>(place: &Option<Holder<P>>, edge: u32, hint: u32) -> bool
    ensures { result ≡ leaves edge place.now }
{
    match place {
        Some(holder) => holder.may_post(edge, hint),
        None => false,
    }
}

/// Hands out the parcel of an edge of the part in this place for another of the edge, if it is there and goes to the
/// other part, and says whether it is so. It is looked for at `hint` first.
fn post_at<P: Part>(
    place: &mut Option<Holder<P>>,
    edge: u32,
    hint: u32,
    parcel: &mut Parcel,
) -> bool
    requires { parcel.old.edge ≡ edge }
    ensures value { result ≡ leaves edge place.old }
    ensures left { place.new ≡ (if leaves edge place.old then changed (vacate_holding edge) place.old else place.old) }
    ensures out { parcel.new ≡ (if leaves edge place.old then parcel_in edge place.old else parcel.old) }
{
    match place {
        Some(holder) => holder.post(edge, hint, parcel),
        None => false,
    }
}

/// Empties the parcel of an edge of the part in this place, if that has the edge. It is looked for at `hint` first.
fn empty_at<P: Part>(place: &mut Option<Holder<P>>, edge: u32, hint: u32)
    ensures { place.new ≡ (if has_place edge place.old then changed (vacate_holding edge) place.old else place.old) }
{
    if let Some(holder) = place {
        holder.vacate(edge, hint);
    }
}

/// Brings the parcel of an edge of the part in this place to one of the other kind, if it is there and goes to that,
/// and says whether it is so.
fn bring_at<P: Part, Q: Part>(
    place: &mut Option<Holder<P>>,
    edge: u32,
    hint: u32,
    to: &mut PartsOfKind<Q>,
    at: Spot,
) -> bool
    requires { leaves edge place.old ≡ true → IfSome (part_on at.part to.old) (λ h. IsTrueParcel h.plan (parcel_in edge place.old)) }
    ensures value { result ≡ leaves edge place.old }
    ensures left { place.new ≡ (if leaves edge place.old then changed (vacate_holding edge) place.old else place.old) }
    ensures come { to.new ≡ (if leaves edge place.old then received_on (parcel_in edge place.old) at.part to.old else to.old) }
{
    match place {
        Some(holder) => holder.bring(edge, hint, to, at.part, at.place),
        None => false,
    }
}

/// Puts a parcel to the part in this place, if that has its edge, and hands out what lay there.
fn receive_at<P: Part>(place: &mut Option<Holder<P>>, parcel: &mut Parcel, hint: u32)
    requires { IfSome place.old (λ h. IsTrueParcel h.plan parcel.old) }
    ensures new { place.new ≡ (if has_place parcel.old.edge place.old then changed (take_holding parcel.old) place.old else place.old) }
    ensures edge { parcel.new.edge ≡ parcel.old.edge }
{
    if let Some(holder) = place {
        holder.receive(parcel, hint);
    }
}
