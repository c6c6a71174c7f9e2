//! One part and the places of its parcels.
ghost use Rattle.std.specs.Prelude.{◌≡◌, ◌<◌, ◌+◌, false, true, length, map, All, IfOk, OnOk, OnErr, IsTrue, ◌↔◌, Some, IfSome, if◌then◌else◌};
ghost use Rattle.net_parts.specs.declared.parcel.Parcel.{Parcel};
ghost use Rattle.net_parts.specs.Windows.{windows};
ghost use Rattle.net_parts.specs.Parts.{is_segment_part};
ghost use Rattle.net_parts.specs.Parcels.{IsTrueParcel};
ghost use Rattle.net_parts.specs.Boards.{place_in, has_edge};
ghost use Rattle.exchange_core.specs.Holdings.{Holding, IsHoldingReady, IsHoldingClean, IsSoundHolding, IsOnWay, edges_of_parcels, place_of_edge, new_holding, absent_parcel, emptied_parcel, parcel_of_edge, added_segment, added_repeater, reserved_holding, refused_holding, run_holding, spoil_holding, vacate_holding, take_holding};
ghost use Rattle.exchange_core.specs.Shares.{AreParcelsFor, part_on, has_place, leaves, received_on};

use crate::lane::PartsOfKind;
use lists::OutOfMemory;
use net_parts::{Parcel, ParcelList, Part, Symbols};
use std::alloc::Global;
use std::marker::Model;
use std::mem::swap;

/// A part with the places of its parcels. In the place of a parcel that is away lies one that has left by the same way,
/// spoiled and empty, so that whether the part is ready is told by the parcels alone. What a parcel that comes or goes
/// needs comes first, and so lies together.
#[derive(Drop)]
pub struct Holder<P: Part> {
    parcels: Vec<Parcel>,
    away: Vec<bool>,
    window: u64,
    windows: u64,
    number: u32,
    segment: bool,
    lost: bool,
    refused: bool,
    reserved: bool,
    part: P,
}

impl<P: Part> Model for Holder<P> {
    ghost use Rattle.exchange_core.specs.Holdings.{Holding};
    ghost use Rattle.exchange_core.specs.Holders.{IsHolder, held_as};

    ghost Value = { Holding };

    ghost view = { λ s. held_as (P.plan s.part) (P.number s.part) (P.at s.part) s.window s.lost s.refused s.reserved s.parcels.items s.away.items };

    ghost invariant = { λ s. IsHolder s.number s.windows s.segment (P.reserved s.part) (held_as (P.plan s.part) (P.number s.part) (P.at s.part) s.window s.lost s.refused s.reserved s.parcels.items s.away.items) };
}

impl<P: Part> Holder<P> {
    /// A segment or else a repeater that is new in a share, with these parcels, of which these are away.
    fn new(part: P, segment: bool, parcels: Vec<Parcel>, away: Vec<bool>) -> Holder<P>
        requires kind { segment ≡ is_segment_part (P.plan part) (P.number part) }
        requires sound { IsSoundHolding (new_holding (P.plan part) (P.number part) (P.at part) parcels.items away.items) }
        ensures { result ≡ new_holding (P.plan part) (P.number part) (P.at part) parcels.items away.items }
    {
        let number = part.part();
        let window = part.window();
        let windows = part.windows();
        Holder {
            part,
            number,
            window,
            windows,
            segment,
            lost: false,
            refused: false,
            reserved: false,
            parcels,
            away,
        }
    }

    /// A segment with its parcels.
    pub fn segment(alloc: Global, part: P, parcels: ParcelList) -> Result<Holder<P>, OutOfMemory>
        requires kind { is_segment_part (P.plan part) (P.number part) ≡ true }
        requires parcels { AreParcelsFor (P.plan part) (P.number part) (P.at part) parcels }
        ensures { IfOk result (λ h. h ≡ added_segment (P.plan part) (P.number part) (P.at part) parcels) }
    {
        let parcels = in_order(alloc, parcels)?;
        let away = vec![in alloc; false; parcels.len()]?;
        Ok(Holder::new(part, true, parcels, away))
    }

    /// A repeater, whose parcels are all away.
    pub fn repeater(alloc: Global, part: P) -> Result<Holder<P>, OutOfMemory>
        requires { is_segment_part (P.plan part) (P.number part) ≡ false }
        ensures { IfOk result (λ h. h ≡ added_repeater (P.plan part) (P.number part) (P.at part)) }
    {
        let parcels = absent_parcels(alloc, part.edges())?;
        let away = vec![in alloc; true; parcels.len()]?;
        Ok(Holder::new(part, false, parcels, away))
    }

    /// What is so of every holder.
    pub fn sound(&self)
        ensures { IsSoundHolding self.now }
    {
        let _ = &self.part;
    }

    /// The part's number.
    pub fn number(&self) -> u32
        ensures { result ≡ self.now.number }
    {
        self.number
    }

    /// The part's window.
    pub fn window(&self) -> u64
        ensures { result ≡ self.now.window }
    {
        self.window
    }

    /// Whether the part is lost.
    pub fn lost(&self) -> bool
        ensures { result ≡ self.now.lost }
    {
        self.lost
    }

    /// Whether the window is one of the run's, and all parcels are here with its stamp.
    pub fn ready(&self) -> bool
        ensures { IsTrue result ↔ IsHoldingReady self.now }
    {
        self.window < self.windows
            && are_on_way(!self.segment, self.window, self.parcels.as_slice())
    }

    /// Whether no parcel is spoiled.
    pub fn clean(&self) -> bool
        ensures { IsTrue result ↔ IsHoldingClean self.now }
    {
        are_clean(self.parcels.as_slice())
    }

    /// Takes the memory that a window needs.
    pub fn reserve(&mut self) -> Result<(), OutOfMemory>
        ensures ok { OnOk result (self.new ≡ reserved_holding self.old) }
        ensures err { OnErr result (self.new ≡ refused_holding self.old) }
    {
        let answer = self.part.reserve_window();
        if answer.is_ok() {
            self.reserved = true;
        } else {
            self.reserved = false;
            self.refused = true;
        }
        answer
    }

    /// Runs the part's window.
    pub fn run(&mut self)
        requires ready { IsHoldingReady self.old }
        requires clean { IsHoldingClean self.old }
        requires kept { self.old.lost ≡ false }
        requires room { self.old.reserved ≡ true }
        ensures { self.new ≡ run_holding self.old }
    {
        self.part.run_window(self.parcels.as_mut_slice());
        self.window += 1;
        self.refused = false;
        self.reserved = false;
    }

    /// Gives the part up for its window.
    pub fn spoil(&mut self)
        requires { IsHoldingReady self.old }
        ensures { self.new ≡ spoil_holding self.old }
    {
        let next = self.window + 1;
        let stamp = if self.segment { self.window } else { next };
        empty_all(&mut self.parcels, self.segment, stamp);
        self.lost = true;
        self.refused = false;
        self.window = next;
    }

    /// Whether one of the parcels is that of this edge, which is looked for at place `hint` first.
    pub fn has(&self, edge: u32, hint: u32) -> bool
        ensures { result ≡ has_edge (edges_of_parcels self.now.parcels) edge }
    {
        self.place_of(edge, hint) < self.parcels.len()
    }

    /// Whether one of the parcels is that of this edge, and it is here and goes to the other part. It is looked for at
    /// place `hint` first.
    pub fn may_post(&self, edge: u32, hint: u32) -> bool
        ensures { result ≡ leaves edge (Some self.now) }
    {
        let place = self.place_of(edge, hint);
        self.leaves(place, edge)
    }

    /// Hands out the parcel of this edge for another of the edge, if it is here and goes to the other part, and says
    /// whether it is so. It is looked for at place `hint` first.
    pub fn post(&mut self, edge: u32, hint: u32, parcel: &mut Parcel) -> bool
        requires { parcel.old.edge ≡ edge }
        ensures value { result ≡ leaves edge (Some self.old) }
        ensures left { self.new ≡ (if leaves edge (Some self.old) then vacate_holding edge self.old else self.old) }
        ensures out { parcel.new ≡ (if leaves edge (Some self.old) then parcel_of_edge edge self.old else parcel.old) }
    {
        let place = self.place_of(edge, hint);
        if self.leaves(place, edge) {
            self.hand_out(place, edge, parcel);
            true
        } else {
            false
        }
    }

    /// Empties the parcel of this edge, if there is a place for it, which is looked for at `hint` first, and counts it
    /// as away. Its memory stays in its place.
    pub fn vacate(&mut self, edge: u32, hint: u32)
        ensures { self.new ≡ (if has_place edge (Some self.old) then vacate_holding edge self.old else self.old) }
    {
        let place = self.place_of(edge, hint);
        if place >= self.parcels.len() {
            return;
        }
        self.clear(place, edge);
    }

    /// Brings the parcel of this edge to another part, if it is here and goes there, and says whether it is so. Where
    /// that part isn't there, the parcel is emptied, and its memory stays here. It is looked for at place `hint` first,
    /// and its place there at `there`.
    pub fn bring<Q: Part>(
        &mut self,
        edge: u32,
        hint: u32,
        to: &mut PartsOfKind<Q>,
        part: u32,
        there: u32,
    ) -> bool
        requires { leaves edge (Some self.old) ≡ true → IfSome (part_on part to.old) (λ h. IsTrueParcel h.plan (parcel_of_edge edge self.old)) }
        ensures value { result ≡ leaves edge (Some self.old) }
        ensures left { self.new ≡ (if leaves edge (Some self.old) then vacate_holding edge self.old else self.old) }
        ensures come { to.new ≡ (if leaves edge (Some self.old) then received_on (parcel_of_edge edge self.old) part to.old else to.old) }
    {
        let place = self.place_of(edge, hint);
        if self.leaves(place, edge) {
            self.hand_over(place, edge, to, part, there);
            true
        } else {
            false
        }
    }

    /// Puts a parcel in its place, if there is one, and hands out what lay there. The place is looked for at `hint`
    /// first.
    pub fn receive(&mut self, parcel: &mut Parcel, hint: u32)
        requires { IsTrueParcel self.old.plan parcel.old }
        ensures new { self.new ≡ (if has_place parcel.old.edge (Some self.old) then take_holding parcel.old self.old else self.old) }
        ensures edge { parcel.new.edge ≡ parcel.old.edge }
    {
        let place = self.place_of(parcel.edge, hint);
        if place < self.parcels.len() {
            self.put(place, parcel);
        }
    }

    /// The place of the parcel of this edge, or behind the last, looked for at place `hint` first.
    fn place_of(&self, edge: u32, hint: u32) -> usize
        ensures place { result ≡ place_of_edge edge self.now }
        ensures within { has_edge (edges_of_parcels self.now.parcels) edge ≡ true → result < length self.now.parcels }
    {
        let hint = hint as usize;
        if hint < self.parcels.len() && self.parcels[hint].edge == edge {
            return hint;
        }
        place_in(self.parcels.as_slice(), edge)
    }

    /// Whether the parcel of this edge, whose place is known, is here and goes to the other part.
    fn leaves(&self, place: usize, edge: u32) -> bool
        requires { place ≡ place_of_edge edge self.now }
        ensures { result ≡ leaves edge (Some self.now) }
    {
        place < self.parcels.len()
            && !self.away[place]
            && self.parcels[place].to_repeater == self.segment
    }

    /// Hands out the parcel of this edge, whose place is known, for another of the edge, which is emptied.
    fn hand_out(&mut self, place: usize, edge: u32, parcel: &mut Parcel)
        requires edge { has_edge (edges_of_parcels self.old.parcels) edge ≡ true }
        requires place { place ≡ place_of_edge edge self.old }
        requires same { parcel.old.edge ≡ edge }
        ensures value { parcel.new ≡ parcel_of_edge edge self.old }
        ensures new { self.new ≡ vacate_holding edge self.old }
    {
        empty(parcel, self.segment, 0);
        self.away[place] = true;
        swap(parcel, &mut self.parcels[place]);
    }

    /// Empties the parcel of this edge, whose place is known, and counts it as away. Its memory stays in its place.
    fn clear(&mut self, place: usize, edge: u32)
        requires edge { has_edge (edges_of_parcels self.old.parcels) edge ≡ true }
        requires place { place ≡ place_of_edge edge self.old }
        ensures { self.new ≡ vacate_holding edge self.old }
    {
        let segment = self.segment;
        self.away[place] = true;
        empty(&mut self.parcels[place], segment, 0);
    }

    /// Brings the parcel of this edge, whose place is known, to another part, or empties it where that isn't there.
    /// What then lies in its place, it or what lay there, is emptied and keeps its memory.
    fn hand_over<Q: Part>(
        &mut self,
        here: usize,
        edge: u32,
        to: &mut PartsOfKind<Q>,
        part: u32,
        there: u32,
    )
        requires edge { has_edge (edges_of_parcels self.old.parcels) edge ≡ true }
        requires place { here ≡ place_of_edge edge self.old }
        requires honest { IfSome (part_on part to.old) (λ h. IsTrueParcel h.plan (parcel_of_edge edge self.old)) }
        ensures left { self.new ≡ vacate_holding edge self.old }
        ensures come { to.new ≡ received_on (parcel_of_edge edge self.old) part to.old }
    {
        let segment = self.segment;
        let parcel = &mut self.parcels[here];
        to.receive(part, parcel, there);
        empty(parcel, segment, 0);
        self.away[here] = true;
    }

    /// Puts a parcel in its place, which is known, and hands out what lay there.
    fn put(&mut self, place: usize, parcel: &mut Parcel)
        requires edge { has_edge (edges_of_parcels self.old.parcels) parcel.old.edge ≡ true }
        requires place { place ≡ place_of_edge parcel.old.edge self.old }
        requires honest { IsTrueParcel self.old.plan parcel.old }
        ensures new { self.new ≡ take_holding parcel.old self.old }
        ensures edge { parcel.new.edge ≡ parcel.old.edge }
    {
        self.away[place] = false;
        swap(&mut self.parcels[place], parcel);
    }

    /// The part alone.
    pub fn into_part(self) -> P
        ensures plan { P.plan result ≡ self.plan }
        ensures number { P.number result ≡ self.number }
        ensures at { P.at result ≡ self.at }
    {
        let Holder {
            part,
            number: _,
            window: _,
            windows: _,
            segment: _,
            lost: _,
            refused: _,
            reserved: _,
            parcels: _,
            away: _,
        } = self;
        part
    }
}

/// Whether all parcels go this way with this stamp.
fn are_on_way(to_repeater: bool, window: u64, parcels: &[Parcel]) -> bool
    ensures { IsTrue result ↔ All (IsOnWay to_repeater window) parcels.now }
{
    parcels
        .iter()
        .all(|p| p.to_repeater == to_repeater && p.window == window)
}

/// Whether no parcel is spoiled.
fn are_clean(parcels: &[Parcel]) -> bool
    ensures { IsTrue result ↔ All (λ (p : Parcel). p.spoiled ≡ false) parcels.now }
{
    parcels.iter().all(|p| !p.spoiled)
}

/// The place of the first parcel of this edge, from 0, or behind the last.
fn place_in(parcels: &[Parcel], edge: u32) -> usize
    ensures place { result ≡ place_in (edges_of_parcels parcels.now) edge }
    ensures within { has_edge (edges_of_parcels parcels.now) edge ≡ true → result < length parcels.now }
{
    for i in 0..parcels.len() {
        if parcels[i].edge == edge {
            return i;
        }
    }
    parcels.len()
}

/// What lies in the place of a parcel that is away, which takes no memory.
pub fn absent_parcel(alloc: Global, edge: u32, to_repeater: bool) -> Parcel
    ensures { result ≡ absent_parcel to_repeater edge }
{
    Parcel {
        edge,
        window: 0,
        to_repeater,
        symbols: Symbols::none(alloc),
        spoiled: true,
    }
}

/// What lies in the places of a repeater's parcels that are away.
fn absent_parcels(alloc: Global, edges: &[u32]) -> Result<Vec<Parcel>, OutOfMemory>
    ensures { IfOk result (λ parcels. parcels.items ≡ map (absent_parcel false) edges.now) }
{
    let mut parcels = Vec::new(alloc);
    for edge in edges {
        parcels.push(absent_parcel(alloc, *edge, false))?;
    }
    Ok(parcels)
}

/// The same parcels in the same order.
fn in_order(alloc: Global, parcels: ParcelList) -> Result<Vec<Parcel>, OutOfMemory>
    ensures { IfOk result (λ all. all.items ≡ parcels) }
{
    let mut rest = parcels;
    let mut all = Vec::with_capacity(alloc, rest.len())?;
    while let Some(parcel) = rest.pop() {
        all.push(parcel)?;
    }
    all.reverse();
    Ok(all)
}

/// Turns and stamps all parcels, without symbols and spoiled.
fn empty_all(parcels: &mut Vec<Parcel>, to_repeater: bool, window: u64)
    ensures { parcels.new.items ≡ map (emptied_parcel to_repeater window) parcels.old.items }
{
    for parcel in parcels.iter_mut() {
        empty(parcel, to_repeater, window);
    }
}

/// Turns and stamps a parcel, without symbols and spoiled.
fn empty(parcel: &mut Parcel, to_repeater: bool, window: u64)
    ensures { parcel.new ≡ emptied_parcel to_repeater window parcel.old }
{
    parcel.window = window;
    parcel.to_repeater = to_repeater;
    parcel.symbols.cut(0);
    parcel.spoiled = true;
}
