//! What a worker works on.
ghost use Rattle.std.specs.Prelude.{◌≡◌, ◌↔◌, false, All, IfSome, IsTrue, Some};
ghost use Rattle.net_parts.specs.Windows.{windows};
ghost use Rattle.exchange_core.specs.Shares.{part_of};
ghost use Rattle.crossbeam_queue.specs.Passes.{view};
ghost use Rattle.window_exchange.specs.MailNames.{IsHonest};
ghost use Rattle.worker_gate.specs.SteppedShares.{ArePast};
ghost use Rattle.worker_gate.specs.ReceivedParcels.{HasEmptied, HasReceived};
ghost use Rattle.part_dealing.specs.declared.duties.Duty.{Duty};

use crate::desk::Desk;
use crate::endpoint::Endpoint;
use net_parts::{Pace, Parcel, Part};
use part_dealing::{Duties, Duty, Outlet};
use std::sync::Wait;
use window_exchange::Planned;

/// All that a worker works on: parts of the plan that the type carries, and what to do with them.
#[derive(Drop)]
pub struct Kit<P: Planned, S: Part, R: Part> {
    number: u32,
    windows: u64,
    desk: Desk<P, S, R>,
    duties: Duties,
}

impl<P: Planned, S: Part, R: Part> Kit<P, S, R> {
    /// Parts for the worker of this number.
    pub fn new(number: u32, pace: &Pace, desk: Desk<P, S, R>, duties: Duties) -> Kit<P, S, R>
        ensures number { result.number ≡ number }
        ensures windows { result.windows ≡ windows pace.now.plan.value }
        ensures desk { result.desk.share ≡ desk.share }
        ensures duties { result.duties ≡ duties }
    {
        Kit {
            number,
            windows: pace.windows,
            desk,
            duties,
        }
    }

    /// The worker's number.
    pub fn number(&self) -> u32
        ensures { result ≡ self.now.number }
    {
        self.number
    }

    /// Makes one window of each part whose parcels are here, and hands its parcels on. Parts at the border come first, so
    /// that other workers needn't wait for these. Says whether it made one.
    pub fn turn<X: Wait>(&mut self, rt: &X, boxes: &mut Vec<Endpoint<P>>) -> bool
        ensures windows { self.new.windows ≡ self.old.windows }
        ensures duties { self.new.duties ≡ self.old.duties }
    {
        let first = turn(rt, &mut self.desk, &self.duties, true, self.number, boxes);
        let then = turn(rt, &mut self.desk, &self.duties, false, self.number, boxes);
        first || then
    }

    /// Puts all parcels in the worker's box to their parts. Says whether there was one.
    pub fn take_all(&mut self, boxes: &mut Vec<Endpoint<P>>) -> bool
        ensures number { self.new.number ≡ self.old.number }
        ensures share { HasReceived P.plan result self.old.desk.share self.new.desk.share }
        ensures windows { self.new.windows ≡ self.old.windows }
        ensures duties { self.new.duties ≡ self.old.duties }
    {
        match boxes.get_mut(self.number as usize) {
            Some(own) => take_all(&mut self.desk, own),
            None => false,
        }
    }

    /// Whether all windows of all parts are made, or the parts were given up for them.
    pub fn is_done(&self) -> bool
        ensures { IsTrue result ↔ ArePast self.now.windows self.now.desk.share self.now.duties.turns.items }
    {
        are_past(&self.desk, self.duties.turns.as_slice(), self.windows)
    }

    /// Whether no part was given up.
    pub fn is_kept(&self) -> bool
        ensures { IsTrue result ↔ All (λ (duty : Duty). IfSome (part_of duty.part self.now.desk.share) (λ h. h.lost ≡ false)) self.now.duties.turns.items }
    {
        are_kept(&self.desk, self.duties.turns.as_slice())
    }

    /// The parts alone.
    pub fn into_parts(self) -> (Vec<S>, Vec<R>)
        ensures segments { All (λ s. Some (S.plan s) ≡ P.plan) result.0.items }
        ensures repeaters { All (λ r. Some (R.plan r) ≡ P.plan) result.1.items }
    {
        let Kit {
            number: _,
            windows: _,
            desk,
            duties: _,
        } = self;
        desk.into_parts()
    }
}

/// Whether so many windows of all these parts are made, or the parts were given up for them.
fn are_past<P: Planned, S: Part, R: Part>(
    desk: &Desk<P, S, R>,
    duties: &[Duty],
    windows: u64,
) -> bool
    ensures { IsTrue result ↔ ArePast windows desk.now.share duties.now }
{
    duties.iter().all(|duty| desk.is_past(duty.part, windows))
}

/// Whether none of these parts was given up.
fn are_kept<P: Planned, S: Part, R: Part>(desk: &Desk<P, S, R>, duties: &[Duty]) -> bool
    ensures { IsTrue result ↔ All (λ (duty : Duty). IfSome (part_of duty.part desk.now.share) (λ h. h.lost ≡ false)) duties.now }
{
    duties.iter().all(|duty| !desk.is_lost(duty.part))
}

/// Puts all parcels in this box to their parts. Says whether there was one.
fn take_all<P: Planned, S: Part, R: Part>(desk: &mut Desk<P, S, R>, own: &mut Endpoint<P>) -> bool
    ensures { HasEmptied P.plan result desk.old.share desk.new.share (view own.old.pass.pass) (view own.new.pass.pass) }
{
    let mut came = false;
    for _parcel in 0..u64::MAX {
        let Some(parcel) = own.try_receive() else {
            break;
        };
        desk.take(parcel);
        came = true;
    }
    came
}

/// Makes one window of each part whose parcels are here, or of those at the border alone, and hands its parcels on. Says
/// whether it made one.
fn turn<P: Planned, S: Part, R: Part, X: Wait>(
    rt: &X,
    desk: &mut Desk<P, S, R>,
    duties: &Duties,
    border: bool,
    number: u32,
    boxes: &mut Vec<Endpoint<P>>,
) -> bool {
    let mut made = false;
    for duty in duties.turns.as_slice() {
        if (duty.border || !border) && desk.step(duty.part) {
            made = true;
            hand_on(rt, desk, *duty, duties.outlets.as_slice(), number, boxes);
        }
    }
    made
}

/// Brings the parcels of a part that leave to the workers of their parts.
fn hand_on<P: Planned, S: Part, R: Part, X: Wait>(
    rt: &X,
    desk: &mut Desk<P, S, R>,
    duty: Duty,
    outlets: &[Outlet],
    number: u32,
    boxes: &mut Vec<Endpoint<P>>,
) {
    let end = duty.end.min(outlets.len());
    for outlet in &outlets[duty.first.min(end)..end] {
        if outlet.worker == number {
            desk.carry(outlet.edge, duty.is_segment());
            continue;
        }
        if let Some(parcel) = desk.post(outlet.edge) {
            send_to(rt, boxes, outlet.worker, parcel);
        }
    }
}

/// Sends a parcel to a worker.
fn send_to<P: Planned, X: Wait>(rt: &X, boxes: &mut Vec<Endpoint<P>>, worker: u32, parcel: Parcel)
    requires { IsHonest P.plan parcel }
{
    if let Some(end) = boxes.get_mut(worker as usize) {
        end.send(rt, parcel);
    }
}
