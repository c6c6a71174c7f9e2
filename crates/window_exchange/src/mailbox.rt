//! Boxes and their passes.
ghost use Rattle.std.specs.Prelude.{◌≡◌, ◌<◌, [], ◌∷◌, ◌++◌, IfOk, IfSome, MatchOption};
ghost use Rattle.crossbeam_queue.specs.Passes.{view, IsPassOf, ruled_capacity};
ghost use Rattle.window_exchange.specs.Balance.{name_lists};
ghost use Rattle.window_exchange.specs.MailNames.{parcel_name, IsHonest};

use crate::pauses::Pauses;
use crate::rule::{Again, ParcelRule, Puts, Takes};
use crate::{Lists, Planned};
use crossbeam_queue::{Pass, RuledArrayQueue};
use lists::OutOfMemory;
use net_parts::Parcel;
use std::alloc::Global;
use std::marker::PhantomData;
use std::sync::Wait;

/// A box of parcels for the plan of `P`, which many threads share.
#[derive(Drop)]
pub struct Mailbox<P: Planned> {
    queue: RuledArrayQueue<Parcel, Lists, ParcelRule<P>>,
}

/// What one worker knows of a box: what it put and what it took.
#[derive(Drop)]
pub struct MailPass<P: Planned> {
    pass: Pass<Parcel, Lists>,
    plan: PhantomData<P>,
}

impl<P: Planned> Mailbox<P> {
    /// An empty box with room for so many parcels, and its first pass, which has put and taken nothing.
    pub fn new(alloc: Global, room: u32) -> Result<(Mailbox<P>, MailPass<P>), OutOfMemory>
        requires { 0 < room }
        ensures of { IfOk result (λ r. IsPassOf r.0.queue r.1.pass) }
        ensures room { IfOk result (λ r. ruled_capacity r.0.queue ≡ room) }
        ensures lists { IfOk result (λ r. view r.1.pass ≡ name_lists [] []) }
    {
        match RuledArrayQueue::ruled(alloc, room as usize) {
            Ok((queue, pass)) => Ok((
                Mailbox { queue },
                MailPass {
                    pass,
                    plan: PhantomData,
                },
            )),
            Err(_) => Err(OutOfMemory),
        }
    }

    /// A second pass of this box, made of one that has put and taken nothing, as it hasn't either.
    pub fn split(&self, pass: &mut MailPass<P>) -> MailPass<P>
        requires of { IsPassOf self.now.queue pass.old.pass }
        requires lists { view pass.old.pass ≡ name_lists [] [] }
        ensures of { IsPassOf self.now.queue result.pass × IsPassOf self.now.queue pass.new.pass }
        ensures lists { (view result.pass ≡ name_lists [] []) × (view pass.new.pass ≡ name_lists [] []) }
    {
        MailPass {
            pass: self.queue.another::<Again>(&mut pass.pass),
            plan: PhantomData,
        }
    }

    /// Puts the parcel into the box. While the box is full it tries again, with longer and longer pauses.
    pub fn send<R: Wait>(&self, rt: &R, pass: &mut MailPass<P>, parcel: Parcel)
        requires of { IsPassOf self.now.queue pass.old.pass }
        requires honest { IsHonest P.plan parcel }
        ensures of { IsPassOf self.now.queue pass.new.pass }
        ensures lists { view pass.new.pass ≡ name_lists ((view pass.old.pass).put ++ parcel_name parcel ∷ []) (view pass.old.pass).taken }
    {
        let mut pauses = Pauses::new();
        let mut parcel = parcel;
        for _ in rt.forever() {
            match self.queue.try_push_as::<Puts>(&mut pass.pass, parcel) {
                Ok(()) => return,
                Err(back) => parcel = back,
            }
            pauses.pause(rt);
        }
        unreachable!()
    }

    /// Takes the parcel out of the box that was put there first. While the box is empty it tries again, with longer and
    /// longer pauses.
    pub fn receive<R: Wait>(&self, rt: &R, pass: &mut MailPass<P>) -> Parcel
        requires of { IsPassOf self.now.queue pass.old.pass }
        ensures of { IsPassOf self.now.queue pass.new.pass }
        ensures honest { IsHonest P.plan result }
        ensures lists { view pass.new.pass ≡ name_lists (view pass.old.pass).put ((view pass.old.pass).taken ++ parcel_name result ∷ []) }
    {
        let mut pauses = Pauses::new();
        for _ in rt.forever() {
            if let Some(parcel) = self.try_receive(pass) {
                return parcel;
            }
            pauses.pause(rt);
        }
        unreachable!()
    }

    /// Takes the parcel out of the box that was put there first, or finds the box empty and changes nothing.
    pub fn try_receive(&self, pass: &mut MailPass<P>) -> Option<Parcel>
        requires of { IsPassOf self.now.queue pass.old.pass }
        ensures of { IsPassOf self.now.queue pass.new.pass }
        ensures honest { IfSome result (IsHonest P.plan) }
        ensures lists { MatchOption result (view pass.new.pass ≡ view pass.old.pass) (λ parcel. view pass.new.pass ≡ name_lists (view pass.old.pass).put ((view pass.old.pass).taken ++ parcel_name parcel ∷ [])) }
    {
        self.queue.try_pop_as::<Takes<P>>(&mut pass.pass)
    }
}
