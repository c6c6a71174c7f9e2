//! Boxes with passes of them.
ghost use Rattle.std.specs.Prelude.{◌≡◌, ◌<◌, ◌++◌, ◌∷◌, [], All, AllPairs, IfOk, IfSome, MatchOption, OnOk, length, map};
ghost use Rattle.std.specs.Arc.{arc_value};
ghost use Rattle.crossbeam_queue.specs.Passes.{view, IsPassOf, ruled_capacity};
ghost use Rattle.window_exchange.specs.Balance.{name_lists};
ghost use Rattle.window_exchange.specs.MailNames.{IsHonest, parcel_name};

use lists::OutOfMemory;
use net_parts::Parcel;
use std::alloc::Global;
use std::sync::{Arc, Wait};
use window_exchange::{MailPass, Mailbox, Planned};

/// A box with a pass of it.
#[derive(Drop)]
pub struct Endpoint<P: Planned> {
    mailbox: Arc<Mailbox<P>, Global>,
    pass: MailPass<P>,
    ghost of: { IsPassOf (arc_value mailbox).queue pass.pass },
}

/// A box with a pass of it that has put and taken nothing.
#[derive(Drop)]
struct FreshEndpoint<P: Planned> {
    mailbox: Arc<Mailbox<P>, Global>,
    pass: MailPass<P>,
    ghost of: { IsPassOf (arc_value mailbox).queue pass.pass },
    ghost fresh: { view pass.pass ≡ name_lists [] [] },
}

impl<P: Planned> FreshEndpoint<P> {
    /// A new box with room for so many parcels.
    fn new(alloc: Global, room: u32) -> Result<FreshEndpoint<P>, OutOfMemory>
        requires { 0 < room }
        ensures { IfOk result (λ end. ruled_capacity (arc_value end.mailbox).queue ≡ room) }
    {
        let (mailbox, pass) = Mailbox::new(alloc, room)?;
        let mailbox = Arc::new(alloc, mailbox)?;
        Ok(FreshEndpoint { mailbox, pass })
    }

    /// Another endpoint of this box, whose pass has put and taken nothing.
    fn endpoint(&mut self) -> Result<Endpoint<P>, OutOfMemory>
        ensures mailbox { IfOk result (λ end. arc_value end.mailbox ≡ arc_value self.old.mailbox) }
        ensures lists { IfOk result (λ end. view end.pass.pass ≡ name_lists [] []) }
        ensures kept { arc_value self.new.mailbox ≡ arc_value self.old.mailbox }
    {
        let mailbox = Arc::try_clone(&self.mailbox)?;
        let pass = mailbox.split(&mut self.pass);
        Ok(Endpoint { mailbox, pass })
    }
}

impl<P: Planned> Endpoint<P> {
    /// Puts a parcel into the box.
    pub fn send<X: Wait>(&mut self, rt: &X, parcel: Parcel)
        requires { IsHonest P.plan parcel }
        ensures { view self.new.pass.pass ≡ name_lists ((view self.old.pass.pass).put ++ parcel_name parcel ∷ []) (view self.old.pass.pass).taken }
    {
        self.mailbox.send(rt, &mut self.pass, parcel);
    }

    /// Takes the oldest parcel out of the box, if there is one.
    pub fn try_receive(&mut self) -> Option<Parcel>
        ensures honest { IfSome result (IsHonest P.plan) }
        ensures lists { MatchOption result (view self.new.pass.pass ≡ view self.old.pass.pass) (λ parcel. view self.new.pass.pass ≡ name_lists (view self.old.pass.pass).put ((view self.old.pass.pass).taken ++ parcel_name parcel ∷ [])) }
    {
        self.mailbox.try_receive(&mut self.pass)
    }
}

/// For each of so many workers its endpoints of the boxes of all, in the same order, each box with room for so many
/// parcels. No pass has put or taken anything.
pub fn make_endpoints<P: Planned>(
    alloc: Global,
    workers: u32,
    room: u32,
) -> Result<Vec<Vec<Endpoint<P>>>, OutOfMemory>
    requires { 0 < room }
    ensures rows { IfOk result (λ rows. length rows.items ≡ workers) }
    ensures ends { IfOk result (λ rows. All (λ row. length row.items ≡ workers) rows.items) }
    ensures boxes { IfOk result (λ rows. AllPairs (λ row other. map (λ p. arc_value p.mailbox) row.items ≡ map (λ p. arc_value p.mailbox) other.items) rows.items) }
    ensures lists { IfOk result (λ rows. All (λ row. All (λ p. view p.pass.pass ≡ name_lists [] []) row.items) rows.items) }
{
    let mut boxes: Vec<FreshEndpoint<P>> = Vec::new(alloc);
    for _box in 0..workers {
        boxes.push(FreshEndpoint::new(alloc, room)?)?;
    }
    let mut rows = Vec::new(alloc);
    for _row in 0..workers {
        rows.push(endpoints_to(alloc, &mut boxes)?)?;
    }
    Ok(rows)
}

/// An endpoint of each box, in their order, whose pass has put and taken nothing.
fn endpoints_to<P: Planned>(
    alloc: Global,
    boxes: &mut Vec<FreshEndpoint<P>>,
) -> Result<Vec<Endpoint<P>>, OutOfMemory>
    ensures boxes { IfOk result (λ ends. map (λ p. arc_value p.mailbox) ends.items ≡ map (λ p. arc_value p.mailbox) boxes.old.items) }
    ensures lists { IfOk result (λ ends. All (λ p. view p.pass.pass ≡ name_lists [] []) ends.items) }
    ensures kept { OnOk result (map (λ p. arc_value p.mailbox) boxes.new.items ≡ map (λ p. arc_value p.mailbox) boxes.old.items) }
{
    let mut ends = Vec::new(alloc);
    for fresh in boxes.iter_mut() {
        ends.push(fresh.endpoint()?)?;
    }
    Ok(ends)
}
