//! Boxes in use. Each test ends by itself.
ghost use Rattle.std.specs.Prelude.{◌≡◌, ◌<◌, IfSome, Some};
ghost use Rattle.std.specs.Arc.{arc_value};
ghost use Rattle.crossbeam_queue.specs.Passes.{IsPassOf};
ghost use Rattle.window_exchange.specs.MailNames.{IsHonest};

use case_support::plan_of;
use lists::OutOfMemory;
use load_plan::Plan;
use net_parts::{Parcel, Symbols};
use std::alloc::Global;
use std::marker::Brand;
use std::process::Abort;
use std::sync::{Arc, Wait};
use std::test::Fail;
use std::thread;
use std::thread::Threads;
use window_exchange::{MailPass, Mailbox, Planned};

/// A box with a pass of it.
#[derive(Drop)]
struct Endpoint<P: Planned> {
    mailbox: Arc<Mailbox<P>, Global>,
    pass: MailPass<P>,
    ghost of: { IsPassOf (arc_value mailbox).queue pass.pass },
}

impl<P: Planned> Endpoint<P> {
    fn send<R: Wait>(&mut self, rt: &R, parcel: Parcel)
        requires { IsHonest P.plan parcel }
    {
        self.mailbox.send(rt, &mut self.pass, parcel);
    }

    fn receive<R: Wait>(&mut self, rt: &R) -> Parcel
        ensures { IsHonest P.plan result }
    {
        self.mailbox.receive(rt, &mut self.pass)
    }

    fn try_receive(&mut self) -> Option<Parcel>
        ensures { IfSome result (IsHonest P.plan) }
    {
        self.mailbox.try_receive(&mut self.pass)
    }
}

/// Two passes of a new box with so much room.
fn two_ends<P: Planned>(alloc: Global, room: u32) -> Result<(Endpoint<P>, Endpoint<P>), OutOfMemory>
    requires { 0 < room }
{
    let (mailbox, mut first) = Mailbox::new(alloc, room)?;
    let second = mailbox.split(&mut first);
    let mailbox = Arc::new(alloc, mailbox)?;
    let other = Arc::try_clone(&mailbox)?;
    let near = Endpoint {
        mailbox,
        pass: first,
    };
    let far = Endpoint {
        mailbox: other,
        pass: second,
    };
    Ok((near, far))
}

/// A parcel without symbols.
fn parcel(alloc: Global, edge: u32, spoiled: bool) -> Parcel
    ensures { result.spoiled ≡ spoiled }
{
    Parcel {
        edge,
        window: 7,
        to_repeater: true,
        symbols: Symbols::none(alloc),
        spoiled,
    }
}

/// This is the next parcel, and it is of this edge.
fn is_parcel<R: Abort>(rt: &R, parcel: &Parcel, edge: u32, spoiled: bool) {
    let name = (
        parcel.edge,
        parcel.window,
        parcel.to_repeater,
        parcel.spoiled,
    );
    assert_eq!(rt; name, (edge, 7, true, spoiled));
    assert_eq!(rt; parcel.symbols.len(), 0);
}

/// The next parcel is of this edge.
fn comes<P: Planned, R: Wait + Abort>(rt: &R, end: &mut Endpoint<P>, edge: u32, spoiled: bool) {
    is_parcel(rt, &end.receive(rt), edge, spoiled);
}

/// One segment with nothing on it.
const ONE_SEGMENT: &str = "format = 1\nseed = 1\nuntil_bits = 1\nsegment = [{ name = \"x\" }]\n";

/// Two spoiled parcels go through a box for a plan, which is empty before and after.
fn two_parcels<P: Planned, R: Wait + Abort>(
    rt: &R,
    alloc: Global,
    plan: &Plan,
) -> Result<(), OutOfMemory>
    requires { Some plan.now ≡ P.plan }
{
    let (mut near, mut far) = two_ends::<P>(alloc, 2)?;
    assert!(rt; far.try_receive().is_none());
    near.send(rt, parcel(alloc, 3, true));
    near.send(rt, parcel(alloc, 5, true));
    comes(rt, &mut far, 3, true);
    match far.try_receive() {
        Some(next) => is_parcel(rt, &next, 5, true),
        None => panic!(rt; "an empty box"),
    }
    assert!(rt; far.try_receive().is_none());
    Ok(())
}

/// What is sent to a box comes out in order, and is of its plan.
#[test]
fn parcels_come_in_order(rt: HostRuntime) -> Result<(), Fail> {
    let plan = plan_of(rt.alloc(), ONE_SEGMENT)?;
    Ok(two_parcels::<Brand, HostRuntime>(&rt, rt.alloc(), &plan)?)
}

/// One pass of a box that takes what it put itself, and then what the other one put.
#[test]
fn two_passes_share_a_box(rt: HostRuntime) -> Result<(), OutOfMemory> {
    let alloc = rt.alloc();
    let (mut near, mut far) = two_ends::<Brand>(alloc, 3)?;
    near.send(&rt, parcel(alloc, 0, false));
    far.send(&rt, parcel(alloc, 1, false));
    near.send(&rt, parcel(alloc, 2, true));
    comes(&rt, &mut near, 0, false);
    comes(&rt, &mut near, 1, false);
    comes(&rt, &mut far, 2, true);
    Ok(())
}

/// How many parcels go through the full box.
const MANY: u32 = 100;

fn send_many<R: Wait>(rt: &R, alloc: Global, end: &mut Endpoint<Brand>) {
    for edge in 0..MANY {
        end.send(rt, parcel(alloc, edge, false));
    }
}

fn receive_many<R: Wait + Abort>(rt: &R, end: &mut Endpoint<Brand>) {
    for edge in 0..MANY {
        comes(rt, end, edge, false);
    }
}

/// A thread sends through a box of one place, and waits while it is full. Where no thread can be made nothing is sent.
fn through_a_full_box<R: Threads + Wait + Abort + Sync>(
    rt: &R,
    alloc: Global,
) -> Result<(), OutOfMemory> {
    let (near, far) = two_ends::<Brand>(alloc, 1)?;
    thread::scope(thread::scope_env(), rt, |scope| {
        let mut near = near;
        let mut far = far;
        if let Ok(child) = scope.spawn(move || send_many(rt, alloc, &mut far)) {
            receive_many(rt, &mut near);
            child.join(rt);
        }
    });
    Ok(())
}

#[test]
fn a_full_box_waits(rt: HostRuntime) -> Result<(), OutOfMemory> {
    through_a_full_box(&rt, rt.alloc())
}
