//! What a worker does.
ghost use Rattle.std.specs.Prelude.{◌≡◌, ◌↔◌, All, IsTrue, map};
ghost use Rattle.worker_gate.specs.SteppedShares.{ArePast};

use crate::endpoint::Endpoint;
use crate::kit::Kit;
use net_parts::Part;
use std::sync::Wait;
use window_exchange::{Pauses, Planned};

/// Makes all windows of these kits: once it returns, each of their parts has them, or was given up for them. It looks for
/// parcels before each turn, so that no part waits for one that is here.
pub fn work<P: Planned, S: Part, R: Part, X: Wait>(
    rt: &X,
    kits: &mut [Kit<P, S, R>],
    boxes: &mut Vec<Endpoint<P>>,
)
    ensures done { All (λ kit. ArePast kit.windows kit.desk.share kit.duties.turns.items) kits.new }
    ensures windows { map (λ kit. kit.windows) kits.new ≡ map (λ kit. kit.windows) kits.old }
    ensures duties { map (λ kit. kit.duties) kits.new ≡ map (λ kit. kit.duties) kits.old }
{
    for _ in rt.forever() {
        take_all(kits, boxes);
        if !turn_all(rt, kits, boxes) {
            if are_done(kits) {
                return;
            }
            wait(rt, kits, boxes);
        }
    }
    unreachable!()
}

/// Makes one window of each part of these kits whose parcels are here, and hands its parcels on. Says whether it made
/// one.
fn turn_all<P: Planned, S: Part, R: Part, X: Wait>(
    rt: &X,
    kits: &mut [Kit<P, S, R>],
    boxes: &mut Vec<Endpoint<P>>,
) -> bool
    ensures windows { map (λ kit. kit.windows) kits.new ≡ map (λ kit. kit.windows) kits.old }
    ensures duties { map (λ kit. kit.duties) kits.new ≡ map (λ kit. kit.duties) kits.old }
{
    let mut made = false;
    for kit in kits.iter_mut() {
        let goes = kit.turn(rt, boxes);
        made = made || goes;
    }
    made
}

/// Whether all windows of all parts of these kits are made, or the parts were given up for them.
fn are_done<P: Planned, S: Part, R: Part>(kits: &[Kit<P, S, R>]) -> bool
    ensures { IsTrue result ↔ All (λ kit. ArePast kit.windows kit.desk.share kit.duties.turns.items) kits.now }
{
    kits.iter().all(|kit| kit.is_done())
}

/// Waits until parcels came for these kits, and puts them to their parts.
fn wait<P: Planned, S: Part, R: Part, X: Wait>(
    rt: &X,
    kits: &mut [Kit<P, S, R>],
    boxes: &mut Vec<Endpoint<P>>,
)
    ensures windows { map (λ kit. kit.windows) kits.new ≡ map (λ kit. kit.windows) kits.old }
    ensures duties { map (λ kit. kit.duties) kits.new ≡ map (λ kit. kit.duties) kits.old }
{
    let mut pauses = Pauses::new();
    for _ in rt.forever() {
        if take_all(kits, boxes) {
            return;
        }
        pauses.pause(rt);
    }
    unreachable!()
}

/// Puts all parcels in the boxes of these kits to their parts. Says whether there was one.
fn take_all<P: Planned, S: Part, R: Part>(
    kits: &mut [Kit<P, S, R>],
    boxes: &mut Vec<Endpoint<P>>,
) -> bool
    ensures windows { map (λ kit. kit.windows) kits.new ≡ map (λ kit. kit.windows) kits.old }
    ensures duties { map (λ kit. kit.duties) kits.new ≡ map (λ kit. kit.duties) kits.old }
{
    let mut came = false;
    for kit in kits.iter_mut() {
        let comes = kit.take_all(boxes);
        came = came || comes;
    }
    came
}
