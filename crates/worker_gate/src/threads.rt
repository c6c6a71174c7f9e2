//! Workers in threads of their own, and the caller among them.
ghost use Rattle.std.specs.Prelude.{◌≡◌, ◌<◌, ◌≤◌, false, length, true};
ghost use denote.Param.Send.{IsSend};
ghost use Rattle.worker_gate.specs.SteppedShares.{ArePast};

use crate::endpoint::{Endpoint, make_endpoints};
use crate::kit::Kit;
use crate::worker::work;
use lists::OutOfMemory;
use load_plan::Plan;
use net_parts::Part;
use part_dealing::count_edges;
use std::alloc::Global;
use std::sync::Wait;
use std::sync::atomic::{AtomicU64, Ordering};
use std::thread::{JoinHandle, Scope, SpawnError, Threads};
use std::{slice, thread};
use window_exchange::Planned;

/// Makes all windows of a kit, unless no thread could be made for it: then it is as it was.
fn live<P: Planned, S: Part, R: Part, X: Wait>(
    rt: &X,
    kit: Kit<P, S, R>,
    boxes: Vec<Endpoint<P>>,
    is_refused: bool,
) -> Kit<P, S, R>
    ensures done { is_refused ≡ false → ArePast result.windows result.desk.share result.duties.turns.items }
    ensures windows { result.windows ≡ kit.windows }
    ensures duties { result.duties ≡ kit.duties }
    ensures refused { is_refused ≡ true → result ≡ kit }
{
    let mut kit = kit;
    let mut boxes = boxes;
    if !is_refused {
        work(rt, slice::from_mut(&mut kit), &mut boxes);
    }
    kit
}

/// Starts the worker of a kit in a thread of its own. Where no thread can be made the kit comes back.
fn start<'s, E, P: Planned + Send + 's, S: Part + 's, R: Part + 's, X: Wait + Sync>(
    scope: &Scope<'s, E>,
    rt: &'s X,
    kit: Kit<P, S, R>,
    boxes: Vec<Endpoint<P>>,
    refused: &'s AtomicU64,
) -> Result<JoinHandle<Kit<P, S, R>>, Kit<P, S, R>> {
    let number = u64::from(kit.number());
    match scope.spawn(move || -> Kit<P, S, R> {
        let is_refused = refused.load(Ordering::SeqCst) == number;
        live(rt, kit, boxes, is_refused)
    }) {
        Ok(handle) => Ok(handle),
        Err(SpawnError { value: back }) => {
            refused.store(number, Ordering::SeqCst);
            Err(back())
        }
    }
}

/// Starts a worker for each of these kits but that of the caller, whose number is 0. Those for which no thread can be
/// made are the caller's, too.
fn start_all<'s, E, P: Planned + Send + 's, S: Part + 's, R: Part + 's, X: Wait + Sync>(
    scope: &Scope<'s, E>,
    rt: &'s X,
    kits: Vec<Kit<P, S, R>>,
    rows: Vec<Vec<Endpoint<P>>>,
    refused: &'s AtomicU64,
    handles: &mut Vec<JoinHandle<Kit<P, S, R>>>,
    own: &mut Vec<Kit<P, S, R>>,
) {
    let mut rows = rows;
    for kit in kits {
        if kit.number() == 0 {
            let _ = own.push(kit);
            continue;
        }
        let Some(row) = rows.pop() else {
            let _ = own.push(kit);
            continue;
        };
        match start(scope, rt, kit, row, refused) {
            Ok(handle) => {
                let _ = handles.push(handle);
            }
            Err(kit) => {
                let _ = own.push(kit);
            }
        }
    }
}

/// Waits for the workers, and puts their kits to the others.
fn join_all<P: Planned + Send, S: Part, R: Part, X: Threads + Wait>(
    rt: &X,
    handles: Vec<JoinHandle<Kit<P, S, R>>>,
    kits: &mut Vec<Kit<P, S, R>>,
) {
    for handle in handles {
        let _ = kits.push(handle.join(rt));
    }
}

/// Makes all windows of these kits, each in a thread of its own but for the caller's, whose number is 0, and those for
/// which no thread can be made. Answers the kits; what they hold shows when their parts are gathered, since a thread
/// that ends tells no more than a type.
pub(crate) fn run_threads<P: Planned + Send, S: Part, R: Part, X: Threads + Wait + Sync>(
    rt: &X,
    alloc: Global,
    plan: &Plan,
    workers: u32,
    kits: Vec<Kit<P, S, R>>,
) -> Result<Vec<Kit<P, S, R>>, OutOfMemory>
    requires least { 1 ≤ workers }
{
    let room = count_edges(plan) + 1;
    let mut rows = make_endpoints::<P>(alloc, workers, room)?;
    let mine = rows.remove(0);
    let handles = Vec::with_capacity(alloc, rows.len())?;
    let own = Vec::with_capacity(alloc, workers as usize)?;
    let number = AtomicU64::new(0);
    let refused = &number;
    Ok(thread::scope(
        thread::scope_env(),
        rt,
        |scope| -> Vec<Kit<P, S, R>>
            requires crossing { IsSend P.row × IsSend S.row × IsSend R.row }
        {
            let mut mine = mine;
            let mut handles = handles;
            let mut own = own;
            start_all(scope, rt, kits, rows, refused, &mut handles, &mut own);
            work(rt, own.as_mut_slice(), &mut mine);
            join_all(rt, handles, &mut own);
            own
        },
    ))
}
