//! Which worker gets which part: parts are dealt along a walk of the tree, in runs of about equal work.
ghost use Rattle.std.specs.Prelude.{◌≡◌, ◌≢◌, ◌<◌, ◌≤◌, ◌+◌, ◌==◌, ◌↔◌, true, All, Any, IfOk, IsTrue, count_by, length, map, slice_index_or};
ghost use Rattle.net_parts.specs.Boards.{has_edge};
ghost use Rattle.part_dealing.specs.OtherEnds.{GoesToOwner, IsOtherEnd};
ghost use Rattle.layout.specs.declared.lines.PortLine.{PortLine};
ghost use Rattle.net_parts.specs.Parts.{edges_of_part, parts};
ghost use Rattle.net_parts.specs.RepeaterParts.{edges_before};
ghost use Rattle.part_dealing.specs.declared.dealing.Outlet.{Outlet};

use layout::{Layout, PortLine};
use lists::OutOfMemory;
use load_plan::Plan;
use net_parts::edges_of;
use std::alloc::Global;

/// The number of an edge and that of the worker to which its parcel goes from a part.
#[derive(Clone, Copy)]
pub struct Outlet {
    pub edge: u32,
    pub worker: u32,
}

/// For each part of so many workers that which gets it.
pub fn owners(alloc: Global, layout: &Layout, workers: u32) -> Result<Vec<u32>, OutOfMemory>
    ensures parts { IfOk result (λ owners. length owners.items ≡ length layout.now.segments + length layout.now.repeaters) }
    ensures workers { 0 < workers → IfOk result (λ owners. All (λ w. w < workers) owners.items) }
{
    let segments = layout.segments.as_slice();
    let repeaters = layout.repeaters.as_slice();
    let parts = segments.len() + repeaters.len();
    let order = walk(alloc, layout)?;
    let total = work_of_all(layout, order.as_slice());
    let mut owners = vec![in alloc; 0u32; parts]?;
    let mut before = 0u64;
    for part in order {
        let work = work_of(layout, part);
        if part < owners.len() {
            owners[part] = worker_at(before, work, total, workers);
        }
        before = before.saturating_add(work);
    }
    Ok(owners)
}

/// About how much work these parts have together.
fn work_of_all(layout: &Layout, parts: &[usize]) -> u64 {
    let mut total = 0u64;
    for part in parts {
        total = total.saturating_add(work_of(layout, *part));
    }
    total
}

/// Which of so many workers gets the part with so much work before it, of that total: it goes by the part's middle.
fn worker_at(before: u64, work: u64, total: u64, workers: u32) -> u32
    ensures { 0 < workers → result < workers }
{
    let middle = before.saturating_mul(2).saturating_add(work);
    let whole = total.saturating_mul(2);
    if whole == 0 {
        return 0;
    }
    let worker = u32::try_from(middle.saturating_mul(u64::from(workers)) / whole).unwrap_or(0);
    worker.min(workers.saturating_sub(1))
}

/// All parts, those of a tree in the order of a walk from the first segment on.
fn walk(alloc: Global, layout: &Layout) -> Result<Vec<usize>, OutOfMemory> {
    let parts = layout.segments.len().saturating_add(layout.repeaters.len());
    let mut seen = vec![in alloc; false; parts]?;
    let mut rest = Vec::new(alloc);
    let mut order = Vec::new(alloc);
    for first in 0..parts {
        visit(&mut seen, &mut rest, first)?;
        for _part in 0..parts {
            let Some(part) = rest.pop() else {
                break;
            };
            order.push(part)?;
            visit_beside(layout, part, &mut seen, &mut rest)?;
        }
    }
    Ok(order)
}

/// Puts a part behind the rest to be visited, if it wasn't seen yet.
fn visit(seen: &mut Vec<bool>, rest: &mut Vec<usize>, part: usize) -> Result<(), OutOfMemory> {
    if part < seen.len() && !seen[part] {
        seen[part] = true;
        rest.push(part)?;
    }
    Ok(())
}

/// Visits the parts that have an edge with this one.
fn visit_beside(
    layout: &Layout,
    part: usize,
    seen: &mut Vec<bool>,
    rest: &mut Vec<usize>,
) -> Result<(), OutOfMemory> {
    let segments = layout.segments.len();
    let repeaters = layout.repeaters.as_slice();
    if part >= segments {
        if part - segments < repeaters.len() {
            for port in repeaters[part - segments].ports.as_slice() {
                visit(seen, rest, port.segment as usize)?;
            }
        }
        return Ok(());
    }
    for (k, repeater) in repeaters.iter().enumerate() {
        if ports_on(repeater.ports.as_slice(), part) > 0 {
            visit(seen, rest, segments.saturating_add(k))?;
        }
    }
    Ok(())
}

/// How many of the ports are on a segment.
fn ports_on(ports: &[PortLine], segment: usize) -> u64
    ensures { result ≡ count_by (λ (p : PortLine). p.segment == segment) ports.now }
{
    ports
        .iter()
        .filter(|p| p.segment as usize == segment)
        .count() as u64
}

/// About how much work a part has: its taps and one more.
fn work_of(layout: &Layout, part: usize) -> u64 {
    let segments = layout.segments.len();
    let repeaters = layout.repeaters.as_slice();
    if part >= segments {
        if part - segments < repeaters.len() {
            return (repeaters[part - segments].ports.len() as u64).saturating_add(1);
        }
        return 1;
    }
    let stations = layout.stations.as_slice();
    let mut work = 1u64;
    for station in stations {
        if station.segment as usize == part {
            work = work.saturating_add(1);
        }
    }
    for repeater in repeaters {
        work = work.saturating_add(ports_on(repeater.ports.as_slice(), part));
    }
    work
}

/// How many edges there are.
pub fn count_edges(plan: &Plan) -> u32
    ensures value { result ≡ edges_before plan.now.layout.repeaters (length plan.now.layout.repeaters) }
    ensures few { result ≤ 4096 }
{
    let repeaters = plan.layout.repeaters.as_slice();
    let mut count = 0u32;
    for repeater in repeaters {
        count += repeater.ports.len() as u32;
    }
    count
}

/// The edges of a part, each with the worker that has the part at its other end.
pub fn outlets_of(
    alloc: Global,
    plan: &Plan,
    owners: &[u32],
    part: u32,
) -> Result<Vec<Outlet>, OutOfMemory>
    requires { part < parts plan.now }
    ensures edges { IfOk result (λ outlets. map (λ (o : Outlet). o.edge) outlets.items ≡ edges_of_part plan.now part) }
    ensures workers { IfOk result (λ outlets. All (GoesToOwner plan.now owners.now part) outlets.items) }
{
    let list = edges_of(alloc, plan, part)?;
    let edges = list.as_slice();
    let mut outlets = Vec::new(alloc);
    for edge in edges {
        let end = other_end(plan, part as usize, *edge as usize);
        let worker = owner_of(owners, end);
        outlets.push(Outlet {
            edge: *edge,
            worker,
        })?;
    }
    Ok(outlets)
}

/// Whether one of these edges leads to another worker than this one.
pub fn leads_out(outlets: &[Outlet], worker: u32) -> bool
    ensures { IsTrue result ↔ Any (λ (o : Outlet). o.worker ≢ worker) outlets.now }
{
    outlets.iter().any(|outlet| outlet.worker != worker)
}

/// The part at the other end of an edge of this part: the repeater of the edge's port, or the segment on which the port
/// is.
pub fn other_end(plan: &Plan, part: usize, edge: usize) -> usize
    requires { has_edge (edges_of_part plan.now part) edge ≡ true }
    ensures { IsOtherEnd plan.now part edge result }
{
    let segments = plan.layout.segments.len();
    let repeaters = plan.layout.repeaters.as_slice();
    let mut first = 0usize;
    for k in 0..repeaters.len() {
        let ports = repeaters[k].ports.as_slice();
        if edge - first < ports.len() {
            if part < segments {
                return segments + k;
            }
            return ports[edge - first].segment as usize;
        }
        first += ports.len();
    }
    unreachable!()
}

/// The worker that has a part, and the first where none has it.
pub fn owner_of(owners: &[u32], part: usize) -> u32
    ensures { result ≡ slice_index_or owners.now part 0 }
{
    if part < owners.len() { owners[part] } else { 0 }
}
