//! The first line of a log that names what a plan lacks.
ghost use Rattle.std.specs.Prelude.{◌≡◌, List, ℕ, IfOk, slice_get};
ghost use Rattle.std.specs.BTreeMap.{get_by};
ghost use Rattle.std.specs.Cmp.Lexicographic.{slice_cmp};
ghost use Rattle.std.specs.Ordering.{nat_cmp};
ghost use Rattle.layout.specs.Sound.{device_names};
ghost use Rattle.frame_table.specs.Devices.{place_of_name};
ghost use Rattle.frame_table.specs.Unplanned.{first_unplanned, is_had, is_planned, is_counted, port_named, ports_had};

use crate::devices::{Places, device_named, named_places};
use crate::history::frame_named;
use collision_log::Body;
use layout::Layout;
use lists::OutOfMemory;
use load_plan::Plan;
use log_meter::{LogLine, LogLines};
use std::alloc::Global;

/// The port that is closed, opened or halted, from 1.
fn port_named(body: &Body) -> Option<u32>
    ensures { result ≡ port_named body.now }
{
    match *body {
        Body::Closed { port } | Body::Opened { port } | Body::Halted { port } => Some(port),
        _ => None,
    }
}

/// Whether a number, where there is one, is from 1 to the most.
fn is_counted(most: usize, number: Option<u32>) -> bool
    ensures { result ≡ is_counted most number }
{
    match number {
        Some(n) => 1 <= n && n as usize <= most,
        None => true,
    }
}

/// How many ports a repeater has, and none where there is no repeater.
fn ports_had(layout: &Layout, repeater: usize) -> usize
    ensures { result ≡ ports_had (slice_get layout.now.repeaters repeater) }
{
    if repeater < layout.repeaters.len() {
        return layout.repeaters.get(repeater).ports.len();
    }
    0
}

/// Whether the device has the frame or the port that is named.
fn is_had(plan: &Plan, k: usize, body: &Body) -> bool
    ensures { result ≡ is_had plan.now k body.now }
{
    let stations = plan.layout.stations.len();
    if k < stations {
        return is_counted(plan.queues.get(k).len() as usize, frame_named(body));
    }
    is_counted(ports_had(&plan.layout, k - stations), port_named(body))
}

/// Whether the plan has the device that a line names, of its kind, and its frame or its port.
fn is_planned<'a>(plan: &Plan, places: &Places<'a>, line: &'a LogLine) -> bool
    requires { (name : List ℕ) → get_by (λ k. slice_cmp nat_cmp name k.now) places.now ≡ place_of_name (device_names plan.now.layout) name }
    ensures { result ≡ is_planned plan.now line.now }
{
    match device_named(&plan.layout, places, line) {
        Some(k) => is_had(plan, k, &line.body),
        None => false,
    }
}

/// The first line of a log, from 1, that names a device which the layout lacks or has as the other kind, a port that
/// the repeater lacks, or a frame beyond the station's queue. The only error is want of memory.
pub fn find_unplanned<'a>(
    alloc: Global,
    plan: &'a Plan,
    lines: &'a LogLines,
) -> Result<Option<u32>, OutOfMemory>
    ensures { IfOk result (λ line. line ≡ first_unplanned plan.now lines.now) }
{
    let places = named_places(alloc, &plan.layout)?;
    let mut number = 1u32;
    for line in lines.as_slice() {
        if !is_planned(plan, &places, line) {
            return Ok(Some(number));
        }
        number = number.checked_add(1).ok_or(OutOfMemory)?;
    }
    Ok(None)
}
