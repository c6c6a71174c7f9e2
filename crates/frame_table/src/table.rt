//! The whole table.
ghost use Rattle.std.specs.Prelude.{◌≡◌, ◌<◌, ◌+◌, ◌++◌, ℕ, List, IfOk, None, OnOk, Some, length, slice_get, slice_index_or};
ghost use Rattle.layout.specs.Paths.{Path};
ghost use Rattle.layout.specs.declared.lines.StationLine.{StationLine};
ghost use Rattle.log_meter.specs.Logs.{IsLog};
ghost use Rattle.log_meter.specs.declared.line.LogLine.{LogLine};
ghost use Rattle.frame_layout.specs.declared.queue.Ready.{Ready};
ghost use Rattle.path_checker.specs.Stops.{IsNetworkOf};
ghost use Rattle.frame_table.specs.Devices.{events_of};
ghost use Rattle.frame_table.specs.Histories.{history};
ghost use Rattle.frame_table.specs.Tables.{IsFrameTable, table_header, line_of_frame, lines_of_frames};
ghost use Rattle.frame_table.specs.Told.{AreKnown, AreOrdered, IsToldByLines};
ghost use Rattle.frame_table.specs.Unplanned.{first_unplanned};
ghost use Rattle.frame_table.specs.Ways.{AreRoutes};
ghost use Rattle.frame_table.specs.declared.history.History.{History};

use crate::devices::events_by_device;
use crate::events::Event;
use crate::history::{History, histories};
use crate::lines::add_line;
use crate::reach::reach_of;
use crate::routes::{Led, routes_from};
use crate::told::{ToldByLog, told_by};
use lists::{List, OutOfMemory};
use load_plan::Plan;
use log_meter::LogLines;
use path_checker::{Network, network_of};
use std::alloc::Global;

/// The names of the fields.
const HEADER: &[u8] =
    b"station,frame,octets,ready,first,start,end,attempts,outcome,reached,missed\n";

/// Puts the line of frame `n` of station `a`, which counts from 0 here, at the end of a text.
fn add_frame(
    text: &mut List<u8>,
    plan: &Plan,
    told: &ToldByLog,
    a: usize,
    n: u32,
    past: &History,
    routes: &[Option<Led>],
) -> Result<(), OutOfMemory>
    requires order { AreOrdered told.now }
    requires station { a < length plan.now.layout.stations }
    requires frame { (q : List Ready) → slice_get plan.now.queues a ≡ Some q → n < length q }
    ensures { OnOk result ((lines : List LogLine) (paths : ℕ → ℕ → Path) (s : StationLine) (q : List Ready)
        (r : Ready) →
        AreKnown plan.now.layout lines paths told.now a routes.now → slice_get plan.now.layout.stations a ≡ Some s →
        slice_get plan.now.queues a ≡ Some q → slice_get q n ≡ Some r →
        past.now ≡ history (n + 1) (events_of plan.now.layout a lines) →
        text.new ≡ text.old ++ line_of_frame plan.now paths lines a s.name (n + 1) r) }
{
    let ready = plan.queues.get(a).get(n);
    let half_bits = plan.layout.half_bits();
    let octets = ready.frame.octets().len() as u32;
    let reach = reach_of(told, half_bits, octets, a, routes, past.end)?;
    let name = plan.layout.stations.get(a).name.as_str();
    add_line(text, name, u64::from(n) + 1, ready, past, reach)
}

/// Puts the lines of the frames of station `a` at the end of a text.
fn add_frames(
    text: &mut List<u8>,
    plan: &Plan,
    told: &ToldByLog,
    a: usize,
    histories: &[History],
    routes: &[Option<Led>],
) -> Result<(), OutOfMemory>
    requires order { AreOrdered told.now }
    requires station { a < length plan.now.layout.stations }
    requires histories { (q : List Ready) → slice_get plan.now.queues a ≡ Some q → length histories.now ≡ length q }
    ensures { OnOk result ((lines : List LogLine) (paths : ℕ → ℕ → Path) (s : StationLine) (q : List Ready) →
        AreKnown plan.now.layout lines paths told.now a routes.now → slice_get plan.now.layout.stations a ≡ Some s →
        slice_get plan.now.queues a ≡ Some q →
        ((k : ℕ) (d : History) → k < length histories.now →
        slice_index_or histories.now k d ≡ history (k + 1) (events_of plan.now.layout a lines)) →
        text.new ≡ text.old ++ lines_of_frames plan.now paths lines a s.name 1 q) }
{
    let count = plan.queues.get(a).len();
    for n in 0..count {
        add_frame(text, plan, told, a, n, &histories[n as usize], routes)?;
    }
    Ok(())
}

/// Puts the lines of station `a`, at which this happened, at the end of a text.
fn add_station(
    alloc: Global,
    text: &mut List<u8>,
    plan: &Plan,
    network: &Network,
    told: &ToldByLog,
    a: usize,
    events: &[Event],
) -> Result<(), OutOfMemory>
    requires network { IsNetworkOf plan.now.layout network.now }
    requires order { AreOrdered told.now }
    requires station { a < length plan.now.layout.stations }
    ensures { OnOk result ((lines : List LogLine) (paths : ℕ → ℕ → Path) (s : StationLine) (q : List Ready) →
        IsToldByLines plan.now.layout lines told.now → AreRoutes plan.now.layout paths →
        events.now ≡ events_of plan.now.layout a lines →
        slice_get plan.now.layout.stations a ≡ Some s → slice_get plan.now.queues a ≡ Some q →
        text.new ≡ text.old ++ lines_of_frames plan.now paths lines a s.name 1 q) }
{
    let count = plan.queues.get(a).len() as usize;
    let histories = histories(alloc, count, events)?;
    let routes = routes_from(alloc, &plan.layout, network, a as u32)?;
    add_frames(text, plan, told, a, histories.as_slice(), routes.as_slice())
}

/// The table of all frames that the stations of a plan have to send, by the log of a run that was read: for each frame
/// when it was ready, when its first and its last attempt began, when it ended and how, and how many other stations it
/// reached and missed. The only error is want of memory.
pub fn frames(alloc: Global, plan: &Plan, lines: &LogLines) -> Result<List<u8>, OutOfMemory>
    requires log { IsLog lines.now }
    requires planned { first_unplanned plan.now lines.now ≡ None }
    ensures { IfOk result (λ text. IsFrameTable plan.now lines.now text) }
{
    let events = events_by_device(alloc, &plan.layout, lines.as_slice())?;
    let told = told_by(alloc, &plan.layout, events.as_slice())?;
    let network = network_of(alloc, &plan.layout)?;
    let mut text = List::new(alloc);
    text.extend(HEADER)?;
    for a in 0..plan.layout.stations.len() {
        add_station(
            alloc,
            &mut text,
            plan,
            &network,
            &told,
            a,
            events[a].as_slice(),
        )?;
    }
    Ok(text)
}
