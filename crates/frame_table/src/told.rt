//! What a log tells of receptions and of ports.
ghost use Rattle.std.specs.Prelude.{◌≡◌, ◌<◌, ◌≤◌, ◌+◌, ◌^◌, ℕ, List, [], IfOk, length, slice_index_or};
ghost use Rattle.layout.specs.Sound.{IsSound};
ghost use Rattle.log_meter.specs.declared.line.LogLine.{LogLine};
ghost use Rattle.frame_table.specs.Devices.{RisesFrom, events_of};
ghost use Rattle.frame_table.specs.Ports.{changes_of};
ghost use Rattle.frame_table.specs.Receptions.{AreReceptions};
ghost use Rattle.frame_table.specs.Told.{AreChanges, AreOrdered, IsToldByLines, changes_at, items_of, receptions_at};

use crate::events::{Event, Events};
use crate::ports::{Change, Changes, changes_of};
use crate::receptions::{Reception, sorted_receptions};
use layout::Layout;
use lists::{List, OutOfMemory};
use std::alloc::Global;

/// The receptions of each station in order, and the changes of each port of each repeater.
#[derive(Drop)]
pub struct ToldByLog {
    pub receptions: Vec<Vec<Reception>>,
    pub ports: Vec<List<Changes>>,
}

/// The changes of so many ports of a repeater, by its events.
fn ports_of(alloc: Global, count: usize, events: &[Event]) -> Result<List<Changes>, OutOfMemory>
    requires { count < 2 ^ 32 }
    ensures count { IfOk result (λ ports. length ports ≡ count) }
    ensures each { IfOk result (λ ports. (p : ℕ) → p < count → slice_index_or ports p [] ≡ changes_of (p + 1) events.now) }
{
    let mut ports = List::new(alloc);
    for p in 0..count {
        ports.push(changes_of(alloc, p as u32 + 1, events)?)?;
    }
    Ok(ports)
}

/// The receptions of so many stations in order, by the events of all devices.
fn all_receptions(
    alloc: Global,
    stations: usize,
    events: &[Events],
) -> Result<Vec<Vec<Reception>>, OutOfMemory>
    requires { stations ≤ length events.now }
    ensures count { IfOk result (λ rs. length rs.items ≡ stations) }
    ensures each { IfOk result (λ rs. (k : ℕ) → k < stations → AreReceptions (slice_index_or events.now k []) (receptions_at rs.items k)) }
{
    let mut receptions = Vec::new(alloc);
    for k in 0..stations {
        receptions.push(sorted_receptions(alloc, events[k].as_slice())?)?;
    }
    Ok(receptions)
}

/// The changes of the ports of all repeaters, by the events of all devices.
fn all_ports(
    alloc: Global,
    layout: &Layout,
    events: &[Events],
) -> Result<Vec<List<Changes>>, OutOfMemory>
    requires sound { IsSound layout.now }
    requires events { length layout.now.stations + length layout.now.repeaters ≤ length events.now }
    ensures { IfOk result (AreChanges layout.now events.now) }
{
    let stations = layout.stations.len();
    let mut ports = Vec::new(alloc);
    for r in 0..layout.repeaters.len() {
        let count = layout.repeaters.get(r).ports.len();
        ports.push(ports_of(alloc, count, events[stations + r].as_slice())?)?;
    }
    Ok(ports)
}

/// What the events of all devices tell of receptions and of ports.
pub fn told_by(alloc: Global, layout: &Layout, events: &[Events]) -> Result<ToldByLog, OutOfMemory>
    requires sound { IsSound layout.now }
    requires events { length layout.now.stations + length layout.now.repeaters ≤ length events.now }
    requires order { (k : ℕ) → RisesFrom (λ e. e.t) 0 (slice_index_or events.now k []) }
    ensures told { IfOk result (λ told. (lines : List LogLine) →
        ((k : ℕ) → k < length layout.now.stations + length layout.now.repeaters → slice_index_or events.now k [] ≡ events_of layout.now k lines) →
        IsToldByLines layout.now lines told) }
    ensures order { IfOk result AreOrdered }
{
    Ok(ToldByLog {
        receptions: all_receptions(alloc, layout.stations.len(), events)?,
        ports: all_ports(alloc, layout, events)?,
    })
}

impl ToldByLog {
    ghost use Rattle.std.specs.Prelude.{◌≡◌};
    ghost use Rattle.frame_table.specs.Told.{changes_at, receptions_at};

    /// The changes of a port of a repeater, both from 0.
    pub fn changes(&self, repeater: u32, port: u32) -> &[Change]
        ensures { result.now ≡ changes_at self.now.ports.items repeater port }
    {
        if repeater as usize >= self.ports.len() {
            return &[];
        }
        let ports = &self.ports[repeater as usize];
        if port as usize >= ports.len() {
            return &[];
        }
        ports.get(port as usize).as_slice()
    }

    /// The receptions of a station, from 0, in order.
    pub fn receptions(&self, station: usize) -> &[Reception]
        ensures { result.now ≡ receptions_at self.now.receptions.items station }
    {
        if station >= self.receptions.len() {
            return &[];
        }
        self.receptions[station].as_slice()
    }
}
