//! The devices that the lines of a log name.
ghost use Rattle.std.specs.Prelude.{◌≡◌, ◌<◌, ◌+◌, ℕ, List, IfOk, IfSome, OnOk, [], ◌∷◌, ◌++◌, length, map, slice_index_or, slice_set};
ghost use Rattle.layout.specs.Sound.{IsSound, device_names};
ghost use Rattle.frame_table.specs.Devices.{HasPlaces, device_named, events_of, events_with, of_kind};

use crate::events::{Event, Events};
use layout::Layout;
use lists::OutOfMemory;
use log_meter::LogLine;
use std::alloc::Global;
use std::collections::BTreeMap;

/// The devices by their names.
pub type Places<'a> = BTreeMap<&'a str, usize>;

/// The names of the stations, then of the repeaters.
fn device_names(alloc: Global, layout: &Layout) -> Result<Vec<&str>, OutOfMemory>
    ensures { IfOk result (λ names. map (λ name. name.now) names.items ≡ device_names layout.now) }
{
    let mut names = Vec::new(alloc);
    for station in layout.stations.as_slice() {
        names.push(station.name.as_str())?;
    }
    for repeater in layout.repeaters.as_slice() {
        names.push(repeater.name.as_str())?;
    }
    Ok(names)
}

/// The devices by their names; of one name the first.
fn places_of<'a>(alloc: Global, names: &[&'a str]) -> Result<Places<'a>, OutOfMemory>
    ensures { IfOk result (HasPlaces (map (λ n. n.now) names.now)) }
{
    let mut places = BTreeMap::new(alloc);
    let mut i = names.len();
    while i > 0 {
        i -= 1;
        places.insert(names[i], i)?;
    }
    Ok(places)
}

/// The devices of a layout by their names.
pub fn named_places(alloc: Global, layout: &Layout) -> Result<Places<'_>, OutOfMemory>
    ensures { IfOk result (HasPlaces (device_names layout.now)) }
{
    let names = device_names(alloc, layout)?;
    places_of(alloc, names.as_slice())
}

/// The device with this number, where it is a repeater or none, as is said.
fn of_kind(stations: usize, repeater: bool, place: Option<usize>) -> Option<usize>
    ensures { result ≡ of_kind stations repeater place }
{
    let k = place?;
    let fits = if repeater {
        stations <= k
    } else {
        k < stations
    };
    if fits { Some(k) } else { None }
}

/// The device that a line names.
pub fn device_named<'a>(layout: &Layout, places: &Places<'a>, line: &'a LogLine) -> Option<usize>
    requires { HasPlaces (device_names layout.now) places.now }
    ensures { result ≡ device_named layout.now line.now }
{
    let place = places.get(&line.name.as_str()).copied();
    of_kind(layout.stations.len(), line.repeater, place)
}

/// Nothing has happened at so many devices.
fn nothing(alloc: Global, count: usize) -> Result<Vec<Events>, OutOfMemory>
    ensures count { IfOk result (λ events. length events.items ≡ count) }
    ensures empty { IfOk result (λ events. (k : ℕ) → slice_index_or events.items k [] ≡ []) }
{
    let mut events = Vec::new(alloc);
    for _k in 0..count {
        events.push(Events::new(alloc))?;
    }
    Ok(events)
}

/// Puts an event at the end of those of a device, where there is one.
fn note(events: &mut [Events], device: Option<usize>, event: Event) -> Result<(), OutOfMemory>
    ensures { OnOk result (events.new ≡ events_with events.old device event) }
{
    let Some(k) = device else {
        return Ok(());
    };
    if k < events.len() {
        events[k].push(event)?;
    }
    Ok(())
}

/// Puts what each line tells of its device at the end of the events of that device.
fn note_all<'a>(
    events: &mut [Events],
    layout: &Layout,
    places: &Places<'a>,
    lines: &'a [LogLine],
) -> Result<(), OutOfMemory>
    requires places { HasPlaces (device_names layout.now) places.now }
    requires empty { (k : ℕ) → slice_index_or events.old k [] ≡ [] }
    ensures { OnOk result ((k : ℕ) → k < length events.old →
        slice_index_or events.new k [] ≡ events_of layout.now k lines.now) }
{
    for line in lines {
        let event = Event {
            t: line.t,
            body: line.body,
        };
        note(events, device_named(layout, places, line), event)?;
    }
    Ok(())
}

/// What the lines of a log tell of each device.
pub fn events_by_device<'a>(
    alloc: Global,
    layout: &'a Layout,
    lines: &'a [LogLine],
) -> Result<Vec<Events>, OutOfMemory>
    requires { IsSound layout.now }
    ensures count { IfOk result (λ events.
        length events.items ≡ length layout.now.stations + length layout.now.repeaters) }
    ensures each { IfOk result (λ events. (k : ℕ) →
        k < length layout.now.stations + length layout.now.repeaters →
        slice_index_or events.items k [] ≡ events_of layout.now k lines.now) }
{
    let places = named_places(alloc, layout)?;
    let mut events = nothing(alloc, layout.stations.len() + layout.repeaters.len())?;
    note_all(events.as_mut_slice(), layout, &places, lines)?;
    Ok(events)
}
