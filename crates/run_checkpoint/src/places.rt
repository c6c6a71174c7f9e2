//! Devices and ports by their names.
ghost use Rattle.std.specs.Prelude.{◌≡◌, ◌<◌, ◌^◌, ◌+◌, ◌-◌, IfOk, OnOk, map, length, ◌++◌};
ghost use Rattle.layout.specs.Sound.{IsSound};
ghost use Rattle.text_fields.specs.Reading.{IsReading};
ghost use Rattle.run_checkpoint.specs.Places.{all_ports, device_of_line, device_from, ports_named};
ghost use Rattle.run_checkpoint.specs.PortNames.{named_port};

use layout::{Layout, RepeaterLine, StationLine};
use lists::OutOfMemory;
use log_meter::LogLine;
use std::alloc::Global;

/// A port: the name of its repeater, and its number, from 1.
#[derive(Clone, Copy)]
pub struct PortName<'a> {
    pub name: &'a str,
    pub port: u32,
}

/// The station of this name.
fn station_named(stations: &[StationLine], name: &[u8]) -> Option<u32>
    requires { length stations.now < 2 ^ 32 }
    ensures { IsReading (λ k. k) result (device_from 0 name.now (map (λ s. s.name) stations.now)) }
{
    'stations: for k in 0..stations.len() {
        if stations[k].name.as_str().as_bytes() == name {
            return Some(k as u32);
        }
    }
    None
}

/// The repeater of this name, where so many stations come before the repeaters.
fn repeater_named(before: usize, repeaters: &[RepeaterLine], name: &[u8]) -> Option<u32>
    requires { before + length repeaters.now < 2 ^ 32 }
    ensures { IsReading (λ k. k) result (device_from before name.now (map (λ r. r.name) repeaters.now)) }
{
    'repeaters: for k in 0..repeaters.len() {
        if repeaters[k].name.as_str().as_bytes() == name {
            return Some((before + k) as u32);
        }
    }
    None
}

/// The device of a log's line.
#[tactic(auto, unfolding(crate::specs::Places::device_of_line))]
pub fn device_of(layout: &Layout, line: &LogLine) -> Option<u32>
    requires { length layout.now.stations + length layout.now.repeaters < 2 ^ 32 }
    ensures { IsReading (λ k. k) result (device_of_line layout.now line.now) }
{
    let stations = layout.stations.as_slice();
    let name = line.name.as_str().as_bytes();
    if line.repeater {
        return repeater_named(stations.len(), layout.repeaters.as_slice(), name);
    }
    station_named(stations, name)
}

/// Puts the ports of a repeater at the end.
#[tactic(auto, using(crate::proofs::PortsPushed::port_pushed))]
fn add_ports<'a>(
    ports: &mut Vec<PortName<'a>>,
    repeater: &'a RepeaterLine,
) -> Result<(), OutOfMemory>
    requires { length repeater.now.ports < 2 ^ 32 - 1 }
    ensures { OnOk result (map named_port ports.new.items ≡ map named_port ports.old.items ++ ports_named repeater.now.name (length repeater.now.ports)) }
{
    let name = repeater.name.as_str();
    'ports: for p in 0..repeater.ports.len() {
        let port = p as u32 + 1;
        ports.push(PortName { name, port })?;
    }
    Ok(())
}

/// The ports of a layout, in the order of its repeaters.
pub fn all_ports(alloc: Global, layout: &Layout) -> Result<Vec<PortName<'_>>, OutOfMemory>
    requires { IsSound layout.now }
    ensures { IfOk result (λ ports. map named_port ports.items ≡ all_ports layout.now) }
{
    let mut ports = Vec::new(alloc);
    for repeater in layout.repeaters.as_slice() {
        add_ports(&mut ports, repeater)?;
    }
    Ok(ports)
}
