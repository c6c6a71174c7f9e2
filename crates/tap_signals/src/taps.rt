//! The taps of a layout in their order.
ghost use Rattle.std.specs.Prelude.{◌≡◌, ◌<◌, ◌++◌, ◌^◌, map, IfOk, OnOk};
ghost use Rattle.std.specs.List.{range_with_len};
ghost use Rattle.layout.specs.Paths.{IsTap, delay_of};
ghost use Rattle.layout.specs.declared.ways.Attachment.TheVariants.{Port};
ghost use Rattle.tap_signals.specs.Taps.{ports_from, taps_in_order};

use layout::{Attachment, Layout};
use lists::OutOfMemory;
use load_plan::Plan;
use std::alloc::Global;

/// Puts so many ports of a repeater at the end of a list.
fn add_ports(taps: &mut Vec<Attachment>, repeater: u32, ports: usize) -> Result<(), OutOfMemory>
    requires { ports < 2 ^ 32 }
    ensures { OnOk result (taps.new.items ≡ taps.old.items ++ map (Port repeater) (range_with_len 0 ports)) }
{
    for port in 0..ports {
        taps.push(Attachment::Port {
            repeater,
            port: port as u32,
        })?;
    }
    Ok(())
}

/// The taps of the stations, then those of the repeaters' ports, in the layout's order.
pub fn taps_in_order(alloc: Global, plan: &Plan) -> Result<Vec<Attachment>, OutOfMemory>
    ensures { IfOk result (λ taps. taps.items ≡ taps_in_order plan.now.layout) }
{
    let stations = plan.layout.stations.len();
    let repeaters = plan.layout.repeaters.as_slice();
    let mut taps = Vec::new(alloc);
    for station in 0..stations {
        taps.push(Attachment::Station(station as u32))?;
    }
    for repeater in 0..repeaters.len() {
        add_ports(&mut taps, repeater as u32, repeaters[repeater].ports.len())?;
    }
    Ok(taps)
}

/// How many half bits before it is emitted is decided what the tap emits.
pub fn delay_of(layout: &Layout, tap: Attachment) -> u64
    requires { IsTap layout.now tap }
    ensures { result ≡ delay_of layout.now tap }
{
    match tap {
        Attachment::Station(_) => 0,
        Attachment::Port { repeater, .. } => u64::from(
            layout.repeaters.get(repeater as usize).delay,
        ),
    }
}
