//! Where the taps of a layout stand.
ghost use Rattle.std.specs.Prelude.{◌≡◌};
ghost use Rattle.layout.specs.Paths.{place, at_of};

use layout::{Attachment, Layout, PortLine};

/// Where a tap stands, if the layout has it.
fn place(layout: &Layout, tap: Attachment) -> Option<PortLine>
    ensures { result ≡ place layout.now tap }
{
    match tap {
        Attachment::Station(station) => {
            if station as usize >= layout.stations.len() {
                return None;
            }
            let line = layout.stations.get(station as usize);
            Some(PortLine {
                segment: line.segment,
                at: line.at,
            })
        }
        Attachment::Port { repeater, port } => {
            if repeater as usize >= layout.repeaters.len() {
                return None;
            }
            let ports = &layout.repeaters.get(repeater as usize).ports;
            if port as usize >= ports.len() {
                return None;
            }
            Some(*ports.get(port as usize))
        }
    }
}

/// A tap's place on its cable.
pub fn at_of(layout: &Layout, tap: Attachment) -> u32
    ensures { result ≡ at_of layout.now tap }
{
    match place(layout, tap) {
        None => 0,
        Some(line) => line.at,
    }
}
