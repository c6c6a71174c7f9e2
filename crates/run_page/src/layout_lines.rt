//! The lines of a page that tell which half bits it shows, of how long a run, and of which layout.
ghost use Rattle.std.specs.Prelude.{◌≡◌, ◌++◌, OnOk, flat_map};
ghost use Rattle.layout.specs.Sound.{IsSound};
ghost use Rattle.run_page.specs.LayoutLines.{layout_lines, place_words, port_line, port_lines, repeater_line, repeater_with_ports, run_line, segment_line, station_line, window_line};

use crate::names::{add_number, name_of_segment};
use layout::{Layout, PortLine, RepeaterLine, SegmentLine, StationLine};
use lists::{List, OutOfMemory};

/// Puts the line of the half bits that a page shows at the end of a text.
#[tactic(auto, unfolding(crate::specs::LayoutLines::window_line))]
pub fn add_window(text: &mut List<u8>, from: u64, to: u64) -> Result<(), OutOfMemory>
    ensures { OnOk result (text.new ≡ text.old ++ window_line from to) }
{
    text.extend(b"window ")?;
    add_number(text, from)?;
    text.extend(b" ")?;
    add_number(text, to)?;
    text.extend(b"\n")
}

/// Puts the line of the half bits of the whole run at the end of a text.
#[tactic(auto, unfolding(crate::specs::LayoutLines::run_line))]
pub fn add_run(text: &mut List<u8>, layout: &Layout) -> Result<(), OutOfMemory>
    requires { IsSound layout.now }
    ensures { OnOk result (text.new ≡ text.old ++ run_line layout.now) }
{
    text.extend(b"run ")?;
    add_number(text, layout.half_bits())?;
    text.extend(b"\n")
}

/// Puts the line of a segment at the end of a text.
#[tactic(auto, unfolding(crate::specs::LayoutLines::segment_line))]
fn add_segment(text: &mut List<u8>, segment: &SegmentLine) -> Result<(), OutOfMemory>
    ensures { OnOk result (text.new ≡ text.old ++ segment_line segment.now) }
{
    text.extend(b"segment ")?;
    text.extend(segment.name.as_str().as_bytes())?;
    text.extend(b"\n")
}

/// Puts where a tap stands at the end of a text.
#[tactic(auto, unfolding(crate::specs::LayoutLines::place_words))]
fn add_place(text: &mut List<u8>, layout: &Layout, segment: u32, at: u32) -> Result<(), OutOfMemory>
    ensures { OnOk result (text.new ≡ text.old ++ place_words layout.now segment at) }
{
    text.extend(name_of_segment(layout, segment).as_bytes())?;
    text.extend(b" ")?;
    add_number(text, u64::from(at))
}

/// Puts the line of a station at the end of a text.
#[tactic(auto, unfolding(crate::specs::LayoutLines::station_line))]
fn add_station(
    text: &mut List<u8>,
    layout: &Layout,
    station: &StationLine,
) -> Result<(), OutOfMemory>
    ensures { OnOk result (text.new ≡ text.old ++ station_line layout.now station.now) }
{
    text.extend(b"station ")?;
    text.extend(station.name.as_str().as_bytes())?;
    text.extend(b" ")?;
    add_place(text, layout, station.segment, station.at)?;
    text.extend(b"\n")
}

/// Puts the line of the port with this number, from 1, of the repeater with this name at the end of a text.
#[tactic(auto, unfolding(crate::specs::LayoutLines::port_line))]
fn add_port(
    text: &mut List<u8>,
    layout: &Layout,
    name: &str,
    number: u64,
    port: PortLine,
) -> Result<(), OutOfMemory>
    ensures { OnOk result (text.new ≡ text.old ++ port_line layout.now name.now number port) }
{
    text.extend(b"port ")?;
    text.extend(name.as_bytes())?;
    text.extend(b" ")?;
    add_number(text, number)?;
    text.extend(b" ")?;
    add_place(text, layout, port.segment, port.at)?;
    text.extend(b"\n")
}

/// Puts the lines of the ports of the repeater with this name at the end of a text.
fn add_ports(
    text: &mut List<u8>,
    layout: &Layout,
    name: &str,
    ports: &[PortLine],
) -> Result<(), OutOfMemory>
    ensures { OnOk result (text.new ≡ text.old ++ port_lines layout.now name.now 1 ports.now) }
{
    'ports: for p in 0..ports.len() {
        add_port(text, layout, name, p as u64 + 1, ports[p])?;
    }
    Ok(())
}

/// Puts the line of a repeater at the end of a text.
#[tactic(auto, unfolding(crate::specs::LayoutLines::repeater_line))]
fn add_repeater(text: &mut List<u8>, repeater: &RepeaterLine) -> Result<(), OutOfMemory>
    ensures { OnOk result (text.new ≡ text.old ++ repeater_line repeater.now) }
{
    text.extend(b"repeater ")?;
    text.extend(repeater.name.as_str().as_bytes())?;
    text.extend(b" ")?;
    add_number(text, u64::from(repeater.delay))?;
    text.extend(b"\n")
}

/// Puts the line of a repeater and those of its ports at the end of a text.
fn add_repeater_with_ports(
    text: &mut List<u8>,
    layout: &Layout,
    repeater: &RepeaterLine,
) -> Result<(), OutOfMemory>
    ensures { OnOk result (text.new ≡ text.old ++ repeater_with_ports layout.now repeater.now) }
{
    let name = repeater.name.as_str();
    add_repeater(text, repeater)?;
    add_ports(text, layout, name, repeater.ports.as_slice())
}

/// Puts the lines of the segments at the end of a text.
fn add_segments(text: &mut List<u8>, segments: &[SegmentLine]) -> Result<(), OutOfMemory>
    ensures { OnOk result (text.new ≡ text.old ++ flat_map segment_line segments.now) }
{
    for segment in segments {
        add_segment(text, segment)?;
    }
    Ok(())
}

/// Puts the lines of the stations at the end of a text.
fn add_stations(
    text: &mut List<u8>,
    layout: &Layout,
    stations: &[StationLine],
) -> Result<(), OutOfMemory>
    ensures { OnOk result (text.new ≡ text.old ++ flat_map (station_line layout.now) stations.now) }
{
    for station in stations {
        add_station(text, layout, station)?;
    }
    Ok(())
}

/// Puts the lines of the repeaters and their ports at the end of a text.
fn add_repeaters(
    text: &mut List<u8>,
    layout: &Layout,
    repeaters: &[RepeaterLine],
) -> Result<(), OutOfMemory>
    ensures { OnOk result (text.new ≡ text.old ++ flat_map (repeater_with_ports layout.now) repeaters.now) }
{
    for repeater in repeaters {
        add_repeater_with_ports(text, layout, repeater)?;
    }
    Ok(())
}

/// Puts the lines of a layout at the end of a text.
pub fn add_layout(text: &mut List<u8>, layout: &Layout) -> Result<(), OutOfMemory>
    ensures { OnOk result (text.new ≡ text.old ++ layout_lines layout.now) }
{
    add_segments(text, layout.segments.as_slice())?;
    add_stations(text, layout, layout.stations.as_slice())?;
    add_repeaters(text, layout, layout.repeaters.as_slice())
}
