//! Lines of a log whose devices a layout has, and the first line whose device it lacks.
ghost use Rattle.std.specs.Prelude.{◌≡◌, ◌<◌, ◌^◌, IfSome, length};
ghost use Rattle.run_picture.specs.Strangers.{first_stranger, has_port, is_known, number_of_repeater, number_of_station};

use collision_log::Body;
use layout::{Layout, RepeaterLine, StationLine};
use log_meter::{LogLine, LogLines};

/// The station with this name, by its number from 0.
pub fn number_of_station(stations: &[StationLine], name: &str) -> Option<usize>
    ensures number { result ≡ number_of_station stations.now name.now }
    ensures within { IfSome result (λ k. k < length stations.now) }
{
    'stations: for k in 0..stations.len() {
        if stations[k].name.as_str().as_bytes() == name.as_bytes() {
            return Some(k);
        }
    }
    None
}

/// The repeater with this name, by its number from 0.
pub fn number_of_repeater(repeaters: &[RepeaterLine], name: &str) -> Option<usize>
    ensures number { result ≡ number_of_repeater repeaters.now name.now }
    ensures within { IfSome result (λ r. r < length repeaters.now) }
{
    'repeaters: for r in 0..repeaters.len() {
        if repeaters[r].name.as_str().as_bytes() == name.as_bytes() {
            return Some(r);
        }
    }
    None
}

/// Whether a repeater has the port, counted from 1, that a line names, if it names one.
fn has_port(ports: usize, body: &Body) -> bool
    ensures { result ≡ has_port ports body.now }
{
    match *body {
        Body::Closed { port } | Body::Opened { port } | Body::Halted { port } => {
            1 <= port && port as usize <= ports
        }
        _ => true,
    }
}

/// Whether the layout has the device that a line names, of its kind, and its port.
fn is_known(layout: &Layout, line: &LogLine) -> bool
    ensures { result ≡ is_known layout.now line.now }
{
    if !line.repeater {
        return number_of_station(layout.stations.as_slice(), line.name.as_str()).is_some();
    }
    let repeaters = layout.repeaters.as_slice();
    match number_of_repeater(repeaters, line.name.as_str()) {
        Some(r) => has_port(repeaters[r].ports.len(), &line.body),
        None => false,
    }
}

/// The first line of a log, from 1, that names a device which the layout lacks or has as the other kind, or a port that
/// the repeater lacks.
pub fn find_stranger(layout: &Layout, lines: &LogLines) -> Option<u32>
    requires { length lines.now < 2 ^ 32 }
    ensures { result ≡ first_stranger layout.now lines.now }
{
    let lines = lines.as_slice();
    'lines: for k in 0..lines.len() {
        if !is_known(layout, &lines[k]) {
            return Some(k as u32 + 1);
        }
    }
    None
}
