//! Taps and the words that name them.
ghost use Rattle.std.specs.Prelude.{◌≡◌, ◌≢◌, ◌<◌, ◌≤◌, ◌+◌, ◌-◌, ◌^◌, ℕ, List, Some, IfSome, IfNone, length, map, slice_get};
ghost use Rattle.std.specs.Str.{bytes_eq};
ghost use Rattle.layout.specs.Sound.{IsSound};
ghost use Rattle.line_probe.specs.Taps.{HasTap, IsPortOf, IsWordOf, word_of_port};
ghost use Rattle.line_probe.specs.declared.tap.Tap.{Tap};

use layout::{Layout, RepeaterLine, StationLine};

/// A tap: its device, from 0, the stations before the repeaters, and its port, from 0. A station's tap has port 0.
#[derive(Clone, Copy)]
pub struct Tap {
    pub device: u32,
    pub port: u32,
}

/// The station whose name this is.
fn station_named(stations: &[StationLine], word: &[u8]) -> Option<u32>
    requires { length stations.now < 2 ^ 32 }
    ensures some { IfSome result (λ k. slice_get (map (λ s. s.name) stations.now) k ≡ Some word.now) }
    ensures none { IfNone result ((k : ℕ) → slice_get (map (λ s. s.name) stations.now) k ≢ Some word.now) }
{
    'stations: for k in 0..stations.len() {
        if stations[k].name.as_str().as_bytes() == word {
            return Some(k as u32);
        }
    }
    None
}

/// Whether a word is that of the port with this number, from 1, of a repeater with this name.
fn is_port_word(name: &str, number: u32, word: &[u8]) -> bool
    ensures { result ≡ bytes_eq word.now (word_of_port name.now number) }
{
    let mut buffer = itoa::Buffer::new();
    let digits = buffer.format(number).as_bytes();
    let Some(rest) = word.strip_prefix(name.as_bytes()) else {
        return false;
    };
    let Some(rest) = rest.strip_prefix(b":") else {
        return false;
    };
    rest == digits
}

/// The port of this repeater whose word this is.
fn port_named(repeater: &RepeaterLine, word: &[u8]) -> Option<u32>
    requires { length repeater.now.ports < 2 ^ 32 - 1 }
    ensures some { IfSome result (λ port. IsPortOf repeater.now port word.now) }
    ensures none { IfNone result ((port : ℕ) → IsPortOf repeater.now port word.now → ⊥) }
{
    'ports: for p in 0..repeater.ports.len() as u32 {
        if is_port_word(repeater.name.as_str(), p + 1, word) {
            return Some(p);
        }
    }
    None
}

/// The tap that a word names: a station's by its name, and a repeater's by `NAME:P` with a port P from 1.
pub fn find_tap(layout: &Layout, word: &[u8]) -> Option<Tap>
    requires { IsSound layout.now }
    ensures some { IfSome result (λ tap. IsWordOf layout.now word.now tap) }
    ensures has { IfSome result (λ tap. HasTap layout.now tap) }
    ensures none { IfNone result ((tap : Tap) → IsWordOf layout.now word.now tap → ⊥) }
{
    let stations = layout.stations.as_slice();
    if let Some(device) = station_named(stations, word) {
        return Some(Tap { device, port: 0 });
    }
    let repeaters = layout.repeaters.as_slice();
    'repeaters: for r in 0..repeaters.len() {
        if let Some(port) = port_named(&repeaters[r], word) {
            let device = (stations.len() + r) as u32;
            return Some(Tap { device, port });
        }
    }
    None
}
