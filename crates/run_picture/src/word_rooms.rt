//! Which drops have their words beside their signs.
ghost use Rattle.std.specs.Prelude.{◌≡◌, ◌<◌, ◌^◌, IfSome, length};
ghost use Rattle.log_meter.specs.Lines.{IsLogLine};
ghost use Rattle.run_picture.specs.Times.{IsWindow};
ghost use Rattle.run_picture.specs.WordRooms.{end_of_word, has_no_bar_before, is_drop, rooms_with, sending_by, station_of_word, word_length};

use crate::sending::{Sending, is_in_window, sending_of};
use crate::sizes::WORD_SHARE;
use crate::strangers::number_of_station;
use crate::window::Window;
use collision_log::Body;
use layout::Layout;
use log_meter::LogLine;

/// The half bits that a word takes.
fn word_length(window: Window) -> u64
    requires { IsWindow window }
    ensures length { result ≡ word_length window }
    ensures within { result < 2 ^ 32 }
{
    (WORD_SHARE * (window.to - window.from) + 99) / 100
}

/// Whether what happened is that a reception was dropped.
fn is_drop(body: &Body) -> bool
    ensures { result ≡ is_drop body.now }
{
    matches!(*body, Body::Dropped { .. })
}

/// The first half bit behind a word at half bit t, or that behind the picture where it comes first.
fn end_of_word(window: Window, t: u64) -> u64
    requires window { IsWindow window }
    requires time { t < 2 ^ 32 }
    ensures { result ≡ end_of_word window t }
{
    window.to.min(t + word_length(window))
}

/// The sending that a line tells of, if the station with this name sent.
fn sending_by(name: &str, line: &LogLine) -> Option<Sending>
    ensures { result ≡ sending_by name.now line.now }
{
    if line.name.as_str().as_bytes() == name.as_bytes() {
        return sending_of(line.t, &line.body);
    }
    None
}

/// Whether the next sending of the station with this name, if one of these lines tells of one, begins in half bit t or
/// later.
fn has_no_bar_before(name: &str, t: u64, lines: &[LogLine]) -> bool
    ensures { result ≡ has_no_bar_before name.now t lines.now }
{
    for line in lines {
        if let Some(sending) = sending_by(name, line) {
            return t <= sending.start;
        }
    }
    true
}

/// The station on whose lane the word of a line stands, if the line has one: it tells of a drop in the window, and the
/// lane has room. Of each station is kept from which half bit on no word stands on its lane; its next bar is looked up
/// among the later lines.
pub fn station_of_word(
    window: Window,
    layout: &Layout,
    rooms: &[u64],
    line: &LogLine,
    later: &[LogLine],
) -> Option<usize>
    requires window { IsWindow window }
    requires line { IsLogLine line.now }
    requires rooms { length rooms.now ≡ length layout.now.stations }
    ensures station { result ≡ station_of_word window layout.now rooms.now line.now later.now }
    ensures within { IfSome result (λ k. k < length rooms.now) }
{
    if !is_drop(&line.body) || !is_in_window(window, line.t) {
        return None;
    }
    let name = line.name.as_str();
    let Some(k) = number_of_station(layout.stations.as_slice(), name) else {
        return None;
    };
    if rooms[k] <= line.t && has_no_bar_before(name, end_of_word(window, line.t), later) {
        return Some(k);
    }
    None
}

/// Takes the room of a word at half bit t from the lane of this station.
pub fn take_room(window: Window, rooms: &mut [u64], t: u64, station: Option<usize>)
    requires window { IsWindow window }
    requires time { t < 2 ^ 32 }
    requires station { IfSome station (λ k. k < length rooms.old) }
    ensures { rooms.new ≡ rooms_with window rooms.old t station }
{
    if let Some(k) = station {
        rooms[k] = t + word_length(window);
    }
}
