//! The marks of a picture: one for each line of the log that meets the window.
ghost use Rattle.std.specs.Prelude.{◌≡◌, ◌<◌, ◌^◌, ◌++◌, OnOk, List, codes, length};
ghost use Rattle.std.specs.List.{AllByRecursion};
ghost use Rattle.collision_log.specs.Rows.{why_text};
ghost use Rattle.layout.specs.Sound.{IsSound};
ghost use Rattle.log_meter.specs.Lines.{IsLogLine};
ghost use Rattle.run_picture.specs.Marks.{is_one_tap, lane_of, lane_shapes, lanes_of_segment, mark, mark_of_line, marks, port_shapes, reception, repeater_shapes, shapes_of_line, sign_of_port, signs_of_ports, station_shapes, title_of, word_of_drop};
ghost use Rattle.run_picture.specs.Times.{IsWindow};

use crate::lanes::{Band, Lane};
use crate::pieces::Piece::{Number, Word};
use crate::pieces::add_pieces;
use crate::sending::{add_sending, does_meet, sending_of};
use crate::signs::{Sign, add_sign};
use crate::strangers::{number_of_repeater, number_of_station};
use crate::window::{Window, x_of};
use crate::word_rooms::{station_of_word, take_room};
use collision_log::{Body, Row, Why, row_text};
use layout::{Attachment, Layout, PortLine};
use lists::{List, OutOfMemory};
use log_meter::LogLine;
use std::alloc::Global;

/// Puts the head of a mark at the end of a text: its title, which is a line of the log without its line feed.
fn add_title(text: &mut List<u8>, line: &LogLine) -> Result<(), OutOfMemory>
    requires { IsLogLine line.now }
    ensures { OnOk result (text.new ≡ text.old ++ (codes "<g><title>" ++ title_of line.now ++ codes "</title>")) }
{
    let row = Row {
        t: line.t,
        device: 0,
        body: line.body,
    };
    let mut room = [0u8; 200];
    let len = row_text(&row, line.repeater, line.name.as_str(), &mut room);
    add_pieces(
        text,
        &[
            Word(b"<g><title>"),
            Word(&room[..len - 1]),
            Word(b"</title>"),
        ],
    )
}

/// Whether two taps are one.
fn is_one_tap(a: Attachment, b: Attachment) -> bool
    ensures { result ≡ is_one_tap a b }
{
    match a {
        Attachment::Station(k) => match b {
            Attachment::Station(j) => k == j,
            Attachment::Port { .. } => false,
        },
        Attachment::Port { repeater, port } => match b {
            Attachment::Station(_) => false,
            Attachment::Port {
                repeater: r,
                port: p,
            } => repeater == r && port == p,
        },
    }
}

/// The lanes of a segment.
fn lanes_of_segment(bands: &[Band], segment: u32) -> &[Lane]
    ensures { result.now ≡ lanes_of_segment bands.now segment }
{
    match bands.get(segment as usize) {
        Some(band) => band.lanes.as_slice(),
        None => &[],
    }
}

/// The lane of a tap.
fn lane_of(lanes: &[Lane], tap: Attachment) -> Option<Lane>
    ensures { result ≡ lane_of lanes.now tap }
{
    for lane in lanes {
        if is_one_tap(lane.tap, tap) {
            return Some(*lane);
        }
    }
    None
}

/// The word for what was wrong with a reception.
fn word_of(why: Why) -> &'static [u8]
    ensures { result.now ≡ why_text why }
{
    match why {
        Why::Fragment => b"fragment",
        Why::TooLong => b"too_long",
        Why::FcsError => b"fcs",
        Why::AlignError => b"align",
        Why::Damaged => b"damaged",
    }
}

/// Puts the word of a reception that was dropped in half bit t beside its sign, at the end of a text.
#[tactic(auto, unfolding(crate::specs::Marks::word_of_drop))]
fn add_word(
    text: &mut List<u8>,
    window: Window,
    t: u64,
    y: u64,
    why: Why,
) -> Result<(), OutOfMemory>
    requires window { IsWindow window }
    requires time { t < 2 ^ 32 }
    ensures { OnOk result (text.new ≡ text.old ++ word_of_drop window t y why) }
{
    add_pieces(
        text,
        &[
            Word(b"<text class='word' x='"),
            Number(x_of(window, t)),
            Word(b"' y='"),
            Number(y),
            Word(b"' dx='600' dy='-450'>"),
            Word(word_of(why)),
            Word(b"</text>"),
        ],
    )
}

/// Puts the sign of a reception that ended in half bit t at the end of a text, with a word or without one.
#[tactic(auto, unfolding(crate::specs::Marks::reception))]
fn add_reception(
    text: &mut List<u8>,
    worded: bool,
    window: Window,
    t: u64,
    y: u64,
    body: &Body,
) -> Result<(), OutOfMemory>
    requires window { IsWindow window }
    requires time { t < 2 ^ 32 }
    ensures { OnOk result (text.new ≡ text.old ++ reception worded window t y body.now) }
{
    match *body {
        Body::Received { .. } => add_sign(text, window, Sign::Received, t, y),
        Body::Dropped { why, .. } => {
            add_sign(text, window, Sign::Dropped, t, y)?;
            if worded {
                return add_word(text, window, t, y, why);
            }
            Ok(())
        }
        _ => Ok(()),
    }
}

/// Puts the shapes of what happened at the station on a lane at the end of a text.
fn add_lane_shapes(
    text: &mut List<u8>,
    worded: bool,
    window: Window,
    line: &LogLine,
    lane: Lane,
    lanes: &[Lane],
) -> Result<(), OutOfMemory>
    requires window { IsWindow window }
    requires line { IsLogLine line.now }
    ensures { OnOk result (text.new ≡ text.old ++ lane_shapes worded window line.now lane lanes.now) }
{
    if let Some(sending) = sending_of(line.t, &line.body) {
        return add_sending(text, window, sending, lane, lanes);
    }
    add_reception(text, worded, window, line.t, lane.y, &line.body)
}

/// Puts the shapes of what happened at a station at the end of a text.
fn add_station_shapes(
    text: &mut List<u8>,
    worded: bool,
    window: Window,
    layout: &Layout,
    bands: &[Band],
    line: &LogLine,
) -> Result<(), OutOfMemory>
    requires window { IsWindow window }
    requires sound { IsSound layout.now }
    requires line { IsLogLine line.now }
    ensures { OnOk result (text.new ≡ text.old ++ station_shapes worded window layout.now bands.now line.now) }
{
    let stations = layout.stations.as_slice();
    let Some(k) = number_of_station(stations, line.name.as_str()) else {
        return Ok(());
    };
    let lanes = lanes_of_segment(bands, stations[k].segment);
    let Some(lane) = lane_of(lanes, Attachment::Station(k as u32)) else {
        return Ok(());
    };
    add_lane_shapes(text, worded, window, line, lane, lanes)
}

/// The sign of what happened at a repeater for its port with this number, from 1, if it concerns the port.
fn sign_of_port(body: &Body, number: u64) -> Option<Sign>
    ensures { result ≡ sign_of_port body.now number }
{
    match *body {
        Body::Clash => Some(Sign::Clash),
        Body::Closed { port } if u64::from(port) == number => Some(Sign::Closed),
        Body::Opened { port } if u64::from(port) == number => Some(Sign::Opened),
        Body::Halted { port } if u64::from(port) == number => Some(Sign::Halted),
        _ => None,
    }
}

/// Puts the sign of what happened at a repeater on a port's lane at the end of a text, if it concerns the port.
fn add_port_sign(
    text: &mut List<u8>,
    window: Window,
    line: &LogLine,
    lanes: &[Lane],
    repeater: u32,
    port: u32,
) -> Result<(), OutOfMemory>
    requires window { IsWindow window }
    requires line { IsLogLine line.now }
    ensures { OnOk result (text.new ≡ text.old ++ port_shapes window line.now lanes.now repeater port) }
{
    let Some(sign) = sign_of_port(&line.body, u64::from(port) + 1) else {
        return Ok(());
    };
    let Some(lane) = lane_of(lanes, Attachment::Port { repeater, port }) else {
        return Ok(());
    };
    add_sign(text, window, sign, line.t, lane.y)
}

/// Puts the signs of what happened at a repeater on its ports' lanes at the end of a text.
fn add_signs_of_ports(
    text: &mut List<u8>,
    window: Window,
    line: &LogLine,
    bands: &[Band],
    repeater: u32,
    ports: &[PortLine],
) -> Result<(), OutOfMemory>
    requires window { IsWindow window }
    requires line { IsLogLine line.now }
    requires few { length ports.now < 2 ^ 32 }
    ensures { OnOk result (text.new ≡ text.old ++ signs_of_ports window line.now bands.now repeater 0 ports.now) }
{
    'ports: for p in 0..ports.len() {
        let lanes = lanes_of_segment(bands, ports[p].segment);
        add_port_sign(text, window, line, lanes, repeater, p as u32)?;
    }
    Ok(())
}

/// Puts the shapes of what happened at a repeater at the end of a text.
fn add_repeater_shapes(
    text: &mut List<u8>,
    window: Window,
    layout: &Layout,
    bands: &[Band],
    line: &LogLine,
) -> Result<(), OutOfMemory>
    requires window { IsWindow window }
    requires sound { IsSound layout.now }
    requires line { IsLogLine line.now }
    ensures { OnOk result (text.new ≡ text.old ++ repeater_shapes window layout.now bands.now line.now) }
{
    let repeaters = layout.repeaters.as_slice();
    let Some(r) = number_of_repeater(repeaters, line.name.as_str()) else {
        return Ok(());
    };
    let ports = repeaters[r].ports.as_slice();
    add_signs_of_ports(text, window, line, bands, r as u32, ports)
}

/// Puts the shapes of what happened at a device at the end of a text.
fn add_shapes(
    text: &mut List<u8>,
    worded: bool,
    window: Window,
    layout: &Layout,
    bands: &[Band],
    line: &LogLine,
) -> Result<(), OutOfMemory>
    requires window { IsWindow window }
    requires sound { IsSound layout.now }
    requires line { IsLogLine line.now }
    ensures { OnOk result (text.new ≡ text.old ++ shapes_of_line worded window layout.now bands.now line.now) }
{
    if line.repeater {
        return add_repeater_shapes(text, window, layout, bands, line);
    }
    add_station_shapes(text, worded, window, layout, bands, line)
}

/// Puts the mark of a line at the end of a text, with a word or without one.
#[tactic(auto, unfolding(crate::specs::Marks::mark))]
fn add_mark(
    text: &mut List<u8>,
    worded: bool,
    window: Window,
    layout: &Layout,
    bands: &[Band],
    line: &LogLine,
) -> Result<(), OutOfMemory>
    requires window { IsWindow window }
    requires sound { IsSound layout.now }
    requires line { IsLogLine line.now }
    ensures { OnOk result (text.new ≡ text.old ++ mark worded window layout.now bands.now line.now) }
{
    add_title(text, line)?;
    add_shapes(text, worded, window, layout, bands, line)?;
    text.extend(b"</g>\n")
}

/// Puts the mark of a line at the end of a text, if it meets the window.
fn add_mark_of_line(
    text: &mut List<u8>,
    worded: bool,
    window: Window,
    layout: &Layout,
    bands: &[Band],
    line: &LogLine,
) -> Result<(), OutOfMemory>
    requires window { IsWindow window }
    requires sound { IsSound layout.now }
    requires line { IsLogLine line.now }
    ensures { OnOk result (text.new ≡ text.old ++ mark_of_line worded window layout.now bands.now line.now) }
{
    if does_meet(window, line) {
        return add_mark(text, worded, window, layout, bands, line);
    }
    Ok(())
}

/// Puts the marks of these lines at the end of a text.
pub fn add_marks(
    alloc: Global,
    text: &mut List<u8>,
    window: Window,
    layout: &Layout,
    bands: &[Band],
    lines: &[LogLine],
) -> Result<(), OutOfMemory>
    requires window { IsWindow window }
    requires sound { IsSound layout.now }
    requires lines { AllByRecursion IsLogLine lines.now }
    ensures { OnOk result (text.new ≡ text.old ++ marks window layout.now bands.now lines.now) }
{
    let mut rooms = vec![in alloc; 0u64; layout.stations.len()]?;
    'lines: for n in 0..lines.len() {
        let line = &lines[n];
        let station = station_of_word(window, layout, &rooms, line, &lines[n + 1..]);
        add_mark_of_line(text, station.is_some(), window, layout, bands, line)?;
        take_room(window, &mut rooms, line.t, station);
    }
    Ok(())
}
