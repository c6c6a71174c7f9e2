//! The texts of bands and lanes: their names and places.
ghost use Rattle.std.specs.Prelude.{◌≡◌, ◌<◌, ◌++◌, OnOk, length};
ghost use Rattle.run_picture.specs.Bands.{bands_text, lane_text, lanes_text, letters_word, name_of_device, name_of_tap, segment_text, port_name};

use crate::lanes::{Band, Lane};
use crate::pieces::Piece::{Number, Word};
use crate::pieces::add_pieces;
use crate::sizes::LONGEST_LARGE_NAME;
use layout::{Attachment, Layout, SegmentLine};
use lists::{List, OutOfMemory};

/// Puts the name of a port, counted from 1, at the end of a text.
fn add_port_name(text: &mut List<u8>, name: &str, number: u64) -> Result<(), OutOfMemory>
    ensures { OnOk result (text.new ≡ text.old ++ port_name name.now number) }
{
    add_pieces(text, &[Word(name.as_bytes()), Word(b":"), Number(number)])
}

/// Puts the name of a tap at the end of a text: the station's, or the repeater's and the port, from 1.
fn add_name(text: &mut List<u8>, layout: &Layout, tap: Attachment) -> Result<(), OutOfMemory>
    ensures { OnOk result (text.new ≡ text.old ++ name_of_tap layout.now tap) }
{
    match tap {
        Attachment::Station(k) => match layout.stations.as_slice().get(k as usize) {
            Some(station) => text.extend(station.name.as_str().as_bytes()),
            None => Ok(()),
        },
        Attachment::Port { repeater, port } => {
            match layout.repeaters.as_slice().get(repeater as usize) {
                Some(row) => add_port_name(text, row.name.as_str(), u64::from(port) + 1),
                None => Ok(()),
            }
        }
    }
}

/// The name of the device of a tap.
fn name_of_device(layout: &Layout, tap: Attachment) -> &str
    ensures { result.now ≡ name_of_device layout.now tap }
{
    match tap {
        Attachment::Station(k) => match layout.stations.as_slice().get(k as usize) {
            Some(station) => station.name.as_str(),
            None => "",
        },
        Attachment::Port { repeater, .. } => match layout
            .repeaters
            .as_slice()
            .get(repeater as usize)
        {
            Some(row) => row.name.as_str(),
            None => "",
        },
    }
}

/// The word by which the style gives a long name small letters.
fn letters_word(name: &str) -> &'static [u8]
    ensures { result.now ≡ letters_word name.now }
{
    if name.len() > LONGEST_LARGE_NAME {
        return b" long";
    }
    b""
}

/// Puts a lane with its name and its place at the end of a text.
#[tactic(auto, unfolding(crate::specs::Bands::lane_text))]
fn add_lane(text: &mut List<u8>, layout: &Layout, lane: &Lane) -> Result<(), OutOfMemory>
    ensures { OnOk result (text.new ≡ text.old ++ lane_text layout.now lane.now) }
{
    let letters = letters_word(name_of_device(layout, lane.tap));
    add_pieces(
        text,
        &[
            Word(b"<path class='lane' d='M0 "),
            Number(lane.y),
            Word(b"h100000'/><text class='name"),
            Word(letters),
            Word(b"' x='-4400' y='"),
            Number(lane.y),
            Word(b"' dy='500'>"),
        ],
    )?;
    add_name(text, layout, lane.tap)?;
    add_pieces(
        text,
        &[
            Word(b"</text><text class='place' x='-600' y='"),
            Number(lane.y),
            Word(b"' dy='400'>"),
            Number(u64::from(lane.at)),
            Word(b"</text>\n"),
        ],
    )
}

/// Puts lanes with their names and places at the end of a text.
fn add_lanes(text: &mut List<u8>, layout: &Layout, lanes: &[Lane]) -> Result<(), OutOfMemory>
    ensures { OnOk result (text.new ≡ text.old ++ lanes_text layout.now lanes.now) }
{
    for lane in lanes {
        add_lane(text, layout, lane)?;
    }
    Ok(())
}

/// Puts the name of a segment at the end of a text.
#[tactic(auto, unfolding(crate::specs::Bands::segment_text))]
fn add_segment(text: &mut List<u8>, y: u64, segment: &SegmentLine) -> Result<(), OutOfMemory>
    ensures { OnOk result (text.new ≡ text.old ++ segment_text y segment.now) }
{
    let name = segment.name.as_str();
    add_pieces(
        text,
        &[
            Word(b"<text class='segment"),
            Word(letters_word(name)),
            Word(b"' x='-25500' y='"),
            Number(y),
            Word(b"' dy='500'>segment "),
            Word(name.as_bytes()),
            Word(b"</text>\n"),
        ],
    )
}

/// Puts the bands of segments at the end of a text.
pub fn add_bands(
    text: &mut List<u8>,
    layout: &Layout,
    segments: &[SegmentLine],
    bands: &[Band],
) -> Result<(), OutOfMemory>
    requires { length segments.now ≡ length bands.now }
    ensures { OnOk result (text.new ≡ text.old ++ bands_text layout.now segments.now bands.now) }
{
    'segments: for k in 0..segments.len() {
        add_segment(text, bands[k].top, &segments[k])?;
        add_lanes(text, layout, bands[k].lanes.as_slice())?;
    }
    Ok(())
}
