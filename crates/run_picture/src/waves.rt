//! The fronts of waves, from lane to lane.
ghost use Rattle.std.specs.Prelude.{◌≡◌, ◌<◌, ◌^◌, ◌++◌, OnOk};
ghost use Rattle.mac_parameters.specs.Distances.{distance};
ghost use Rattle.run_picture.specs.Times.{IsWindow};
ghost use Rattle.run_picture.specs.Waves.{is_seen, point_of_wave, points_of_wave, seen_wave, wave};

use crate::lanes::Lane;
use crate::pieces::Piece::{Number, Word};
use crate::pieces::add_pieces;
use crate::window::{Window, add_place};
use lists::{List, OutOfMemory};
use mac_parameters::GREATEST_PLACE;

/// The half bits between two places.
fn distance(p: u32, q: u32) -> u64
    ensures { result ≡ distance p q }
{
    u64::from(p.abs_diff(q))
}

/// Whether a wave that begins in half bit t can be on its segment in the window.
pub fn is_seen(window: Window, t: u64) -> bool
    requires { t < 2 ^ 40 }
    ensures { result ≡ is_seen window t }
{
    t < window.to && window.from <= t + u64::from(GREATEST_PLACE)
}

/// Puts where a wave from a place in half bit t comes to a lane at the end of a text.
#[tactic(auto, unfolding(crate::specs::Waves::point_of_wave))]
fn add_point(
    text: &mut List<u8>,
    window: Window,
    t: u64,
    at: u32,
    lane: &Lane,
) -> Result<(), OutOfMemory>
    requires window { IsWindow window }
    requires time { t < 2 ^ 32 }
    ensures { OnOk result (text.new ≡ text.old ++ point_of_wave window t at lane.now) }
{
    add_place(text, window, t + distance(lane.at, at))?;
    add_pieces(text, &[Word(b","), Number(lane.y), Word(b" ")])
}

/// Puts where a wave from a place in half bit t comes to each of these lanes at the end of a text.
fn add_points(
    text: &mut List<u8>,
    window: Window,
    t: u64,
    at: u32,
    lanes: &[Lane],
) -> Result<(), OutOfMemory>
    requires window { IsWindow window }
    requires time { t < 2 ^ 32 }
    ensures { OnOk result (text.new ≡ text.old ++ points_of_wave window t at lanes.now) }
{
    for lane in lanes {
        add_point(text, window, t, at, lane)?;
    }
    Ok(())
}

/// Puts the wave from a place in half bit t over the lanes of its segment at the end of a text.
#[tactic(auto, unfolding(crate::specs::Waves::seen_wave))]
fn add_seen_wave(
    text: &mut List<u8>,
    window: Window,
    t: u64,
    at: u32,
    lanes: &[Lane],
) -> Result<(), OutOfMemory>
    requires window { IsWindow window }
    requires time { t < 2 ^ 32 }
    ensures { OnOk result (text.new ≡ text.old ++ seen_wave window t at lanes.now) }
{
    text.extend(b"<polyline class='wave' points='")?;
    add_points(text, window, t, at, lanes)?;
    text.extend(b"'/>")
}

/// Puts the wave from a place in half bit t at the end of a text, if it can be in the window.
pub fn add_wave(
    text: &mut List<u8>,
    window: Window,
    t: u64,
    at: u32,
    lanes: &[Lane],
) -> Result<(), OutOfMemory>
    requires window { IsWindow window }
    requires time { t < 2 ^ 32 }
    ensures { OnOk result (text.new ≡ text.old ++ wave window t at lanes.now) }
{
    if is_seen(window, t) {
        return add_seen_wave(text, window, t, at, lanes);
    }
    Ok(())
}
