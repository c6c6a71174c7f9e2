//! Sendings, as lines of a log tell them, and which lines meet a window.
ghost use Rattle.std.specs.Prelude.{◌≡◌, ◌<◌, ◌^◌, ◌++◌, OnOk};
ghost use Rattle.run_picture.specs.Sendings.{does_end, does_meet, hit_sign, is_heard, is_in_window, last_wave, sending_of, sending_shapes};
ghost use Rattle.run_picture.specs.Times.{IsWindow};

use crate::lanes::Lane;
use crate::signs::{Outcome, Sign, add_bar, add_sign};
use crate::waves::add_wave;
use crate::window::Window;
use collision_log::Body;
use lists::{List, OutOfMemory};
use log_meter::LogLine;

/// A sending: the half bits from `start` to below `end`, how it ended, and how many half bits after its start a
/// collision was heard.
#[derive(Clone, Copy)]
pub struct Sending {
    pub outcome: Outcome,
    pub start: u64,
    pub end: u64,
    pub hit: Option<u32>,
}

/// The sending that a line of half bit t tells of.
pub fn sending_of(t: u64, body: &Body) -> Option<Sending>
    ensures { result ≡ sending_of t body.now }
{
    let (outcome, start, hit) = match *body {
        Body::Sent { start, .. } => (Outcome::Sent, start, None),
        Body::Collided { start, hit, .. } => (Outcome::Collided, start, Some(hit)),
        Body::GivenUp { start, hit, .. } => (Outcome::GivenUp, start, Some(hit)),
        Body::Cut { start, hit, .. } => (Outcome::Cut, start, hit),
        _ => return None,
    };
    Some(Sending {
        outcome,
        start,
        end: t,
        hit,
    })
}

/// Whether half bit t is in the window.
pub fn is_in_window(window: Window, t: u64) -> bool
    ensures { result ≡ is_in_window window t }
{
    window.from <= t && t < window.to
}

/// Whether a line meets the window.
pub fn does_meet(window: Window, line: &LogLine) -> bool
    ensures { result ≡ does_meet window line.now }
{
    match sending_of(line.t, &line.body) {
        Some(sending) => sending.start < window.to && window.from <= sending.end,
        None => is_in_window(window, line.t),
    }
}

/// Whether a sending ended before the run did.
pub fn does_end(outcome: Outcome) -> bool
    ensures { result ≡ does_end outcome }
{
    match outcome {
        Outcome::Cut => false,
        _ => true,
    }
}

/// Whether a hit in half bit t is in the window and before the end of its sending.
pub fn is_heard(window: Window, sending: Sending, t: u64) -> bool
    ensures { result ≡ is_heard window sending t }
{
    t < sending.end && is_in_window(window, t)
}

/// Puts the sign of what a sending heard at the end of a text, if that is in the window and before the sending's end.
fn add_hit(text: &mut List<u8>, window: Window, sending: Sending, y: u64) -> Result<(), OutOfMemory>
    requires window { IsWindow window }
    requires start { sending.start < 2 ^ 32 }
    ensures { OnOk result (text.new ≡ text.old ++ hit_sign window sending y) }
{
    let Some(hit) = sending.hit else {
        return Ok(());
    };
    let t = sending.start + u64::from(hit);
    if is_heard(window, sending, t) {
        return add_sign(text, window, Sign::Hit, t, y);
    }
    Ok(())
}

/// Puts the wave of a sending's end at the end of a text, if it ended.
fn add_last_wave(
    text: &mut List<u8>,
    window: Window,
    sending: Sending,
    at: u32,
    lanes: &[Lane],
) -> Result<(), OutOfMemory>
    requires window { IsWindow window }
    requires end { sending.end < 2 ^ 32 }
    ensures { OnOk result (text.new ≡ text.old ++ last_wave window sending at lanes.now) }
{
    if does_end(sending.outcome) {
        return add_wave(text, window, sending.end, at, lanes);
    }
    Ok(())
}

/// Puts the waves, the bar and the hit of a sending at the end of a text.
#[tactic(auto, unfolding(crate::specs::Sendings::sending_shapes))]
pub fn add_sending(
    text: &mut List<u8>,
    window: Window,
    sending: Sending,
    lane: Lane,
    lanes: &[Lane],
) -> Result<(), OutOfMemory>
    requires window { IsWindow window }
    requires start { sending.start < 2 ^ 32 }
    requires end { sending.end < 2 ^ 32 }
    ensures { OnOk result (text.new ≡ text.old ++ sending_shapes window sending lane lanes.now) }
{
    add_wave(text, window, sending.start, lane.at, lanes)?;
    add_last_wave(text, window, sending, lane.at, lanes)?;
    add_bar(
        text,
        window,
        sending.outcome,
        sending.start,
        sending.end,
        lane.y,
    )?;
    add_hit(text, window, sending, lane.y)
}
