//! The kinds of shapes that the marks of a picture have.
ghost use Rattle.std.specs.Prelude.{◌≡◌, ◌<◌, ◌^◌};
ghost use Rattle.std.specs.List.{AllByRecursion};
ghost use Rattle.log_meter.specs.Lines.{IsLogLine};
ghost use Rattle.run_picture.specs.Sendings.{is_hit_heard, sending_of};
ghost use Rattle.run_picture.specs.Kinds.{does_draw, has_front, has_hit, has_shape, has_sign, is_drawn, is_sending_of};

use crate::sending::{Sending, does_end, does_meet, is_heard, sending_of};
use crate::signs::{Outcome, Sign};
use crate::waves::is_seen;
use crate::window::Window;
use collision_log::Body;
use log_meter::LogLine;

/// A kind of shapes: the bars of sendings that ended so, the fronts of waves, or a sign.
#[derive(Clone, Copy)]
pub enum ShapeKind {
    Bar(Outcome),
    Front,
    Point(Sign),
}

/// Whether what happened is a sending that ended so.
fn is_sending_of(outcome: Outcome, body: &Body) -> bool
    ensures { result ≡ is_sending_of outcome body.now }
{
    match outcome {
        Outcome::Sent => matches!(*body, Body::Sent { .. }),
        Outcome::Collided => matches!(*body, Body::Collided { .. }),
        Outcome::GivenUp => matches!(*body, Body::GivenUp { .. }),
        Outcome::Cut => matches!(*body, Body::Cut { .. }),
    }
}

/// Whether what happened has this sign in its own half bit.
fn has_sign(sign: Sign, body: &Body) -> bool
    ensures { result ≡ has_sign sign body.now }
{
    match sign {
        Sign::Hit => false,
        Sign::Received => matches!(*body, Body::Received { .. }),
        Sign::Dropped => matches!(*body, Body::Dropped { .. }),
        Sign::Clash => matches!(*body, Body::Clash),
        Sign::Closed => matches!(*body, Body::Closed { .. }),
        Sign::Opened => matches!(*body, Body::Opened { .. }),
        Sign::Halted => matches!(*body, Body::Halted { .. }),
    }
}

/// Whether a wave of the sending that a line tells of can be in the window.
fn has_front(window: Window, line: &LogLine) -> bool
    requires { IsLogLine line.now }
    ensures { result ≡ has_front window (sending_of line.now.t line.now.body) }
{
    match sending_of(line.t, &line.body) {
        Some(sending) => {
            is_seen(window, sending.start)
                || does_end(sending.outcome) && is_seen(window, sending.end)
        }
        None => false,
    }
}

/// Whether a sending's hit is in the window and before its end.
fn is_hit_heard(window: Window, sending: Sending) -> bool
    requires { sending.start < 2 ^ 32 }
    ensures { result ≡ is_hit_heard window sending sending.hit }
{
    match sending.hit {
        Some(hit) => is_heard(window, sending, sending.start + u64::from(hit)),
        None => false,
    }
}

/// Whether the hit of the sending that a line tells of is in the window and before its end.
fn has_hit(window: Window, line: &LogLine) -> bool
    requires { IsLogLine line.now }
    ensures { result ≡ has_hit window (sending_of line.now.t line.now.body) }
{
    match sending_of(line.t, &line.body) {
        Some(sending) => is_hit_heard(window, sending),
        None => false,
    }
}

/// Whether the mark of a line has a shape of this kind, where the line meets the window.
fn has_shape(window: Window, line: &LogLine, kind: ShapeKind) -> bool
    requires { IsLogLine line.now }
    ensures { result ≡ has_shape window line.now kind }
{
    match kind {
        ShapeKind::Bar(outcome) => is_sending_of(outcome, &line.body),
        ShapeKind::Front => has_front(window, line),
        ShapeKind::Point(Sign::Hit) => has_hit(window, line),
        ShapeKind::Point(sign) => has_sign(sign, &line.body),
    }
}

/// Whether a line has a mark with a shape of this kind.
fn does_draw(window: Window, line: &LogLine, kind: ShapeKind) -> bool
    requires { IsLogLine line.now }
    ensures { result ≡ does_draw window line.now kind }
{
    does_meet(window, line) && has_shape(window, line, kind)
}

/// Whether one of these lines has a mark with a shape of this kind.
pub fn is_drawn(window: Window, lines: &[LogLine], kind: ShapeKind) -> bool
    requires { AllByRecursion IsLogLine lines.now }
    ensures { result ≡ is_drawn window lines.now kind }
{
    for line in lines {
        if does_draw(window, line, kind) {
            return true;
        }
    }
    false
}
