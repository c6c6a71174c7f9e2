//! What the lines of one name say, summed up.
ghost use Rattle.std.specs.Prelude.{◌≡◌, ◌+◌, ◌-◌, IfOk, if◌then◌else◌, max};
ghost use Rattle.log_meter.specs.Figures.{is_sent_body, sending_time};
ghost use Rattle.log_meter.specs.Lines.{is_of_repeater};
ghost use Rattle.log_meter.specs.Tallies.{empty_tally, with_body, with_repeater_line, with_station_line};

use crate::LogLine;
use crate::device_figures::{RepeaterTally, StationTally};
use collision_log::Body;
use lists::OutOfMemory;

/// Whether the name is a station's and whether it is a repeater's, and what its lines count.
#[derive(Clone, Copy)]
pub struct Tally {
    pub station: bool,
    pub repeater: bool,
    pub of_station: StationTally,
    pub longest: u64,
    pub of_repeater: RepeaterTally,
}

/// A sum that passes 64 bits is answered as want of memory.
pub fn sum(a: u64, b: u64) -> Result<u64, OutOfMemory>
    ensures { IfOk result (λ sum. sum ≡ a + b) }
{
    a.checked_add(b).ok_or(OutOfMemory)
}

/// Whether this happens at a repeater.
fn is_of_repeater(body: &Body) -> bool
    ensures { result ≡ is_of_repeater body.now }
{
    match *body {
        Body::Clash | Body::Closed { .. } | Body::Opened { .. } | Body::Halted { .. } => true,
        _ => false,
    }
}

/// For how many half bits a sending went on.
fn sending_time(t: u64, body: &Body) -> u64
    ensures { result ≡ sending_time t body.now }
{
    match *body {
        Body::Sent { start, .. }
        | Body::Collided { start, .. }
        | Body::GivenUp { start, .. }
        | Body::Cut { start, .. } => t.saturating_sub(start),
        _ => 0,
    }
}

/// The most frames in a row that a station sent, with one more line in front, after which so many Sent lines in a row
/// are of its name.
fn longest_with(longest: u64, row: u64, body: &Body) -> u64
    ensures { result ≡ (if is_sent_body body.now then max row longest else longest) }
{
    match *body {
        Body::Sent { .. } => row.max(longest),
        _ => longest,
    }
}

/// What lines of a station count, with one more line of this body at `t`.
fn with_station_line(before: StationTally, t: u64, body: &Body) -> Result<StationTally, OutOfMemory>
    ensures { IfOk result (λ tally. tally ≡ with_station_line before t body.now) }
{
    let half_bits = sum(before.half_bits, sending_time(t, body))?;
    let mut tally = StationTally {
        half_bits,
        ..before
    };
    match *body {
        Body::Sent { .. } => tally.sent = sum(tally.sent, 1)?,
        Body::Collided { .. } => tally.collided = sum(tally.collided, 1)?,
        Body::GivenUp { .. } => tally.given_up = sum(tally.given_up, 1)?,
        Body::Cut { .. } => tally.cut = sum(tally.cut, 1)?,
        Body::Received { .. } => tally.received = sum(tally.received, 1)?,
        Body::Dropped { .. } => tally.dropped = sum(tally.dropped, 1)?,
        _ => {}
    }
    Ok(tally)
}

/// What lines of a repeater count, with one more line of this body.
fn with_repeater_line(before: RepeaterTally, body: &Body) -> Result<RepeaterTally, OutOfMemory>
    ensures { IfOk result (λ tally. tally ≡ with_repeater_line before body.now) }
{
    let mut tally = before;
    match *body {
        Body::Clash => tally.clash = sum(tally.clash, 1)?,
        Body::Closed { .. } => tally.closed = sum(tally.closed, 1)?,
        Body::Opened { .. } => tally.opened = sum(tally.opened, 1)?,
        Body::Halted { .. } => tally.halted = sum(tally.halted, 1)?,
        _ => {}
    }
    Ok(tally)
}

impl Tally {
    ghost use Rattle.std.specs.Prelude.{◌≡◌, IfOk};
    ghost use Rattle.log_meter.specs.Tallies.{empty_tally, with_body};

    /// No line has the name.
    pub fn new() -> Tally
        ensures { result ≡ empty_tally }
    {
        Tally {
            station: false,
            repeater: false,
            of_station: StationTally {
                sent: 0,
                collided: 0,
                given_up: 0,
                cut: 0,
                received: 0,
                dropped: 0,
                half_bits: 0,
            },
            longest: 0,
            of_repeater: RepeaterTally {
                clash: 0,
                closed: 0,
                opened: 0,
                halted: 0,
            },
        }
    }

    /// The tally with one more line in front, after which so many Sent lines in a row are of its name.
    pub fn with(self, line: &LogLine, row: u64) -> Result<Tally, OutOfMemory>
        ensures { IfOk result (λ tally. tally ≡ with_body self line.now.t line.now.body row) }
    {
        if is_of_repeater(&line.body) {
            return Ok(Tally {
                repeater: true,
                of_repeater: with_repeater_line(self.of_repeater, &line.body)?,
                ..self
            });
        }
        Ok(Tally {
            station: true,
            of_station: with_station_line(self.of_station, line.t, &line.body)?,
            longest: longest_with(self.longest, row, &line.body),
            ..self
        })
    }
}
