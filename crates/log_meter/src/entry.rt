//! A line as it stands in the octets, before its name is kept.
ghost use Rattle.text_fields.specs.Reading.{IsReading};
ghost use Rattle.log_meter.specs.Reading.{device_at, log_line_at};
ghost use Rattle.log_meter.specs.Entries.{line_of};

use crate::bodies::body;
use collision_log::Body;
use mac_parameters::MOST_HALF_BITS;
use text_fields::{after_word, half_bit, name};

/// A line whose name stands in the octets that were read.
#[derive(Clone, Copy)]
pub struct NamedLine<'a> {
    pub t: u64,
    pub repeater: bool,
    pub name: &'a str,
    pub body: Body,
}

/// Whether the device is a repeater.
#[tactic(auto, unfolding(crate::specs::Reading::device_at))]
fn device(octets: &[u8]) -> Option<(bool, &[u8])>
    ensures { IsReading (λ d. (d.0, d.1.now)) result (device_at octets.now) }
{
    if let Some(rest) = after_word(b" station ", octets) {
        return Some((false, rest));
    }
    let rest = after_word(b" repeater ", octets)?;
    Some((true, rest))
}

/// The line in front, without its line feed, and the octets after it.
#[tactic(auto, unfolding(crate::specs::Reading::log_line_at))]
pub fn entry_at(octets: &[u8]) -> Option<(NamedLine<'_>, &[u8])>
    ensures { IsReading (λ e. (line_of e.0, e.1.now)) result (log_line_at octets.now) }
{
    let (t, rest) = half_bit(MOST_HALF_BITS, b"", octets)?;
    let (repeater, rest) = device(rest)?;
    let (name, rest) = name(rest)?;
    let rest = after_word(b" ", rest)?;
    let (body, rest) = body(t, repeater, rest)?;
    let entry = NamedLine {
        t,
        repeater,
        name,
        body,
    };
    Some((entry, rest))
}
