//! What happened, read from the end of a line.
ghost use Rattle.text_fields.specs.Reading.{IsReading};
ghost use Rattle.log_meter.specs.Reading.{body_at, clash_at, closed_at, collided_at, cut_at, dropped_at, given_up_at, halted_at, logged_hit_at, opened_at, received_at, repeater_body_at, sent_at, station_body_at, why_at};

use collision_log::{Body, Why};
use text_fields::{after_word, field, half_bit, number};

#[tactic(auto, unfolding(crate::specs::Reading::sent_at))]
fn sent(t: u64, octets: &[u8]) -> Option<(Body, &[u8])>
    ensures { IsReading (λ b. (b.0, b.1.now)) result (sent_at t octets.now) }
{
    let (frame, rest) = field(b"sent frame ", octets)?;
    let (start, rest) = half_bit(t, b" start ", rest)?;
    let (attempt, rest) = field(b" attempt ", rest)?;
    let body = Body::Sent {
        frame,
        start,
        attempt,
    };
    Some((body, rest))
}

#[tactic(auto, unfolding(crate::specs::Reading::collided_at))]
fn collided(t: u64, octets: &[u8]) -> Option<(Body, &[u8])>
    ensures { IsReading (λ b. (b.0, b.1.now)) result (collided_at t octets.now) }
{
    let (frame, rest) = field(b"collided frame ", octets)?;
    let (start, rest) = half_bit(t, b" start ", rest)?;
    let (attempt, rest) = field(b" attempt ", rest)?;
    let (hit, rest) = field(b" hit ", rest)?;
    let (drawn, rest) = field(b" draw ", rest)?;
    let body = Body::Collided {
        frame,
        start,
        attempt,
        hit,
        drawn,
    };
    Some((body, rest))
}

#[tactic(auto, unfolding(crate::specs::Reading::given_up_at))]
fn given_up(t: u64, octets: &[u8]) -> Option<(Body, &[u8])>
    ensures { IsReading (λ b. (b.0, b.1.now)) result (given_up_at t octets.now) }
{
    let (frame, rest) = field(b"given_up frame ", octets)?;
    let (start, rest) = half_bit(t, b" start ", rest)?;
    let (hit, rest) = field(b" hit ", rest)?;
    Some((Body::GivenUp { frame, start, hit }, rest))
}

/// A hit, or the word for none.
#[tactic(auto, unfolding(crate::specs::Reading::logged_hit_at))]
fn hit(octets: &[u8]) -> Option<(Option<u32>, &[u8])>
    ensures { IsReading (λ h. (h.0, h.1.now)) result (logged_hit_at octets.now) }
{
    if let Some(rest) = after_word(b"none", octets) {
        return Some((None, rest));
    }
    let (hit, rest) = number(octets)?;
    Some((Some(hit), rest))
}

#[tactic(auto, unfolding(crate::specs::Reading::cut_at))]
fn cut(t: u64, octets: &[u8]) -> Option<(Body, &[u8])>
    ensures { IsReading (λ b. (b.0, b.1.now)) result (cut_at t octets.now) }
{
    let (frame, rest) = field(b"cut frame ", octets)?;
    let (start, rest) = half_bit(t, b" start ", rest)?;
    let (attempt, rest) = field(b" attempt ", rest)?;
    let (hit, rest) = hit(after_word(b" hit ", rest)?)?;
    let body = Body::Cut {
        frame,
        start,
        attempt,
        hit,
    };
    Some((body, rest))
}

#[tactic(auto, unfolding(crate::specs::Reading::received_at))]
fn received(octets: &[u8]) -> Option<(Body, &[u8])>
    ensures { IsReading (λ b. (b.0, b.1.now)) result (received_at octets.now) }
{
    let (octets, rest) = field(b"received octets ", octets)?;
    Some((Body::Received { octets }, rest))
}

/// Why a reception was dropped.
#[tactic(auto, unfolding(crate::specs::Reading::why_at))]
fn why(octets: &[u8]) -> Option<(Why, &[u8])>
    ensures { IsReading (λ w. (w.0, w.1.now)) result (why_at octets.now) }
{
    if let Some(rest) = after_word(b"fragment", octets) {
        return Some((Why::Fragment, rest));
    }
    if let Some(rest) = after_word(b"too_long", octets) {
        return Some((Why::TooLong, rest));
    }
    if let Some(rest) = after_word(b"fcs", octets) {
        return Some((Why::FcsError, rest));
    }
    if let Some(rest) = after_word(b"align", octets) {
        return Some((Why::AlignError, rest));
    }
    let rest = after_word(b"damaged", octets)?;
    Some((Why::Damaged, rest))
}

#[tactic(auto, unfolding(crate::specs::Reading::dropped_at))]
fn dropped(octets: &[u8]) -> Option<(Body, &[u8])>
    ensures { IsReading (λ b. (b.0, b.1.now)) result (dropped_at octets.now) }
{
    let (why, rest) = why(after_word(b"dropped ", octets)?)?;
    let (halves, rest) = field(b" halves ", rest)?;
    Some((Body::Dropped { why, halves }, rest))
}

#[tactic(auto, unfolding(crate::specs::Reading::clash_at))]
fn clash(octets: &[u8]) -> Option<(Body, &[u8])>
    ensures { IsReading (λ b. (b.0, b.1.now)) result (clash_at octets.now) }
{
    let rest = after_word(b"clash", octets)?;
    Some((Body::Clash, rest))
}

#[tactic(auto, unfolding(crate::specs::Reading::closed_at))]
fn closed(octets: &[u8]) -> Option<(Body, &[u8])>
    ensures { IsReading (λ b. (b.0, b.1.now)) result (closed_at octets.now) }
{
    let (port, rest) = field(b"closed port ", octets)?;
    Some((Body::Closed { port }, rest))
}

#[tactic(auto, unfolding(crate::specs::Reading::opened_at))]
fn opened(octets: &[u8]) -> Option<(Body, &[u8])>
    ensures { IsReading (λ b. (b.0, b.1.now)) result (opened_at octets.now) }
{
    let (port, rest) = field(b"opened port ", octets)?;
    Some((Body::Opened { port }, rest))
}

#[tactic(auto, unfolding(crate::specs::Reading::halted_at))]
fn halted(octets: &[u8]) -> Option<(Body, &[u8])>
    ensures { IsReading (λ b. (b.0, b.1.now)) result (halted_at octets.now) }
{
    let (port, rest) = field(b"halted port ", octets)?;
    Some((Body::Halted { port }, rest))
}

/// What happens to stations.
#[tactic(auto, unfolding(crate::specs::Reading::station_body_at))]
fn station_body(t: u64, octets: &[u8]) -> Option<(Body, &[u8])>
    ensures { IsReading (λ b. (b.0, b.1.now)) result (station_body_at t octets.now) }
{
    if let Some(found) = received(octets) {
        return Some(found);
    }
    if let Some(found) = sent(t, octets) {
        return Some(found);
    }
    if let Some(found) = collided(t, octets) {
        return Some(found);
    }
    if let Some(found) = dropped(octets) {
        return Some(found);
    }
    if let Some(found) = given_up(t, octets) {
        return Some(found);
    }
    cut(t, octets)
}

/// What happens to repeaters.
#[tactic(auto, unfolding(crate::specs::Reading::repeater_body_at))]
fn repeater_body(octets: &[u8]) -> Option<(Body, &[u8])>
    ensures { IsReading (λ b. (b.0, b.1.now)) result (repeater_body_at octets.now) }
{
    if let Some(found) = clash(octets) {
        return Some(found);
    }
    if let Some(found) = closed(octets) {
        return Some(found);
    }
    if let Some(found) = opened(octets) {
        return Some(found);
    }
    halted(octets)
}

/// What happens in half bit `t` to a repeater or a station.
#[tactic(auto, unfolding(crate::specs::Reading::body_at))]
pub fn body(t: u64, repeater: bool, octets: &[u8]) -> Option<(Body, &[u8])>
    ensures { IsReading (λ b. (b.0, b.1.now)) result (body_at t repeater octets.now) }
{
    if repeater {
        repeater_body(octets)
    } else {
        station_body(t, octets)
    }
}
