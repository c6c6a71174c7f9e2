//! Whether a row may follow those before it.
ghost use Rattle.std.specs.Prelude.{◌≡◌, ◌-◌, List, None, Some, length, slice_get, unwrap_or};
ghost use Rattle.collision_log.specs.declared.row.Row.{Row};
ghost use Rattle.layout.specs.NameOctets.{is_between};
ghost use Rattle.run_checkpoint.specs.Progress.{ended_counts};
ghost use Rattle.run_checkpoint.specs.Ranges.{do_all_end, ended_frame, frames_in, is_body_in, is_in_order, is_next_frame, is_row_after, is_row_in, last_row, ports_in, queue_place, frames_ended};

use crate::ranges::{GREATEST_DRAW, is_between};
use collision_log::{Body, Row};
use load_plan::Plan;
use mac_parameters::{ATTEMPT_LIMIT, CHECK_SEQUENCE, LEAST_FRAME, MOST_HALF_BITS, most_octets};
use mac_transmit::SenderState;

/// Whether this may happen at a device with so many frames and ports, where frames have at most so many octets.
fn is_body_in(most: u32, frames: u64, ports: u64, body: &Body) -> bool
    ensures { result ≡ is_body_in most frames ports body.now }
{
    match *body {
        Body::Sent { frame, attempt, .. } => {
            is_between(1, frames, u64::from(frame))
                && is_between(1, u64::from(ATTEMPT_LIMIT), u64::from(attempt))
        }
        Body::Collided {
            frame,
            attempt,
            hit,
            drawn,
            ..
        } => {
            is_between(1, frames, u64::from(frame))
                && is_between(1, u64::from(ATTEMPT_LIMIT), u64::from(attempt))
                && u64::from(hit) <= MOST_HALF_BITS
                && drawn <= GREATEST_DRAW
        }
        Body::GivenUp { frame, hit, .. } => {
            is_between(1, frames, u64::from(frame)) && u64::from(hit) <= MOST_HALF_BITS
        }
        Body::Cut { .. } => false,
        Body::Received { octets } => is_between(
            u64::from(LEAST_FRAME),
            u64::from(most) + u64::from(CHECK_SEQUENCE),
            u64::from(octets),
        ),
        Body::Dropped { halves, .. } => u64::from(halves) <= MOST_HALF_BITS,
        Body::Clash => true,
        Body::Closed { port } | Body::Opened { port } | Body::Halted { port } => {
            is_between(1, ports, u64::from(port))
        }
    }
}

/// How many frames the queue of this device has, where it has one.
fn frames_of(plan: &Plan, device: u32) -> u64
    ensures { result ≡ frames_in (slice_get plan.now.queues device) }
{
    match plan.queues.as_slice().get(device as usize) {
        Some(queue) => queue.len() as u64,
        None => 0,
    }
}

/// How many ports this device has, where it is a repeater.
fn ports_of(plan: &Plan, device: u32) -> u64
    ensures { result ≡ ports_in (slice_get plan.now.layout.repeaters (device - length plan.now.layout.stations)) }
{
    let repeater = (device as usize).saturating_sub(plan.layout.stations.len());
    match plan.layout.repeaters.as_slice().get(repeater) {
        Some(repeater) => repeater.ports.len() as u64,
        None => 0,
    }
}

/// Whether a row's numbers may be those of a row of this plan.
#[tactic(auto, unfolding(crate::specs::Ranges::is_row_in))]
fn is_row_in(plan: &Plan, row: &Row) -> bool
    ensures { result ≡ is_row_in plan.now row.now }
{
    is_body_in(
        most_octets(plan.layout.format == 2),
        frames_of(plan, row.device),
        ports_of(plan, row.device),
        &row.body,
    )
}

/// Whether a row comes no earlier than this one.
fn comes_after(last: &Row, row: &Row) -> bool
    ensures { result ≡ is_in_order (Some last.now) row.now }
{
    last.t < row.t || (last.t == row.t && last.device <= row.device)
}

/// Whether a row comes no earlier than the last of these rows.
fn is_in_order(before: &[Row], row: &Row) -> bool
    ensures { result ≡ is_in_order (last_row None before.now) row.now }
{
    if before.is_empty() {
        return true;
    }
    comes_after(&before[before.len() - 1], row)
}

/// The frame whose sending ends with a row, where one does.
pub fn ended_frame(body: &Body) -> Option<u32>
    ensures { result ≡ ended_frame body.now }
{
    match *body {
        Body::Sent { frame, .. } | Body::GivenUp { frame, .. } => Some(frame),
        _ => None,
    }
}

/// The place of this device's sender, where it has one.
fn place_of(senders: &[SenderState], device: usize) -> u32
    ensures { result ≡ queue_place (slice_get senders.now device) }
{
    match senders.get(device) {
        Some(sender) => sender.place,
        None => 0,
    }
}

/// Whether a frame that ends is the next one after so many, and not past this place.
fn is_next_frame(ended: u32, place: u32, frame: Option<u32>) -> bool
    ensures { result ≡ is_next_frame ended place frame }
{
    match frame {
        Some(frame) => frame > 0 && frame - 1 == ended && frame <= place,
        None => true,
    }
}

/// How many frames of this device have ended, where it is a station.
fn count_of(ended: &[u32], device: u32) -> u32
    ensures { result ≡ unwrap_or (slice_get ended.now device) 0 }
{
    match ended.get(device as usize) {
        Some(count) => *count,
        None => 0,
    }
}

/// Whether a row that ends a frame of its device ends the next one, where so many frames of each station have ended.
fn is_frame_due(senders: &[SenderState], ended: &[u32], row: &Row) -> bool
    ensures { (before : List Row) → ended.now ≡ ended_counts (length senders.now) before →
        result ≡ is_next_frame (frames_ended row.now.device before) (queue_place (slice_get senders.now row.now.device)) (ended_frame row.now.body) }
{
    let count = count_of(ended, row.device);
    let place = place_of(senders, row.device as usize);
    let frame = ended_frame(&row.body);
    is_next_frame(count, place, frame)
}

/// Whether a row may follow these rows in a state of this plan before half bit `t` with these senders, where so many
/// frames of each station have ended.
#[tactic(auto, unfolding(crate::specs::Ranges::is_row_after))]
pub fn is_row_after(
    plan: &Plan,
    t: u64,
    senders: &[SenderState],
    before: &[Row],
    ended: &[u32],
    row: &Row,
) -> bool
    requires { ended.now ≡ ended_counts (length senders.now) before.now }
    ensures { result ≡ is_row_after plan.now t senders.now before.now row.now }
{
    row.t < t
        && is_in_order(before, row)
        && is_row_in(plan, row)
        && is_frame_due(senders, ended, row)
}

/// Whether so many frames of each station have ended as its place says.
pub fn do_all_end(senders: &[SenderState], ended: &[u32]) -> bool
    requires { length ended.now ≡ length senders.now }
    ensures { (rows : List Row) → ended.now ≡ ended_counts (length senders.now) rows →
        result ≡ do_all_end 0 senders.now rows }
{
    'stations: for k in 0..senders.len() {
        if ended[k] != place_of(senders, k) {
            return false;
        }
    }
    true
}
