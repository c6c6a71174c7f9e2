ghost use Rattle.std.specs.Prelude.{◌≡◌, ◌≤◌, IfOk};
ghost use Rattle.mac_parameters.specs.Parameters.{most_half_bits};

use backoff_draw::Draws;
use collision_log::Body;
use frame_layout::{Frame, Queue, build};
use lists::OutOfMemory;
use mac_transmit::{Phase, Transmitter};
use manchester_line::{Sym, jam_sym};
use std::alloc::Global;

/// The 14 octets of a frame of 64 octets with pad and FCS, whose line text has 1,152 half bits.
const HEADER_ALONE: [u8; 14] = [255, 255, 255, 255, 255, 255, 2, 0, 0, 0, 0, 1, 8, 0];

fn frame(alloc: Global) -> Result<Frame, OutOfMemory> {
    match build(alloc, &HEADER_ALONE) {
        Ok(frame) => Ok(frame),
        Err(_) => Err(OutOfMemory),
    }
}

/// A new sender with one frame.
fn with_one(alloc: Global, at: u64) -> Result<Transmitter, OutOfMemory>
    ensures { IfOk result (λ s. s.t ≡ 0) }
{
    let mut queue = Queue::new(alloc);
    queue.push(at, frame(alloc)?)?;
    Ok(Transmitter::new(queue, Draws::new(1, 0)))
}

/// A new sender with two frames that are ready at once.
fn with_two(alloc: Global) -> Result<Transmitter, OutOfMemory>
    ensures { IfOk result (λ s. s.t ≡ 0) }
{
    let mut queue = Queue::new(alloc);
    queue.push(0, frame(alloc)?)?;
    queue.push(0, frame(alloc)?)?;
    Ok(Transmitter::new(queue, Draws::new(1, 0)))
}

/// The first event of a sender that hears Hi at these half bits and else Idle, with its half bit.
fn first_event(mut sender: Transmitter, carrier: &[u64], end: u64) -> Option<(u64, Body)>
    requires new { sender.t ≡ 0 }
    requires end { end ≤ most_half_bits }
{
    for t in 0..end {
        let heard = if carrier.contains(&t) {
            Sym::Hi
        } else {
            Sym::Idle
        };
        if let Some(body) = sender.step(t, heard).event {
            return Some((t, body));
        }
    }
    None
}

#[test]
fn a_hit_ends_a_sending_with_its_jam(rt: HostRuntime) -> Result<(), OutOfMemory> {
    let collided = |hit| Body::Collided {
        frame: 1,
        start: 0,
        attempt: 1,
        hit,
        drawn: Draws::new(1, 0).draw(1),
    };
    let sent = Body::Sent {
        frame: 1,
        start: 0,
        attempt: 1,
    };
    for (carrier, t, body) in [
        (127, 192, collided(127)),
        (128, 194, collided(128)),
        (1151, 1216, collided(1151)),
        (1152, 1152, sent),
    ] {
        let sender = with_one(rt.alloc(), 0)?;
        assert_eq!(rt;
            first_event(sender, &[carrier], 2000),
            Some((t, body)),
            "Hi at {carrier}"
        );
    }
    Ok(())
}

#[test]
fn carrier_restarts_part_1_of_the_gap_alone(rt: HostRuntime) -> Result<(), OutOfMemory> {
    for (carrier, start) in [(137, 330), (138, 202)] {
        let sender = with_one(rt.alloc(), 5)?;
        let event = first_event(sender, &[0, 1, 2, 3, 4, 5, 6, 7, 8, 9, carrier], 2000);
        assert_eq!(rt;
            event,
            Some((
                start + 1152,
                Body::Sent {
                    frame: 1,
                    start,
                    attempt: 1
                }
            )),
            "Hi at {carrier}"
        );
    }
    Ok(())
}

/// The sender hears Hi at position 1 of each of its first sixteen sendings. Answers the number of collisions before
/// the frame is given up, the half bit of that, and the start of the next sending.
fn sixteen_hits(mut sender: Transmitter) -> Option<(u32, u64, u64)>
    requires { sender.t ≡ 0 }
{
    let mut collisions = 0u32;
    let mut given_up = None;
    for t in 0..20_000_000 {
        let second =
            matches!(sender.phase(), Phase::Sending { start, .. } if start.checked_add(1) == Some(t));
        let heard = if second && given_up.is_none() {
            Sym::Hi
        } else {
            Sym::Idle
        };
        match sender.step(t, heard).event {
            Some(Body::Collided { hit: 1, .. }) => collisions = collisions.saturating_add(1),
            Some(Body::GivenUp { hit: 1, .. }) => given_up = Some(t),
            Some(Body::Sent { start, .. }) => return given_up.map(|end| (collisions, end, start)),
            _ => {}
        }
    }
    None
}

#[test]
fn a_frame_is_given_up_at_its_sixteenth_collision(rt: HostRuntime) -> Result<(), OutOfMemory> {
    let Some((collisions, end, start)) = sixteen_hits(with_two(rt.alloc())?) else {
        assert!(rt; false, "no frame was given up");
        return Ok(());
    };
    assert_eq!(rt; collisions, 15);
    assert_eq!(rt; start.saturating_sub(end), 192);
    Ok(())
}

/// The first half bit at which a sender that hears Hi at 1,151 and else Idle doesn't emit the jam from 1,152 on, or
/// anything from 1,216 on.
fn first_wrong_jam(mut sender: Transmitter) -> Option<u64>
    requires { sender.t ≡ 0 }
{
    for t in 0..1300 {
        let heard = if t == 1151 { Sym::Hi } else { Sym::Idle };
        let want = match t {
            1152..=1215 => jam_sym((t - 1152) as u32),
            _ => Sym::Idle,
        };
        let emitted = sender.step(t, heard).emitted;
        if t >= 1152 && emitted != want {
            return Some(t);
        }
    }
    None
}

#[test]
fn a_hit_at_the_end_is_followed_by_the_jam(rt: HostRuntime) -> Result<(), OutOfMemory> {
    assert_eq!(rt; first_wrong_jam(with_one(rt.alloc(), 0)?), None);
    Ok(())
}

#[test]
fn a_sender_is_calm_until_its_frame_is_ready(rt: HostRuntime) -> Result<(), OutOfMemory> {
    for (at, carrier, calm) in [
        (100, false, 100),
        (100, true, 100),
        (0, false, 0),
        (4097, false, 4096),
    ] {
        let sender = with_one(rt.alloc(), at)?;
        assert_eq!(rt; sender.calm(0, carrier), calm, "ready at {at}");
    }
    Ok(())
}

#[test]
fn a_sender_passes_long_quiet_at_once(rt: HostRuntime) -> Result<(), OutOfMemory> {
    let mut sender = with_one(rt.alloc(), 100_000)?;
    let Some(100_000) = sender.next_change(0, false) else {
        assert!(rt; false, "the next change isn't that of the frame");
        return Ok(());
    };
    sender.pass(0, 100_000, false);
    assert_eq!(rt; sender.next_change(100_000, false), Some(0));
    Ok(())
}
