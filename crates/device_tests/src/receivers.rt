ghost use Rattle.std.specs.Prelude.{◌≡◌, ◌+◌, ◌≤◌, ◌<◌, length};
ghost use Rattle.mac_parameters.specs.Parameters.{most_half_bits};

use crate::frames::built;
use collision_log::{Body, Why};
use frame_layout::{Frame, FrameFault};
use lists::OutOfMemory;
use mac_receive::Receiver;
use manchester_line::{Sym, encode_into};
use std::alloc::Global;

/// A broadcast of 14 octets, which is padded to a frame of 64 and a line text of 1,152 half bits.
const SHORT: [u8; 14] = [0xff, 0xff, 0xff, 0xff, 0xff, 0xff, 2, 0, 0, 0, 0, 1, 8, 0];

/// What the receiver makes of the first `count` half bits and then silence.
fn hear(receiver: &mut Receiver, text: &[Sym], count: usize) -> Option<Body>
    requires count { count ≤ length text.now }
    requires steps { receiver.old.steps + count < most_half_bits }
{
    for i in 0..count {
        let _row = receiver.step(text[i], false);
    }
    receiver.step(Sym::Idle, false)
}

/// The line text of a frame, and silence behind it.
fn text_of(alloc: Global, frame: &Frame) -> Result<Vec<Sym>, OutOfMemory> {
    let mut text = vec![in alloc; Sym::Idle; 24_480]?;
    encode_into(frame.octets(), &mut text);
    Ok(text)
}

/// What a new receiver makes of the first `count` half bits of the short frame's text, in which these were changed.
fn hear_changed(
    alloc: Global,
    receiver: &mut Receiver,
    changes: &[(usize, Sym)],
    count: usize,
) -> Result<Option<Body>, FrameFault>
    requires { receiver.old.steps ≡ 0 }
{
    let frame = built(alloc, &SHORT)?;
    let mut text = text_of(alloc, &frame)?;
    for (place, symbol) in changes {
        if *place < text.len() {
            text[*place] = *symbol;
        }
    }
    if count > text.len() || count > 24_480 {
        return Ok(None);
    }
    Ok(hear(receiver, text.as_slice(), count))
}

const TAIL: [(usize, Sym); 2] = [(1_152, Sym::Lo), (1_153, Sym::Hi)];

const CLASH: [(usize, Sym); 2] = [(0, Sym::Clash), (1, Sym::Clash)];

/// A row of a reception that is dropped.
fn dropped(why: Why, halves: u32) -> Option<Body> {
    Some(Body::Dropped { why, halves })
}

/// One half bit too few, one bit too many, and a clash, which does nothing where the receiver loses a bit at first.
#[test]
fn receptions_alone(rt: HostRuntime) -> Result<(), FrameFault> {
    let alloc = rt.alloc();
    let whole = Some(Body::Received { octets: 64 });
    let short = hear_changed(alloc, &mut Receiver::new(), &[], 1_151)?;
    assert_eq!(rt; short, dropped(Why::Fragment, 1_151));
    let mut receiver = Receiver::new();
    assert_eq!(rt; hear_changed(alloc, &mut receiver, &TAIL, 1_154)?, whole);
    assert_eq!(rt; receiver.octets(), built(alloc, &SHORT)?.octets());
    let clash = hear_changed(alloc, &mut Receiver::new(), &CLASH, 1_152)?;
    assert_eq!(rt; clash, dropped(Why::Damaged, 1_152));
    let mut loses = Receiver::new_for(1, 1_514);
    assert_eq!(rt; hear_changed(alloc, &mut loses, &CLASH, 1_152)?, whole);
    Ok(())
}

#[test]
fn leaps(rt: HostRuntime) {
    let mut receiver = Receiver::new();
    receiver.leap_sending(1000);
    assert_eq!(rt; receiver.is_deaf(), true);
    if receiver.is_deaf() {
        receiver.leap_deaf(500);
    }
    assert_eq!(rt; receiver.is_deaf(), true);
    if !receiver.is_receiving() {
        receiver.leap_quiet(1);
    }
    if !receiver.is_deaf() {
        receiver.take(&[Sym::Lo, Sym::Hi, Sym::Hi]);
    }
    assert_eq!(rt; receiver.is_receiving(), true);
    let row = receiver.step(Sym::Idle, false);
    assert_eq!(rt;
        row,
        Some(Body::Dropped {
            why: Why::Fragment,
            halves: 3
        })
    );
}
