ghost use Rattle.std.specs.Prelude.{◌≡◌, OnOk, length};
ghost use Rattle.window_room.specs.Rooms.{IsSettled};

use collision_log::{Body, Row};
use lists::OutOfMemory;
use network::{Outputs, Taken};
use std::alloc::Global;
use window_room::{RowRoom, keep_reception, log_event, reserve_repeater};

/// A row of a collision of ports.
fn clash(t: u64) -> Row {
    Row {
        t,
        device: 3,
        body: Body::Clash,
    }
}

/// Puts rows and captures of two stations into a room, and settles it.
fn fill(room: &mut RowRoom) -> Result<(), OutOfMemory>
    requires { length room.old.captures ≡ 2 }
    ensures { OnOk result (IsSettled room.new) }
{
    room.reserve(1, 2, 5)?;
    room.push_row(clash(7));
    room.capture(1, 7, &[1, 2, 3]);
    room.capture(0, 9, &[4, 5]);
    room.reserve(1, 1, 1)?;
    room.push_row(clash(11));
    room.capture(1, 12, &[6]);
    room.settle()
}

/// What comes out of such a room.
fn filled(alloc: Global) -> Result<Outputs, OutOfMemory> {
    let mut room = RowRoom::new(alloc, 2)?;
    fill(&mut room)?;
    Ok(room.into_outputs())
}

/// Whether these are the captures of station 1.
fn are_in_order(taken: &[Taken]) -> bool {
    taken.len() == 2 && taken[0].octets.as_slice() == [1, 2, 3].as_slice() && taken[1].t == 12
}

/// Whether the rows and captures stand in order.
fn is_in_order(outputs: &Outputs) -> bool {
    let captures = outputs.captures.as_slice();
    outputs.rows.as_slice() == [clash(7), clash(11)].as_slice()
        && captures.len() == 2
        && are_in_order(captures[1].as_slice())
}

#[test]
fn rows_and_captures_come_out_in_order(rt: HostRuntime) -> Result<(), OutOfMemory> {
    let outputs = filled(rt.alloc())?;
    assert!(rt; is_in_order(&outputs));
    Ok(())
}

/// Keeps a frame of six octets in a room, and then what makes no row, and settles it.
fn keep(room: &mut RowRoom) -> Result<(), OutOfMemory>
    requires { length room.old.captures ≡ 1 }
    ensures { OnOk result (IsSettled room.new) }
{
    room.reserve(1, 1, 6)?;
    let event = Some(Body::Received { octets: 6 });
    keep_reception(room, 0, 5, 3, event, &[1, 2, 3, 4, 5, 6]);
    reserve_repeater(room, 2, 100)?;
    log_event(room, 9, 3, None);
    room.settle()
}

/// What comes out of such a room.
fn kept(alloc: Global) -> Result<Outputs, OutOfMemory> {
    let mut room = RowRoom::new(alloc, 1)?;
    keep(&mut room)?;
    Ok(room.into_outputs())
}

/// Whether there is one row, and the frame is captured without its check sequence, where one is.
fn is_cut(outputs: &Outputs) -> bool {
    let captures = outputs.captures.as_slice();
    if captures.len() == 1 && captures[0].len() == 1 {
        return outputs.rows.len() == 1 && captures[0].get(0).octets.as_slice() == [1, 2].as_slice();
    }
    outputs.rows.len() == 1
}

#[test]
fn a_frame_is_captured_without_its_check_sequence(rt: HostRuntime) -> Result<(), OutOfMemory> {
    let outputs = kept(rt.alloc())?;
    assert!(rt; is_cut(&outputs));
    Ok(())
}
