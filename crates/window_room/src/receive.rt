//! Stations over half bits: what they log and capture goes into room that was taken before, so that it takes no memory.
ghost use Rattle.std.specs.Prelude.{◌≡◌, ◌+◌, ◌<◌, ◌≤◌, ℕ, suc, List, ◌++◌, length, Option, Some, OnOk};
ghost use Rattle.mac_parameters.specs.Parameters.{most_half_bits};
ghost use Rattle.collision_log.specs.declared.row.Body.TheVariants.{Received};
ghost use Rattle.mac_receive.specs.KeptReceiver.{Hears, IsReceiver, kept_octets};
ghost use Rattle.mac_receive.specs.Receiver.{Receiving, receiver_step};
ghost use Rattle.mac_transmit.specs.Sender.{Sender};
ghost use Rattle.network.specs.Captures.{taken_by};
ghost use Rattle.network.specs.Rows.{row_of};
ghost use Rattle.window_room.specs.NeededRoom.{Covers, Demand, both_demands, demand_times, event_demand, receiver_demand, row_demand, station_demand};
ghost use Rattle.window_room.specs.RepeaterRows.{repeater_window_rows};
ghost use Rattle.window_room.specs.Rooms.{KeepsRoom, SameLists, captures_with};

use crate::RowRoom;
use collision_log::{Body, Row};
use lists::OutOfMemory;
use mac_parameters::{
    CHECK_SEQUENCE, FRAGMENT_EXTENSION, HALF_BITS_A_BIT, HALF_BITS_AN_OCTET, JABBER_LIMIT,
    LEAST_FRAME, PREAMBLE, RECONNECTION,
};
use mac_receive::Receiver;
use manchester_line::Sym;

/// The half bits of the shortest reception of a frame: the end of the start frame delimiter and the least frame (3.2.2,
/// 4.4.2).
const LEAST_RECEPTION: u32 = HALF_BITS_AN_OCTET * LEAST_FRAME + 2 * HALF_BITS_A_BIT;

/// Half of the half bits from one partition of a port to the next, at least (profile).
const GUARD_TURN: u32 = RECONNECTION / 2;

/// Makes room for `n` half bits of so many stations with frames of at most `most` octets before the check sequence, in
/// whatever state they are and whatever they hear. Nothing is lost, whether there is memory or not.
pub fn reserve_stations(
    room: &mut RowRoom,
    stations: usize,
    most: u32,
    n: u32,
) -> Result<(), OutOfMemory>
    ensures same { SameLists room.old room.new }
    ensures kept { KeepsRoom 0 0 0 room.old room.new }
    ensures room { OnOk result (Covers (demand_times stations (station_demand most n)) room.new) }
{
    let rows = (n as usize + 1) / 2 + (1 + (n / PREAMBLE) as usize);
    let frames = 1 + (n / LEAST_RECEPTION) as usize;
    let octets = most as usize + CHECK_SEQUENCE as usize + (n / HALF_BITS_AN_OCTET) as usize;
    let rows = stations.checked_mul(rows).ok_or(OutOfMemory)?;
    let frames = stations.checked_mul(frames).ok_or(OutOfMemory)?;
    let octets = stations.checked_mul(octets).ok_or(OutOfMemory)?;
    room.reserve(rows, frames, octets)
}

/// Makes room for `n` half bits of a repeater of so many ports, in whatever state it is and whatever its ports hear.
/// Nothing is lost, whether there is memory or not.
pub fn reserve_repeater(room: &mut RowRoom, ports: usize, n: u32) -> Result<(), OutOfMemory>
    ensures same { SameLists room.old room.new }
    ensures kept { KeepsRoom 0 0 0 room.old room.new }
    ensures room { OnOk result (repeater_window_rows ports n ≤ room.new.row_room) }
{
    let clashes = 1 + (n / FRAGMENT_EXTENSION) as usize;
    let guards = ports
        .checked_mul(2 + (n / GUARD_TURN) as usize)
        .ok_or(OutOfMemory)?;
    let halts = ports
        .checked_mul(1 + (n / JABBER_LIMIT) as usize)
        .ok_or(OutOfMemory)?;
    let ports_rows = guards.checked_add(halts).ok_or(OutOfMemory)?;
    let rows = clashes.checked_add(ports_rows).ok_or(OutOfMemory)?;
    room.reserve(rows, 0, 0)
}

/// Logs what happened to a device in half bit `t`, where something did.
pub fn log_event(room: &mut RowRoom, t: u64, device: u32, event: Option<Body>)
    requires room { Covers (row_demand event) room.old }
    ensures rows { room.new.rows ≡ room.old.rows ++ row_of t device event }
    ensures captures { room.new.captures ≡ room.old.captures }
    ensures room { KeepsRoom (row_demand event).rows 0 0 room.old room.new }
{
    if let Some(body) = event {
        room.push_row(Row { t, device, body });
    }
}

/// Captures the frame that a station received in half bit `t`, without its check sequence, where it received one.
#[tactic(auto, using(crate::proofs::StationCaptures::same_captures))]
fn capture_event(room: &mut RowRoom, station: usize, t: u64, event: Option<Body>, octets: &[u8])
    requires station { station < length room.old.captures }
    requires frames { (event_demand event).frames ≤ room.old.frame_room }
    requires octets { (n : ℕ) → event ≡ Some (Received n) → length octets.now ≤ n }
    requires room { (event_demand event).octets ≤ room.old.octet_room }
    ensures rows { room.new.rows ≡ room.old.rows }
    ensures captures { room.new.captures ≡ captures_with station (taken_by t event octets.now) room.old.captures }
    ensures room { KeepsRoom 0 (event_demand event).frames (event_demand event).octets room.old room.new }
    ensures stations { length room.new.captures ≡ length room.old.captures }
{
    match event {
        Some(Body::Received { .. }) => room.capture(
            station,
            t,
            &octets[..octets.len().saturating_sub(CHECK_SEQUENCE as usize)],
        ),
        _ => {}
    }
}

/// Logs what happened to a station's receiver in half bit `t`, and captures the frame that was received in it, whose
/// octets these are. The station is counted among those of the room, the device among all.
pub fn keep_reception(
    room: &mut RowRoom,
    station: usize,
    t: u64,
    device: u32,
    event: Option<Body>,
    octets: &[u8],
)
    requires station { station < length room.old.captures }
    requires room { Covers (event_demand event) room.old }
    requires octets { (n : ℕ) → event ≡ Some (Received n) → length octets.now ≤ n }
    ensures rows { room.new.rows ≡ room.old.rows ++ row_of t device event }
    ensures captures { room.new.captures ≡ captures_with station (taken_by t event octets.now) room.old.captures }
    ensures room { KeepsRoom (event_demand event).rows (event_demand event).frames (event_demand event).octets room.old room.new }
    ensures stations { length room.new.captures ≡ length room.old.captures }
{
    log_event(room, t, device, event);
    capture_event(room, station, t, event, octets);
}

/// Half bit `t` of a station's receiver, in which this symbol is heard and its station sends or doesn't. With the room
/// that one half bit can need it takes no memory, and leaves what the later ones can need, beside any other demand.
pub fn receive_one(
    receiver: &mut Receiver,
    room: &mut RowRoom,
    station: usize,
    t: u64,
    device: u32,
    heard: Sym,
    sending: bool,
)
    requires steps { receiver.old.steps < most_half_bits }
    requires hears { IsReceiver receiver.old }
    requires station { station < length room.old.captures }
    requires room { Covers (receiver_demand 1 receiver.old) room.old }
    ensures state { (r : Receiving) → Hears r receiver.old → Hears (receiver_step r heard sending).state receiver.new }
    ensures rows { (r : Receiving) → Hears r receiver.old →
        room.new.rows ≡ room.old.rows ++ row_of t device (receiver_step r heard sending).event }
    ensures captures { (r : Receiving) → Hears r receiver.old →
        room.new.captures
        ≡ captures_with station
        (taken_by t (receiver_step r heard sending).event (receiver_step r heard sending).octets)
        room.old.captures }
    ensures left { (n : ℕ) (other : Demand) →
        Covers (both_demands other (receiver_demand (suc n) receiver.old)) room.old →
        Covers (both_demands other (receiver_demand n receiver.new)) room.new }
    ensures stations { length room.new.captures ≡ length room.old.captures }
    ensures steps { receiver.new.steps ≡ receiver.old.steps + 1 }
{
    let event = receiver.step(heard, sending);
    keep_reception(room, station, t, device, event, receiver.octets());
}
