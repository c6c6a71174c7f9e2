//! The stations of a segment, one half bit on.
ghost use Rattle.std.specs.Prelude.{◌≡◌, ◌<◌, ◌+◌, ◌++◌, ℕ, suc, length};
ghost use Rattle.mac_parameters.specs.Parameters.{most_half_bits};
ghost use Rattle.manchester_line.specs.Line.{is_signal};
ghost use Rattle.mac_receive.specs.KeptReceiver.{Hears, IsReceiver};
ghost use Rattle.mac_receive.specs.Receiver.{Receiving, receiver_step};
ghost use Rattle.mac_transmit.specs.Sender.{sender_step};
ghost use Rattle.network.specs.Captures.{taken_by};
ghost use Rattle.network.specs.Rows.{row_of};
ghost use Rattle.window_room.specs.NeededRoom.{Covers, Demand, both_demands, sender_demand, receiver_demand};
ghost use Rattle.window_room.specs.Rooms.{captures_with};

use mac_transmit::Transmitter;
use manchester_line::{Sym, is_signal};
use reception_laws::{LateReceiver, Teller};
use window_room::{RowRoom, log_event};

/// Half bit `t` of a station, in which it hears this symbol: of its sender, then of its receiver, which is told whether
/// the station emits something. The station is counted among those of the room, the device among all. It answers what
/// the station emits.
pub fn step_station(
    t: u64,
    station: usize,
    device: u32,
    heard: Sym,
    sender: &mut Transmitter,
    receiver: &mut LateReceiver,
    teller: &mut Teller,
    room: &mut RowRoom,
) -> Sym
    requires time { sender.old.t ≡ t }
    requires steps { receiver.old.steps ≡ t }
    requires in_time { t < most_half_bits }
    requires hears { IsReceiver receiver.old }
    requires station { station < length room.old.captures }
    requires room { Covers (both_demands (sender_demand 1 sender.old) (receiver_demand 1 receiver.old)) room.old }
    ensures state { sender.new ≡ (sender_step sender.old heard).state }
    ensures emitted { result ≡ (sender_step sender.old heard).emitted }
    ensures time { sender.new.t ≡ t + 1 }
    ensures steps { receiver.new.steps ≡ t + 1 }
    ensures receiver { (r : Receiving) → Hears r receiver.old → Hears (receiver_step r heard (is_signal result)).state receiver.new }
    ensures rows { (r : Receiving) → Hears r receiver.old →
        room.new.rows ≡ (room.old.rows ++ row_of t device (sender_step sender.old heard).event)
        ++ row_of t device (receiver_step r heard (is_signal result)).event }
    ensures captures { (r : Receiving) → Hears r receiver.old → room.new.captures
        ≡ captures_with station (taken_by t (receiver_step r heard (is_signal result)).event (receiver_step r heard (is_signal result)).octets) room.old.captures }
    ensures left { (n : ℕ) (other : Demand) →
        Covers (both_demands other (both_demands (sender_demand (suc n) sender.old) (receiver_demand (suc n) receiver.old))) room.old →
        Covers (both_demands other (both_demands (sender_demand n sender.new) (receiver_demand n receiver.new))) room.new }
{
    let step = sender.step(t, heard);
    log_event(room, t, device, step.event);
    let sending = is_signal(step.emitted);
    receiver.receive(teller, room, station, t, device, heard, sending);
    step.emitted
}
