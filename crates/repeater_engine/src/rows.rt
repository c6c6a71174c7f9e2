//! The rows of a repeater's half bit, in room that was taken before.
ghost use Rattle.std.specs.Prelude.{◌≡◌, ◌≤◌, ◌<◌, ◌^◌, length};
ghost use Rattle.mac_parameters.specs.Parameters.{most_ports};
ghost use Rattle.network.specs.Rows.{bits_bodies, happened, told_bodies};
ghost use Rattle.repeater_engine.specs.Logging.{Logs};
ghost use Rattle.repeater_engine.specs.RowWaits.{most_rows};

use collision_log::{Body, Row};
use mac_parameters::PARTITION_IN_A_ROW;
use repeater_core::{RepeaterEvents, behind_first, has_first};
use window_room::RowRoom;

/// The half bits from one row of a kind at a place to the next at least.
const ROWS_APART: usize = 2 * PARTITION_IN_A_ROW as usize - 1;

/// The most rows that a repeater of so many ports has in so many half bits.
pub fn rows_in(ports: usize, half_bits: usize) -> usize
    requires few { ports ≤ most_ports }
    requires short { half_bits < 2 ^ 32 }
    ensures { result ≡ most_rows ports half_bits }
{
    (1 + 2 * ports) * (half_bits + ROWS_APART - 1) / ROWS_APART
}

/// Writes the row of something that happens where `yes` says so.
fn push_if(log: &mut RowRoom, t: u64, device: u32, yes: bool, body: Body)
    requires { length (happened yes body) ≤ log.old.row_room }
    ensures { Logs t device (happened yes body) log.old log.new }
{
    if yes {
        log.push_row(Row { t, device, body });
    }
}

/// Writes what happens at one port, counted from 1, whose flags are the least bits.
fn log_port(log: &mut RowRoom, t: u64, device: u32, port: u32, events: RepeaterEvents)
    requires { length (bits_bodies port 1 events.closed events.opened events.halted) ≤ log.old.row_room }
    ensures { Logs t device (bits_bodies port 1 events.closed events.opened events.halted) log.old log.new }
{
    push_if(
        log,
        t,
        device,
        has_first(events.halted),
        Body::Halted { port },
    );
    push_if(
        log,
        t,
        device,
        has_first(events.closed),
        Body::Closed { port },
    );
    push_if(
        log,
        t,
        device,
        has_first(events.opened),
        Body::Opened { port },
    );
}

/// Writes what happens at the ports of a repeater.
fn log_ports(log: &mut RowRoom, t: u64, device: u32, ports: usize, events: RepeaterEvents)
    requires few { ports ≤ most_ports }
    requires room { length (bits_bodies 1 ports events.closed events.opened events.halted) ≤ log.old.row_room }
    ensures { Logs t device (bits_bodies 1 ports events.closed events.opened events.halted) log.old log.new }
{
    let mut left = events;
    for port in 0..ports {
        log_port(log, t, device, port as u32 + 1, left);
        left = behind_first(left);
    }
}

/// Writes what happens at a repeater of so many ports in half bit `t`. There is room for it.
pub fn log_events(log: &mut RowRoom, t: u64, device: u32, ports: usize, events: RepeaterEvents)
    requires few { ports ≤ most_ports }
    requires room { length (told_bodies ports events) ≤ log.old.row_room }
    ensures { Logs t device (told_bodies ports events) log.old log.new }
{
    push_if(log, t, device, events.clash, Body::Clash);
    if events.closed == 0 && events.opened == 0 && events.halted == 0 {
        return;
    }
    log_ports(log, t, device, ports, events);
}
