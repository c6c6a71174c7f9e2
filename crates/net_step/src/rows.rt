//! The rows of a half bit.
ghost use Rattle.std.specs.Prelude.{◌≡◌, ◌<◌, ◌≤◌, ◌+◌, ◌^◌, ◌++◌, length, OnOk};
ghost use Rattle.network.specs.Rows.{repeater_rows, rows_of_bodies, happened, rows_of, told_bodies, bits_bodies};
ghost use Rattle.network.specs.Outputs.{cut_rows};
ghost use Rattle.net_step.specs.KeptNet.{all_told};

use crate::relay::Relay;
use collision_log::{Body, Row, Rows};
use kept_devices::push_row;
use lists::OutOfMemory;
use mac_transmit::Transmitter;
use repeater_core::{RepeaterEvents, behind_first, has_first};

/// Writes the stations' rows of half bit `t`.
fn log_stations(
    t: u64,
    sent: &[Option<Body>],
    received: &[Option<Body>],
    rows: &mut Rows,
) -> Result<(), OutOfMemory>
    requires len { length sent.now ≡ length received.now }
    requires few { length sent.now < 2 ^ 32 }
    ensures { OnOk result (rows.new ≡ rows.old ++ rows_of t 0 sent.now received.now) }
{
    for k in 0..sent.len() {
        push_row(rows, t, k as u32, sent[k])?;
        push_row(rows, t, k as u32, received[k])?;
    }
    Ok(())
}

/// Writes the row of something that happens where `yes` says so.
fn push_if(rows: &mut Rows, t: u64, device: u32, yes: bool, body: Body) -> Result<(), OutOfMemory>
    ensures { OnOk result (rows.new ≡ rows.old ++ rows_of_bodies t device (happened yes body)) }
{
    if yes {
        rows.push(Row { t, device, body })
    } else {
        Ok(())
    }
}

/// Writes what happens at one port, counted from 1, whose flags are the least bits.
fn log_port(
    rows: &mut Rows,
    t: u64,
    device: u32,
    port: u32,
    events: RepeaterEvents,
) -> Result<(), OutOfMemory>
    ensures { OnOk result (rows.new ≡ rows.old ++ rows_of_bodies t device (bits_bodies port 1 events.closed events.opened events.halted)) }
{
    let halted = has_first(events.halted);
    let closed = has_first(events.closed);
    let opened = has_first(events.opened);
    push_if(rows, t, device, halted, Body::Halted { port })?;
    push_if(rows, t, device, closed, Body::Closed { port })?;
    push_if(rows, t, device, opened, Body::Opened { port })
}

/// Writes what happens at the ports of a repeater.
fn log_ports(
    rows: &mut Rows,
    t: u64,
    device: u32,
    ports: usize,
    events: RepeaterEvents,
) -> Result<(), OutOfMemory>
    requires { ports ≤ 32 }
    ensures { OnOk result (rows.new ≡ rows.old ++ rows_of_bodies t device (bits_bodies 1 ports events.closed events.opened events.halted)) }
{
    let mut left = events;
    for port in 0..ports {
        log_port(rows, t, device, port as u32 + 1, left)?;
        left = behind_first(left);
    }
    Ok(())
}

/// Writes what happens at a repeater.
fn log_repeater(
    rows: &mut Rows,
    t: u64,
    device: u32,
    ports: usize,
    events: RepeaterEvents,
) -> Result<(), OutOfMemory>
    requires { ports ≤ 32 }
    ensures { OnOk result (rows.new ≡ rows.old ++ rows_of_bodies t device (told_bodies ports events)) }
{
    push_if(rows, t, device, events.clash, Body::Clash)?;
    if events.closed == 0 && events.opened == 0 && events.halted == 0 {
        return Ok(());
    }
    log_ports(rows, t, device, ports, events)
}

/// Writes the repeaters' rows of half bit `t`; the first of them is device number `first`.
fn log_repeaters(
    t: u64,
    first: u32,
    relays: &[Relay],
    events: &[RepeaterEvents],
    rows: &mut Rows,
) -> Result<(), OutOfMemory>
    requires len { length events.now ≡ length relays.now }
    requires few { first + length relays.now < 2 ^ 32 }
    ensures { OnOk result (rows.new ≡ rows.old ++ repeater_rows t first (all_told relays.now events.now)) }
{
    for k in 0..relays.len() {
        let ports = relays[k].ports();
        log_repeater(rows, t, first + k as u32, ports, events[k])?;
    }
    Ok(())
}

/// Writes the rows of half bit `t`: those of the stations, then those of the repeaters.
pub fn log_all(
    t: u64,
    sent: &[Option<Body>],
    received: &[Option<Body>],
    relays: &[Relay],
    events: &[RepeaterEvents],
    rows: &mut Rows,
) -> Result<(), OutOfMemory>
    requires stations_len { length sent.now ≡ length received.now }
    requires repeaters_len { length events.now ≡ length relays.now }
    requires few { length sent.now + length relays.now < 2 ^ 32 }
    ensures { OnOk result (rows.new ≡ (rows.old ++ rows_of t 0 sent.now received.now) ++ repeater_rows t (length sent.now) (all_told relays.now events.now)) }
{
    log_stations(t, sent, received, rows)?;
    log_repeaters(t, sent.len() as u32, relays, events, rows)
}

/// Writes the rows of the sendings that are under way at the end `t`.
pub fn log_cut(t: u64, senders: &[Transmitter], rows: &mut Rows) -> Result<(), OutOfMemory>
    requires { length senders.now < 2 ^ 32 }
    ensures { OnOk result (rows.new ≡ rows.old ++ cut_rows t 0 senders.now) }
{
    for k in 0..senders.len() {
        push_row(rows, t, k as u32, senders[k].cut())?;
    }
    Ok(())
}
