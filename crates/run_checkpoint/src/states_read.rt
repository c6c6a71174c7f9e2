//! The lines of the half bit, of senders and of ports.
ghost use Rattle.std.specs.Prelude.{◌≡◌, ◌<◌, ◌≤◌, ◌+◌, ◌^◌, [], Ok, IfOk, true, length, nat_lt, map};
ghost use Rattle.network.specs.Outputs.{half_bits};
ghost use Rattle.run_checkpoint.specs.GuardLines.{guard_of_line};
ghost use Rattle.run_checkpoint.specs.Judging.{judged_guards, judged_line, judged_senders};
ghost use Rattle.run_checkpoint.specs.LineForms.{guard_form, sender_form, time_form};
ghost use Rattle.run_checkpoint.specs.PortNames.{named_port};
ghost use Rattle.run_checkpoint.specs.Progress.{IsJudgedOn};
ghost use Rattle.run_checkpoint.specs.Ranges.{is_defer_in, is_guard_in, is_sender_in};
ghost use Rattle.run_checkpoint.specs.SenderLines.{defer_of_line, sender_of_line};
ghost use Rattle.run_checkpoint.specs.TextLines.{text_lines};

use crate::StateFault;
use crate::guard_line::{GuardLine, guard_of};
use crate::places::PortName;
use crate::ranges::{is_guard_in, is_sender_in};
use crate::sender_line::{DeferLine, SenderLine, sender_of, time_of};
use crate::text_line::line_in_front;
use frame_layout::Queue;
use layout::StationLine;
use mac_transmit::{Defer, SenderState};
use port_partition::PortGuard;
use quiet_state::{GuardList, NumberList, SenderList};
use std::alloc::Global;

/// The half bit, below this one, whose line this is; it is the first line.
pub fn judged_time(half_bits: u64, line: &[u8]) -> Result<u64, StateFault>
    ensures { result ≡ judged_line 1 (time_form line.now) (λ t. nat_lt t half_bits) }
{
    let Some(t) = time_of(line) else {
        return Err(StateFault::BadLine { line: 1 });
    };
    if t >= half_bits {
        return Err(StateFault::BadValue { line: 1 });
    }
    Ok(t)
}

/// How a sender waits, by its line, whose values keep the rules.
fn defer_told(defer: DeferLine) -> Defer
    requires { is_defer_in (defer_of_line defer) ≡ true }
    ensures { result ≡ defer_of_line defer }
{
    match defer {
        DeferLine::Watch => Defer::Watch,
        DeferLine::Busy { was } => Defer::Busy { was },
        DeferLine::Gap { k, was } => Defer::Gap { k: k as u32, was },
    }
}

/// The state of a sender with so many frames, by its line, whose values keep the rules.
fn sender_told(frames: u64, line: &SenderLine) -> SenderState
    requires { is_sender_in frames (sender_of_line line.now) ≡ true }
    ensures { result ≡ sender_of_line line.now }
{
    SenderState {
        phase: line.phase,
        defer: defer_told(line.defer),
        attempt: line.attempt as u32,
        place: line.place as u32,
        drawn: line.drawn as u32,
    }
}

/// The sender of a station with this name and so many frames, whose line this is.
fn judged_sender(
    name: &str,
    frames: u64,
    number: u32,
    line: &[u8],
) -> Result<SenderState, StateFault>
    ensures { result ≡ judged_line number (sender_form name.now line.now) (is_sender_in frames) }
{
    let Some(sender) = sender_of(name, line) else {
        return Err(StateFault::BadLine { line: number });
    };
    if !is_sender_in(frames, &sender) {
        return Err(StateFault::BadValue { line: number });
    }
    Ok(sender_told(frames, &sender))
}

/// The senders of these stations with these queues, whose lines stand in front, from line 2 on, and the octets after
/// them.
pub fn judged_senders<'a>(
    alloc: Global,
    stations: &[StationLine],
    queues: &[Queue],
    octets: &'a [u8],
) -> Result<(SenderList, &'a [u8]), StateFault>
    requires many { length queues.now ≡ length stations.now }
    requires room { length stations.now < 2 ^ 31 }
    ensures judged { IsJudgedOn (λ x. Ok (x.0, text_lines x.1.now)) result (judged_senders 2 [] stations.now queues.now (text_lines octets.now)) }
    ensures shorter { IfOk result (λ x. length x.1.now ≤ length octets.now) }
    ensures many_told { IfOk result (λ x. length x.0 ≡ length stations.now) }
{
    let mut senders = SenderList::new(alloc);
    let mut rest = octets;
    'stations: for k in 0..stations.len() {
        let number = k as u32 + 2;
        let Some((line, after)) = line_in_front(rest) else {
            return Err(StateFault::BadLine { line: number });
        };
        let name = stations[k].name.as_str();
        let sender = judged_sender(name, queues[k].len() as u64, number, line)?;
        senders.push(sender)?;
        rest = after;
    }
    Ok((senders, rest))
}

/// The guard of a port, and for how many half bits it rests, by its line, whose values keep the rules.
fn guard_told(line: &GuardLine) -> (PortGuard, u32)
    requires { is_guard_in (guard_of_line line.now).0 line.now.rest ≡ true }
    ensures { result ≡ guard_of_line line.now }
{
    let guard = PortGuard {
        closed: line.closed,
        mend: line.mend,
        struck: line.struck,
        in_row: line.in_row as u32,
        clash_run: line.clash_run as u32,
        clean_run: line.clean_run as u32,
    };
    (guard, line.rest as u32)
}

/// The guard of this port, and for how many half bits it rests, whose line this is.
fn judged_guard(
    port: &PortName<'_>,
    number: u32,
    line: &[u8],
) -> Result<(PortGuard, u32), StateFault>
    ensures { result ≡ judged_line number (guard_form port.now.name.now port.now.port line.now) (λ g. is_guard_in g.0 g.1) }
{
    let Some(guard) = guard_of(port.name, port.port, line) else {
        return Err(StateFault::BadLine { line: number });
    };
    if !is_guard_in(&guard) {
        return Err(StateFault::BadValue { line: number });
    }
    Ok(guard_told(&guard))
}

/// The guards of these ports, for how many half bits each rests, whose lines stand in front, from this line on, and the
/// octets after them.
pub fn judged_guards<'a>(
    alloc: Global,
    ports: &[PortName<'_>],
    first: u32,
    octets: &'a [u8],
) -> Result<(GuardList, NumberList, &'a [u8]), StateFault>
    requires room { first + length ports.now < 2 ^ 32 }
    ensures judged { IsJudgedOn (λ x. Ok (x.0, x.1, text_lines x.2.now)) result (judged_guards first [] [] (map named_port ports.now) (text_lines octets.now)) }
    ensures shorter { IfOk result (λ x. length x.2.now ≤ length octets.now) }
{
    let mut guards = GuardList::new(alloc);
    let mut rests = NumberList::new(alloc);
    let mut rest = octets;
    'ports: for k in 0..ports.len() {
        let number = first + k as u32;
        let Some((line, after)) = line_in_front(rest) else {
            return Err(StateFault::BadLine { line: number });
        };
        let (guard, rested) = judged_guard(&ports[k], number, line)?;
        guards.push(guard)?;
        rests.push(rested)?;
        rest = after;
    }
    Ok((guards, rests, rest))
}
