//! What taps emit while the network of a plan runs.
ghost use Rattle.std.specs.Prelude.{◌≡◌, ◌+◌, ◌-◌, ◌<◌, ◌≤◌, ◌^◌, ℕ, [], length, map, slice_index_or, All, IfOk, OnOk};
ghost use Rattle.mac_parameters.specs.Parameters.{greatest_delay, most_half_bits};
ghost use Rattle.layout.specs.Paths.{IsTap};
ghost use Rattle.network.specs.Net.{net};
ghost use Rattle.network.specs.Outputs.{half_bits};
ghost use Rattle.net_step.specs.KeptNet.{Stands};
ghost use Rattle.tap_signals.specs.Signals.{AreSignals};
ghost use Rattle.tap_signals.specs.Told.{AreListsTold, HasDevice, TellsKinds, rest_told, kind_told};

use crate::kind::{SignalKind, decided_kind, sent_kind};
use crate::stretch::{Stretches, StretchesList, Window, tell};
use crate::taps::{delay_of, taps_in_order};
use layout::Attachment;
use lists::OutOfMemory;
use load_plan::Plan;
use mac_parameters::{GREATEST_DELAY, GREATEST_PLACE};
use net_step::PlainNet;
use std::alloc::Global;

/// The half bits of rest that a tap has left: none, if it is that of a station.
fn rest_of(whole: &PlainNet, tap: Attachment) -> u32
    requires { HasDevice whole.now tap }
    ensures { result ≡ rest_told whole.now tap }
{
    match tap {
        Attachment::Station(_) => 0,
        Attachment::Port { repeater, port } => whole.rest(repeater, port),
    }
}

/// What was decided for a tap in half bit `t`, the last that the network made; a station emits it at once. The tap had
/// `rested` half bits of rest left before it.
fn kind_of(whole: &PlainNet, tap: Attachment, rested: u32, t: u64) -> Option<SignalKind>
    requires { HasDevice whole.now tap }
    ensures { result ≡ kind_told whole.now tap rested t }
{
    match tap {
        Attachment::Station(station) => sent_kind(t, whole.phase(station)),
        Attachment::Port { repeater, port } => {
            let rests = whole.rest(repeater, port);
            decided_kind(whole.mode(repeater), rested, rests, port)
        }
    }
}

/// Writes the half bits of rest that each of these taps has left.
fn write_rests(whole: &PlainNet, taps: &[Attachment], rests: &mut [u32])
    requires taps { All (HasDevice whole.now) taps.now }
    requires many { length rests.old ≡ length taps.now }
    ensures { rests.new ≡ map (rest_told whole.now) taps.now }
{
    for k in 0..taps.len() {
        rests[k] = rest_of(whole, taps[k]);
    }
}

/// Adds what was decided for each of these taps in half bit `t`, the last that the network made, to their stretches.
fn tell_all(
    whole: &PlainNet,
    plan: &Plan,
    taps: &[Attachment],
    rested: &[u32],
    t: u64,
    window: Window,
    lists: &mut [Stretches],
) -> Result<(), OutOfMemory>
    requires taps { All (IsTap plan.now.layout) taps.now }
    requires devices { All (HasDevice whole.now) taps.now }
    requires rested { length rested.now ≡ length taps.now }
    requires time { t < 2 ^ 32 }
    requires kinds { TellsKinds plan.now whole.now taps.now rested.now t }
    requires told { AreListsTold plan.now taps.now window.start window.end t lists.old }
    ensures { OnOk result (AreListsTold plan.now taps.now window.start window.end (t + 1) lists.new) }
{
    for k in 0..taps.len() {
        let kind = kind_of(whole, taps[k], rested[k], t);
        let emitted = t + delay_of(&plan.layout, taps[k]);
        let stretches = &mut lists[k];
        tell(stretches, window, emitted, kind)?;
    }
    Ok(())
}

/// No stretches for each of so many taps.
fn no_stretches(alloc: Global, taps: usize) -> Result<Vec<Stretches>, OutOfMemory>
    ensures many { IfOk result (λ lists. length lists.items ≡ taps) }
    ensures none { IfOk result (λ lists. (k : ℕ) → slice_index_or lists.items k [] ≡ []) }
{
    let mut lists = Vec::new(alloc);
    for _tap in 0..taps {
        lists.push(Stretches::new(alloc))?;
    }
    Ok(lists)
}

/// The same stretches as a list.
fn listed(alloc: Global, lists: Vec<Stretches>) -> Result<StretchesList, OutOfMemory>
    ensures { IfOk result (λ signals. signals ≡ lists.items) }
{
    let mut signals = StretchesList::new(alloc);
    for stretches in lists {
        signals.push(stretches)?;
    }
    Ok(signals)
}

/// Goes on by half bit `t`, and adds what is decided in it for these taps to their stretches.
fn tell_step(
    whole: &mut PlainNet,
    plan: &Plan,
    taps: &[Attachment],
    rests: &mut [u32],
    t: u64,
    window: Window,
    lists: &mut [Stretches],
) -> Result<(), OutOfMemory>
    requires taps { All (IsTap plan.now.layout) taps.now }
    requires rests { length rests.old ≡ length taps.now }
    requires in_time { t < most_half_bits }
    requires time { whole.old.t ≡ t }
    requires stands { Stands (net plan.now t) whole.old }
    requires told { AreListsTold plan.now taps.now window.start window.end t lists.old }
    ensures time { OnOk result (whole.new.t ≡ t + 1) }
    ensures stands { OnOk result (Stands (net plan.now (t + 1)) whole.new) }
    ensures told { OnOk result (AreListsTold plan.now taps.now window.start window.end (t + 1) lists.new) }
{
    write_rests(whole, taps, rests);
    whole.step()?;
    tell_all(whole, plan, taps, rests, t, window, lists)
}

/// The stretches of these taps in a window, while the network goes on from half bit `begin` to the window's end. Half
/// bits in which no tap emits are passed over many at once.
fn told_from(
    alloc: Global,
    plan: &Plan,
    taps: &[Attachment],
    begin: u64,
    window: Window,
) -> Result<Vec<Stretches>, OutOfMemory>
    requires taps { All (IsTap plan.now.layout) taps.now }
    requires begin { begin ≡ window.start - greatest_delay }
    requires order { window.start < window.end }
    requires end { window.end ≤ half_bits plan.now }
    ensures { IfOk result (λ lists. AreListsTold plan.now taps.now window.start window.end window.end lists.items) }
{
    let mut whole = PlainNet::new(alloc, plan)?;
    whole.go_to(begin)?;
    let mut lists = no_stretches(alloc, taps.len())?;
    let mut rests = vec![in alloc; 0u32; taps.len()]?;
    let mut t = begin;
    'window: while t < window.end {
        let later = whole.pass_silence(window.end);
        if later > t {
            t = later;
            continue;
        }
        tell_step(&mut whole, plan, taps, &mut rests, t, window, &mut lists)?;
        t += 1;
    }
    Ok(lists)
}

/// For each tap of a plan's layout, stations first and then ports, the stretches of one kind of what it emits before
/// half bit `to`. They begin so many half bits before half bit `from` as a signal may be on its way along a cable.
pub fn signals(alloc: Global, plan: &Plan, from: u64, to: u64) -> Result<StretchesList, OutOfMemory>
    requires order { from < to }
    requires end { to ≤ half_bits plan.now }
    ensures { IfOk result (AreSignals plan.now from to) }
{
    let window = Window {
        start: from.saturating_sub(u64::from(GREATEST_PLACE)),
        end: to,
    };
    let begin = window.start.saturating_sub(GREATEST_DELAY);
    let taps = taps_in_order(alloc, plan)?;
    let lists = told_from(alloc, plan, &taps, begin, window)?;
    listed(alloc, lists)
}
