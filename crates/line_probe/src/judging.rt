//! The bursts in runs.
ghost use Rattle.std.specs.Prelude.{◌≡◌, ◌≢◌, ◌≤◌, ◌<◌, ◌+◌, ◌-◌, ◌==◌, ◌++◌, ◌∷◌, [], ℕ, List, Option, None, Some, IfOk, OnOk, length, replicate, if◌then◌else◌, nat_lt};
ghost use Rattle.mac_parameters.specs.Parameters.{most_half_bits};
ghost use Rattle.manchester_line.specs.Decoding.{Decodes};
ghost use Rattle.manchester_line.specs.declared.Sym.{Sym};
ghost use Rattle.manchester_line.specs.declared.Sym.TheVariants.{Idle};
ghost use Rattle.line_probe.specs.Bursts.{AreBurstsIn, burst_in_front, burst_of, bursts_of, with_burst};
ghost use Rattle.line_probe.specs.Runs.{AreHeardRuns, AreJoined, AreRunsOf, first_start, symbols_of_runs};

use crate::{Burst, Bursts, OutOfMemory, Run, Runs};
use manchester_line::{Decoder, is_signal};
use std::alloc::Global;

/// Gives the decoder the symbols of a run.
fn hear(decoder: &mut Decoder, run: &Run)
    requires signal { run.now.symbol ≢ Idle }
    requires room { decoder.old.halves + run.now.count ≤ most_half_bits }
    ensures halves { decoder.new.halves ≡ decoder.old.halves + run.now.count }
    ensures decodes { (halves : List Sym) → Decodes halves decoder.old →
        Decodes (halves ++ replicate run.now.count run.now.symbol) decoder.new }
{
    for i in 0..run.count {
        decoder.push(run.symbol);
    }
}

/// The burst of what the decoder was given, the first of which is that of half bit `start`, if there was anything.
fn judged(decoder: &Decoder, start: u64) -> Option<Burst>
    ensures { (halves : List Sym) → Decodes halves decoder.now →
        result ≡ (if nat_lt 0 (length halves) then Some (burst_of start halves) else None) }
{
    let heard = decoder.heard();
    if heard.halves == 0 {
        return None;
    }
    let halves = u64::from(heard.halves);
    if heard.spoiled {
        return Some(Burst {
            start,
            halves,
            spoiled: true,
            octets: 0,
            spare: 0,
        });
    }
    Some(Burst {
        start,
        halves,
        spoiled: false,
        octets: heard.octets,
        spare: heard.spare,
    })
}

/// The burst that begins with the first of these runs, in half bit `start`, where Idle ends it.
fn burst_in_front(runs: &[Run], start: u64) -> Option<Burst>
    requires joined { AreJoined start runs.now }
    requires room { length (symbols_of_runs runs.now) ≤ most_half_bits }
    ensures { result ≡ burst_in_front start (symbols_of_runs runs.now) }
{
    let mut decoder = Decoder::new();
    'runs: for run in runs {
        if !is_signal(run.symbol) {
            return judged(&decoder, start);
        }
        hear(&mut decoder, run);
    }
    None
}

/// The burst that begins with the first of these runs, in half bit `start`, where one can begin there and Idle ends it.
fn burst_here(after_idle: bool, runs: &[Run], start: u64) -> Option<Burst>
    requires joined { AreJoined start runs.now }
    requires room { length (symbols_of_runs runs.now) ≤ most_half_bits }
    ensures { result ≡ (if after_idle then burst_in_front start (symbols_of_runs runs.now) else None) }
{
    if !after_idle {
        return None;
    }
    burst_in_front(runs, start)
}

/// Puts the burst, if there is one, at the end.
fn add(bursts: &mut Bursts, burst: Option<Burst>) -> Result<(), OutOfMemory>
    ensures { OnOk result (bursts.new ≡ bursts.old ++ with_burst burst []) }
{
    if let Some(burst) = burst {
        bursts.push(burst)?;
    }
    Ok(())
}

/// Whether the first of these runs begins in half bit 0.
fn begins_at_zero(runs: &[Run]) -> bool
    ensures { result ≡ (first_start runs.now == 0) }
{
    let Some(run) = runs.first() else {
        return true;
    };
    run.start == 0
}

/// The bursts in these runs, in their order: each stretch of signals that Idle ends and that begins after an Idle half
/// bit or in half bit 0.
pub fn bursts(alloc: Global, runs: &Runs) -> Result<Bursts, OutOfMemory>
    requires { AreHeardRuns runs.now }
    ensures exact { (from : ℕ) (symbols : List Sym) → AreRunsOf from symbols runs.now →
        IfOk result (λ bursts. bursts ≡ bursts_of from symbols) }
    ensures maximal { (from : ℕ) (symbols : List Sym) → AreRunsOf from symbols runs.now →
        IfOk result (AreBurstsIn from symbols) }
{
    let runs = runs.as_slice();
    let mut bursts = Bursts::new(alloc);
    let mut after_idle = begins_at_zero(runs);
    for k in 0..runs.len() {
        let burst = burst_here(after_idle, &runs[k..], runs[k].start);
        add(&mut bursts, burst)?;
        after_idle = !is_signal(runs[k].symbol);
    }
    Ok(bursts)
}
