//! What taps hear while the network of a plan runs.
ghost use Rattle.std.specs.Prelude.{◌≡◌, ◌+◌, ◌-◌, ◌<◌, ◌≤◌, ◌^◌, All, IfOk, List, ℕ, length, slice_index_or};
ghost use Rattle.load_plan.specs.declared.plan.Plan.{Plan};
ghost use Rattle.line_probe.specs.Heard.{AreProbed, heard_from, rows_of_taps};
ghost use Rattle.line_probe.specs.Runs.{AreHeardRuns, AreRunsOf};
ghost use Rattle.line_probe.specs.Taps.{HasTap};
ghost use Rattle.line_probe.specs.declared.tap.Tap.{Tap};
ghost use Rattle.network.specs.Outputs.{half_bits};

use crate::splitting::runs_of;
use crate::{Runs, RunsList, Tap};
use lists::{List, OutOfMemory};
use load_plan::Plan;
use manchester_line::Sym;
use net_step::PlainNet;
use std::alloc::Global;

/// What these taps hear from half bit `from` on and before half bit `to`, half bit by half bit, with one symbol for
/// each tap in each half bit.
pub fn heard_at_taps(
    alloc: Global,
    plan: &Plan,
    taps: &[Tap],
    from: u64,
    to: u64,
) -> Result<List<Sym>, OutOfMemory>
    requires taps { All (HasTap plan.now.layout) taps.now }
    requires order { from < to }
    requires end { to ≤ half_bits plan.now }
    ensures { IfOk result (λ heard. heard ≡ rows_of_taps plan.now taps.now from (to - from)) }
{
    let mut whole = PlainNet::new(alloc, plan)?;
    whole.go_to(from)?;
    let mut heard = List::new(alloc);
    'probed: for t in from..to {
        'taps: for tap in taps {
            heard.push(whole.heard(tap.device, tap.port))?;
        }
        whole.step()?;
    }
    Ok(heard)
}

/// What the tap with this number among so many heard, of what they all heard half bit by half bit.
fn column(alloc: Global, heard: &[Sym], taps: usize, tap: usize) -> Result<List<Sym>, OutOfMemory>
    requires { tap < taps }
    ensures short { IfOk result (λ symbols. length symbols ≤ length heard.now) }
    ensures heard { (plan : Plan) (all : List Tap) (from n : ℕ) (d : Tap) → heard.now ≡ rows_of_taps plan all from n → length all ≡ taps →
        IfOk result (λ symbols. symbols ≡ heard_from plan (slice_index_or all tap d) from n) }
{
    let mut symbols = List::new(alloc);
    let mut rest = heard;
    while rest.len() >= taps {
        symbols.push(rest[tap])?;
        rest = &rest[taps..];
    }
    Ok(symbols)
}

/// The runs of what one of these taps hears, of what they all hear.
pub fn tap_runs(
    alloc: Global,
    heard: &List<Sym>,
    taps: usize,
    tap: usize,
    from: u64,
) -> Result<Runs, OutOfMemory>
    requires tap { tap < taps }
    requires short { from + length heard.now ≤ 2 ^ 63 }
    ensures { (plan : Plan) (all : List Tap) (n : ℕ) (d : Tap) → heard.now ≡ rows_of_taps plan all from n → length all ≡ taps →
        IfOk result (λ runs. AreRunsOf from (heard_from plan (slice_index_or all tap d) from n) runs) }
{
    let symbols = column(alloc, heard.as_slice(), taps, tap)?;
    runs_of(alloc, from, symbols.as_slice())
}

/// The runs of what each of these taps hears from half bit `from` on and before half bit `to`.
pub fn probe(
    alloc: Global,
    plan: &Plan,
    taps: &[Tap],
    from: u64,
    to: u64,
) -> Result<RunsList, OutOfMemory>
    requires few { length taps.now ≤ 16 }
    requires taps { All (HasTap plan.now.layout) taps.now }
    requires order { from < to }
    requires end { to ≤ half_bits plan.now }
    ensures probed { IfOk result (λ lists. AreProbed plan.now from to taps.now lists) }
    ensures heard { IfOk result (All AreHeardRuns) }
{
    let heard = heard_at_taps(alloc, plan, taps, from, to)?;
    let mut lists = RunsList::new(alloc);
    for k in 0..taps.len() {
        lists.push(tap_runs(alloc, &heard, taps.len(), k, from)?)?;
    }
    Ok(lists)
}
