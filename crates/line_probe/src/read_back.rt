//! Reads a text of runs back.
ghost use Rattle.std.specs.Prelude.{◌≡◌, ◌<◌, ◌≤◌, ◌+◌, ◌-◌, ℕ, List, Option, Some, length, slice_get, true, false, IfOk, IfSome, Result, Ok, Err, ◌⊎◌};
ghost use Rattle.mac_parameters.specs.Parameters.{most_half_bits};
ghost use Rattle.load_plan.specs.declared.plan.Plan.{Plan};
ghost use Rattle.line_probe.specs.Heard.{AreProbed};
ghost use Rattle.line_probe.specs.ReadBack.{IsBadRunAt, IsFaultAfter, IsGapAt, AreJudgedRuns, IsSameAt, IsTextOf, IsToldRun, AreUnlessMemory};
ghost use Rattle.line_probe.specs.RunTexts.{text_of_runs};
ghost use Rattle.line_probe.specs.Runs.{AreHeardRuns, end_after_runs};
ghost use Rattle.line_probe.specs.declared.fault.RunsFault.{RunsFault};
ghost use Rattle.line_probe.specs.declared.fault.RunsFault.TheVariants.{BadLine, Gap, OutOfMemory, Same};
ghost use Rattle.line_probe.specs.declared.run.Run.{Run};
ghost use Rattle.line_probe.specs.declared.tap.Tap.{Tap};
ghost use Rattle.network.specs.Outputs.{half_bits};

use crate::fields::line_of;
use crate::{Run, Runs, RunsFault};
use std::alloc::Global;

/// What is wrong with a run in this line after the one before, if there is one.
fn fault_after(before: Option<Run>, run: Run, line: u32) -> Option<RunsFault>
    requires { IfSome before IsToldRun }
    ensures { IsFaultAfter before run line result }
{
    let last = before?;
    if run.start != last.start + last.count {
        return Some(RunsFault::Gap { line });
    }
    if run.symbol == last.symbol {
        return Some(RunsFault::Same { line });
    }
    None
}

/// The runs whose text the octets are, or the first fault.
fn judged_runs(alloc: Global, bytes: &[u8]) -> Result<Runs, RunsFault>
    requires { length bytes.now ≤ 4000000000 }
    ensures { (result ≡ Err OutOfMemory) ⊎ AreJudgedRuns bytes.now result }
{
    let mut runs = Runs::new(alloc);
    let mut rest = bytes;
    let mut last = None;
    let mut number = 0u32;
    while !rest.is_empty() {
        number += 1;
        let Some((run, after)) = line_of(rest) else {
            return Err(RunsFault::BadLine { line: number });
        };
        if let Some(fault) = fault_after(last, run, number) {
            return Err(fault);
        }
        last = Some(run);
        runs.push(run)?;
        rest = after;
    }
    Ok(runs)
}

/// The runs whose text the octets are, of at most 4,000,000,000 octets, or the first fault.
pub fn read_runs(alloc: Global, bytes: &[u8]) -> Result<Runs, RunsFault>
    requires { length bytes.now ≤ 4000000000 }
    ensures runs { IfOk result (λ runs. IsTextOf bytes.now runs) }
    ensures within { IfOk result (λ runs. end_after_runs 0 runs ≤ most_half_bits → AreHeardRuns runs) }
    ensures bad_line { (n : ℕ) → result ≡ Err (BadLine n) → IsBadRunAt n bytes.now }
    ensures gap { (n : ℕ) → result ≡ Err (Gap n) → IsGapAt n bytes.now }
    ensures same { (n : ℕ) → result ≡ Err (Same n) → IsSameAt n bytes.now }
    ensures only { (judged : Result (List Run) RunsFault) → AreJudgedRuns bytes.now judged → AreUnlessMemory result judged }
    ensures heard { (runs : List Run) → AreHeardRuns runs → bytes.now ≡ text_of_runs runs →
        AreUnlessMemory result (Ok runs) }
    ensures probed { (plan : Plan) (from to : ℕ) (taps : List Tap) (lists : List (List Run)) (k : ℕ) (runs : List Run) →
        from < to → to ≤ half_bits plan → AreProbed plan from to taps lists → slice_get lists k ≡ Some runs →
        bytes.now ≡ text_of_runs runs → AreUnlessMemory result (Ok runs) }
{
    judged_runs(alloc, bytes)
}
