//! The outputs of a run, from those of its parts.
ghost use Rattle.std.specs.Prelude.{◌≡◌, ℕ, IfOk, map};
ghost use Rattle.net_parts.specs.Machines.{span};
ghost use Rattle.net_parts.specs.OutputsOfParts.{captures_of_part, rows_of_parts};
ghost use Rattle.net_parts.specs.Parts.{parts};
ghost use Rattle.network.specs.Outputs.{captures, rows};

use crate::captures::by_station;
use collision_log::{RowsList, merge};
use lists::OutOfMemory;
use load_plan::Plan;
use network::{Captures, Outputs};
use std::alloc::Global;

/// The rows of the run in order of time, and what each station captured, from those of all parts in order of their
/// numbers.
pub fn gather_outputs(
    alloc: Global,
    plan: &Plan,
    logs: RowsList,
    of_parts: Vec<Captures>,
) -> Result<Outputs, OutOfMemory>
    requires logs { logs ≡ rows_of_parts plan.now }
    requires of_parts { of_parts.items ≡ map (captures_of_part plan.now) (span (λ u. u) 0 (parts plan.now)) }
    ensures rows { IfOk result (λ outputs. outputs.rows ≡ rows plan.now) }
    ensures captures { IfOk result (λ outputs. outputs.captures ≡ captures plan.now) }
{
    Ok(Outputs {
        rows: merge(alloc, logs)?,
        captures: by_station(alloc, plan, of_parts)?,
    })
}
