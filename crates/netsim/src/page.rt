//! The page of a run.
ghost use Rattle.std.specs.Prelude.{◌≡◌, ◌<◌, ◌≤◌, IfOk};
ghost use Rattle.network.specs.Outputs.{half_bits, rows};
ghost use Rattle.run_page.specs.Pages.{IsPage};

use collision_log::Rows;
use lists::{List, OutOfMemory};
use load_plan::Plan;
use outside::OpenGate;
use run_page::page;
use std::alloc::Global;
use tap_signals::signals;
use turn_run::run_in_turn;

/// The rows of the run of a plan. What its stations received takes no memory after that.
fn rows_of_run(alloc: Global, plan: &Plan) -> Result<Rows, OutOfMemory>
    ensures { IfOk result (λ list. list ≡ rows plan.now) }
{
    let outputs = run_in_turn(alloc, plan, &OpenGate)?;
    Ok(outputs.rows)
}

/// The page of the run of a plan, from half bit `from` on and before half bit `to`.
pub(crate) fn text_of_page(
    alloc: Global,
    plan: &Plan,
    from: u64,
    to: u64,
) -> Result<List<u8>, OutOfMemory>
    requires order { from < to }
    requires end { to ≤ half_bits plan.now }
    ensures { IfOk result (λ text. IsPage plan.now from to text) }
{
    let rows = rows_of_run(alloc, plan)?;
    let signals = signals(alloc, plan, from, to)?;
    page(alloc, plan, from, to, &signals, rows.as_slice())
}
