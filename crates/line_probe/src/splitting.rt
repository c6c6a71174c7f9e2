//! The runs of a list of symbols.
ghost use Rattle.std.specs.Prelude.{◌≡◌, ◌+◌, ◌<◌, ◌≤◌, ◌^◌, ◌∷◌, ◌++◌, [], ℕ, List, IfOk, length};
ghost use Rattle.manchester_line.specs.declared.Sym.{Sym};
ghost use Rattle.line_probe.specs.Runs.{AreRunsOf};

use crate::{Run, Runs};
use lists::OutOfMemory;
use manchester_line::Sym;
use std::alloc::Global;

/// The run under way after one more symbol: it goes on, or is put at the end and another one begins.
fn next_run(runs: &mut Runs, run: Run, symbol: Sym) -> Result<Run, OutOfMemory>
    requires { run.start + run.count < 2 ^ 63 }
    ensures runs { (from : ℕ) (symbols : List Sym) → AreRunsOf from symbols (runs.old ++ run ∷ []) →
        IfOk result (λ next. AreRunsOf from (symbols ++ symbol ∷ []) (runs.new ++ next ∷ [])) }
    ensures ends { IfOk result (λ next. next.start + next.count ≡ run.start + run.count + 1) }
{
    if symbol == run.symbol {
        return Ok(Run {
            start: run.start,
            count: run.count + 1,
            symbol: run.symbol,
        });
    }
    runs.push(run)?;
    Ok(Run {
        start: run.start + run.count,
        count: 1,
        symbol,
    })
}

/// The runs of these symbols, the first of which is that of half bit `from`.
pub fn runs_of(alloc: Global, from: u64, symbols: &[Sym]) -> Result<Runs, OutOfMemory>
    requires { from + length symbols.now ≤ 2 ^ 63 }
    ensures { IfOk result (λ runs. AreRunsOf from symbols.now runs) }
{
    let mut runs = Runs::new(alloc);
    let Some((first, rest)) = symbols.split_first() else {
        return Ok(runs);
    };
    let mut run = Run {
        start: from,
        count: 1,
        symbol: *first,
    };
    'symbols: for symbol in rest {
        run = next_run(&mut runs, run, *symbol)?;
    }
    runs.push(run)?;
    Ok(runs)
}
