//! The text of the waves that taps hear.
ghost use Rattle.std.specs.Prelude.{◌≡◌, ◌≤◌, ◌<◌, All, IfOk, length};
ghost use Rattle.mac_parameters.specs.Parameters.{most_half_bits};
ghost use Rattle.line_probe.specs.Taps.{HasTap};
ghost use Rattle.network.specs.Outputs.{half_bits};
ghost use Rattle.program_words.specs.WordLimits.{most_taps};
ghost use Rattle.wave_dump.specs.Heard.{waves_of_plan};

use line_probe::{Tap, probe};
use lists::{List, OutOfMemory, Text};
use load_plan::Plan;
use std::alloc::Global;
use wave_dump::waves_text;

/// The value change dump of what these taps, under these names, hear in the network of a plan, from half bit `from` on
/// and before half bit `to`.
pub fn text_of_waves(
    alloc: Global,
    plan: &Plan,
    names: &[Text],
    taps: &[Tap],
    from: u64,
    to: u64,
) -> Result<List<u8>, OutOfMemory>
    requires taps { All (HasTap plan.now.layout) taps.now }
    requires named { length taps.now ≡ length names.now }
    requires few { length taps.now ≤ most_taps }
    requires order { from < to }
    requires end { to ≤ half_bits plan.now }
    requires late { to ≤ most_half_bits }
    ensures { IfOk result (λ text. text ≡ waves_of_plan plan.now names.now taps.now from to) }
{
    let lists = probe(alloc, plan, taps, from, to)?;
    waves_text(alloc, names, from, to, &lists)
}
