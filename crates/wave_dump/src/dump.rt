//! The value change dump.
ghost use Rattle.std.specs.Prelude.{◌≡◌, ◌*◌, ◌<◌, ◌≤◌, ◌^◌, ◌++◌, List, IfOk, OnOk, length, map};
ghost use Rattle.manchester_line.specs.declared.Sym.{Sym};
ghost use Rattle.mac_parameters.specs.Parameters.{nanoseconds_a_half_bit};
ghost use Rattle.load_plan.specs.declared.plan.Plan.{Plan};
ghost use Rattle.line_probe.specs.Heard.{AreProbed};
ghost use Rattle.line_probe.specs.declared.tap.Tap.{Tap};
ghost use Rattle.wave_dump.specs.Dump.{dump_of_waves};
ghost use Rattle.wave_dump.specs.Heard.{AreTapRuns, waves_of_plan};
ghost use Rattle.wave_dump.specs.Waiting.{begun_moment, runs_after};

use crate::head::add_head;
use crate::values::{MOST_TAPS, add_time};
use crate::waiting::{add_all_begun, do_any_begin, take_begun};
use line_probe::{Run, Runs, RunsList};
use lists::{List, OutOfMemory, Text};
use std::alloc::Global;

/// All runs of each tap.
fn all_waiting(alloc: Global, lists: &[Runs]) -> Result<Vec<&[Run]>, OutOfMemory>
    ensures { IfOk result (λ waiting. map (λ runs. runs.now) waiting.items ≡ lists.now) }
{
    let mut waiting = Vec::new(alloc);
    for runs in lists {
        waiting.push(runs.as_slice())?;
    }
    Ok(waiting)
}

/// Tells half bit t if a run begins in it.
fn tell(text: &mut List<u8>, waiting: &mut [&[Run]], t: u64) -> Result<(), OutOfMemory>
    requires few { length waiting.old ≤ MOST_TAPS }
    requires time { nanoseconds_a_half_bit * t < 2 ^ 64 }
    ensures text { OnOk result (text.new ≡ text.old ++ begun_moment t (map (λ runs. runs.now) waiting.old)) }
    ensures waiting { OnOk result (map (λ runs. runs.now) waiting.new ≡ map (runs_after t) (map (λ runs. runs.now) waiting.old)) }
{
    if !do_any_begin(waiting, t) {
        return Ok(());
    }
    add_time(text, t)?;
    add_all_begun(text, waiting, t)?;
    take_begun(waiting, t);
    Ok(())
}

/// The value change dump (IEEE 1364 clause 18, the four-state form) of what 1 to 16 taps hear from half bit `from` on
/// and before half bit `to`. It takes the names of the taps and, in the same order, the runs of what each hears, as
/// `probe` answers them; of other runs nothing is said. The text has the head; the values of all taps in the first half
/// bit; each later half bit in which a tap hears another symbol than before, with the values that changed, in the order
/// of the taps; the time of `to`. Half bits count from 0, and times are nanoseconds. The code of the k-th tap, from 0,
/// is the character 33 + k. The one refusal is want of memory. It takes one look at each tap a half bit.
pub fn waves_text(
    alloc: Global,
    names: &[Text],
    from: u64,
    to: u64,
    lists: &RunsList,
) -> Result<List<u8>, OutOfMemory>
    requires names { length names.now ≡ length lists.now }
    requires few { length lists.now ≤ MOST_TAPS }
    requires order { from < to }
    requires time { nanoseconds_a_half_bit * to < 2 ^ 64 }
    ensures text { (heard : List (List Sym)) → AreTapRuns from to heard lists.now →
        IfOk result (λ text. text ≡ dump_of_waves names.now from to heard) }
    ensures probed { (plan : Plan) (taps : List Tap) → AreProbed plan from to taps lists.now →
        IfOk result (λ text. text ≡ waves_of_plan plan names.now taps from to) }
{
    let mut text = List::new(alloc);
    add_head(&mut text, names, from, to)?;
    add_time(&mut text, from)?;
    text.extend(b"$dumpvars\n")?;
    let mut waiting = all_waiting(alloc, lists.as_slice())?;
    add_all_begun(&mut text, &waiting, from)?;
    take_begun(&mut waiting, from);
    text.extend(b"$end\n")?;
    'told: for t in from + 1..to {
        tell(&mut text, &mut waiting, t)?;
    }
    add_time(&mut text, to)?;
    Ok(text)
}
