//! The text of what a tap hears.
ghost use Rattle.std.specs.Prelude.{◌≡◌, ◌++◌, ◌≤◌, ◌<◌, ◌+◌, ◌^◌, ℕ, List, IfOk, OnOk, length, slice_index_or};
ghost use Rattle.line_probe.specs.Heard.{rows_of_taps};
ghost use Rattle.line_probe.specs.RunTexts.{line_of_run, text_of_runs};
ghost use Rattle.line_probe.specs.declared.tap.Tap.{Tap};
ghost use Rattle.load_plan.specs.declared.plan.Plan.{Plan};
ghost use Rattle.report_texts.specs.HeardTexts.{AreHeard, IsTextOfTap, text_of_bursts, line_of_burst, line_of_tap, words_of_burst};

use line_probe::{Burst, Run, bursts, run_text, tap_runs};
use lists::{List, OutOfMemory};
use manchester_line::Sym;
use program_texts::{add_half_bits, add_number};
use std::alloc::Global;

/// Room for the line of a run.
const RUN_ROOM: usize = 80;

/// Puts the line of a tap's word at the end of a text.
#[tactic(auto, unfolding(crate::specs::HeardTexts::line_of_tap))]
fn add_tap(text: &mut List<u8>, word: &str) -> Result<(), OutOfMemory>
    ensures { OnOk result (text.new ≡ text.old ++ line_of_tap word.now) }
{
    text.extend(b"tap ")?;
    text.extend(word.as_bytes())?;
    text.extend(b"\n")
}

/// Puts the line of a run at the end of a text.
fn add_run(text: &mut List<u8>, run: &Run) -> Result<(), OutOfMemory>
    ensures { OnOk result (text.new ≡ text.old ++ line_of_run run.now) }
{
    let mut room = [0; RUN_ROOM];
    let len = run_text(run, &mut room);
    text.extend(&room[..len])
}

/// Puts the lines of runs at the end of a text.
fn add_runs(text: &mut List<u8>, runs: &[Run]) -> Result<(), OutOfMemory>
    ensures { OnOk result (text.new ≡ text.old ++ text_of_runs runs.now) }
{
    for run in runs {
        add_run(text, run)?;
    }
    Ok(())
}

/// Puts how a burst reads at the end of its line.
fn add_reading(text: &mut List<u8>, burst: &Burst) -> Result<(), OutOfMemory>
    ensures { OnOk result (text.new ≡ text.old ++ words_of_burst burst.now) }
{
    if burst.spoiled {
        return text.extend(b" spoiled\n");
    }
    text.extend(b" octets ")?;
    add_number(text, burst.octets)?;
    text.extend(b" spare ")?;
    add_number(text, burst.spare)?;
    text.extend(b"\n")
}

/// Puts the line of a burst at the end of a text.
#[tactic(auto, unfolding(crate::specs::HeardTexts::line_of_burst))]
fn add_burst(text: &mut List<u8>, burst: &Burst) -> Result<(), OutOfMemory>
    ensures { OnOk result (text.new ≡ text.old ++ line_of_burst burst.now) }
{
    text.extend(b"burst ")?;
    add_half_bits(text, burst.start)?;
    text.extend(b" ")?;
    add_half_bits(text, burst.halves)?;
    add_reading(text, burst)
}

/// Puts the lines of bursts at the end of a text.
fn add_bursts(text: &mut List<u8>, bursts: &[Burst]) -> Result<(), OutOfMemory>
    ensures { OnOk result (text.new ≡ text.old ++ text_of_bursts bursts.now) }
{
    for burst in bursts {
        add_burst(text, burst)?;
    }
    Ok(())
}

/// The text of what the tap with this number among so many hears, of what they all hear from half bit `from` on.
pub fn text_of_tap(
    alloc: Global,
    heard: &List<Sym>,
    taps: usize,
    tap: usize,
    from: u64,
    word: &str,
) -> Result<List<u8>, OutOfMemory>
    requires tap { tap < taps }
    requires heard { AreHeard heard.now taps from }
    requires short { from + length heard.now ≤ 2 ^ 63 }
    ensures { (plan : Plan) (all : List Tap) (n : ℕ) (d : Tap) → heard.now ≡ rows_of_taps plan all from n → length all ≡ taps →
        IfOk result (λ text. IsTextOfTap plan from n word.now (slice_index_or all tap d) text) }
{
    let runs = tap_runs(alloc, heard, taps, tap, from)?;
    let mut text = List::new(alloc);
    add_tap(&mut text, word)?;
    add_runs(&mut text, runs.as_slice())?;
    let bursts = bursts(alloc, &runs)?;
    add_bursts(&mut text, bursts.as_slice())?;
    Ok(text)
}
