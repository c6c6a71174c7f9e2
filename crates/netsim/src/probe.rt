//! The forms that report on half bits of the run of a layout file: what taps hear, or a page.
ghost use Rattle.std.specs.Prelude.{◌≡◌, ◌≤◌, ◌<◌, ◌+◌, ◌^◌, ℕ, List, All, length};
ghost use Rattle.mac_parameters.specs.Parameters.{most_half_bits};
ghost use Rattle.line_probe.specs.Heard.{rows_of_taps};
ghost use Rattle.line_probe.specs.Taps.{HasTap};
ghost use Rattle.line_probe.specs.declared.tap.Tap.{Tap};
ghost use Rattle.load_plan.specs.declared.plan.Plan.{Plan};
ghost use Rattle.network.specs.Outputs.{half_bits};
ghost use Rattle.run_endings.specs.Answers.{ending_of};
ghost use Rattle.program_endings.specs.ProbeEnds.{AreTapsTold, AreTextsTold, IsProbeEnd};
ghost use Rattle.program_words.specs.WordLimits.{most_probed, most_taps};
ghost use Rattle.report_texts.specs.HeardTexts.{AreHeard};

use crate::aim::aim;
use crate::page::text_of_page;
use line_probe::{Tap, heard_at_taps};
use lists::{List, Text};
use load_plan::Plan;
use manchester_line::Sym;
use outside::{Sink, Store};
use program_words::Report;
use report_texts::{text_of_tap, text_of_waves};
use run_endings::Ending;
use run_forms::{World, plan_network, read_network};
use std::alloc::Global;

/// Writes what the taps of these words hear, of what they all hear from half bit `from` on, tap by tap.
fn write_taps<S: Store, K: Sink>(
    alloc: Global,
    heard: &List<Sym>,
    words: &[Text],
    from: u64,
    world: &mut World<S, K>,
) -> Result<(), Ending>
    requires heard { AreHeard heard.now (length words.now) from }
    requires short { from + length heard.now ≤ 2 ^ 63 }
    ensures told { (plan : Plan) (taps : List Tap) (n : ℕ) → heard.now ≡ rows_of_taps plan taps from n → length taps ≡ length words.now →
        AreTextsTold plan from n words.now taps world.old world.new (ending_of result) }
    ensures held { world.new.held ≡ world.old.held }
{
    for k in 0..words.len() {
        let text = text_of_tap(alloc, heard, words.len(), k, from, words[k].as_str())?;
        world.tell(text.as_slice())?;
    }
    Ok(())
}

/// Writes this report of a plan's run from half bit `from` on and before half bit `to`: what these taps hear, as runs
/// and bursts tap by tap, or as the waves of all; or the page.
fn tell_taps<S: Store, K: Sink>(
    alloc: Global,
    report: Report,
    plan: &Plan,
    words: &[Text],
    taps: &[Tap],
    from: u32,
    to: u32,
    world: &mut World<S, K>,
) -> Result<(), Ending>
    requires taps { All (HasTap plan.now.layout) taps.now }
    requires named { length taps.now ≡ length words.now }
    requires few { length taps.now ≤ most_taps }
    requires order { from < to }
    requires short { to ≤ from + most_probed }
    requires end { to ≤ half_bits plan.now }
    requires late { to ≤ most_half_bits }
    ensures told { AreTapsTold report plan.now from to words.now taps.now world.old world.new (ending_of result) }
    ensures held { world.new.held ≡ world.old.held }
{
    let begin = u64::from(from);
    let end = u64::from(to);
    match report {
        Report::Runs => {
            let heard = heard_at_taps(alloc, plan, taps, begin, end)?;
            write_taps(alloc, &heard, words, begin, world)
        }
        Report::Waves => {
            let text = text_of_waves(alloc, plan, words, taps, begin, end)?;
            world.tell(text.as_slice())
        }
        Report::Page => {
            let text = text_of_page(alloc, plan, begin, end)?;
            world.tell(text.as_slice())
        }
    }
}

/// Writes this report of the run of a layout file with its loads, from half bit `from` on and before half bit `to`, over
/// the taps of these words.
pub(crate) fn probe<S: Store, K: Sink>(
    alloc: Global,
    report: Report,
    layout: &str,
    from: u32,
    to: u32,
    words: &[Text],
    world: &mut World<S, K>,
) -> Result<(), Ending>
    requires order { from < to }
    requires short { to ≤ from + most_probed }
    requires late { to ≤ most_half_bits }
    requires few { length words.now ≤ most_taps }
    ensures { IsProbeEnd report layout.now from to words.now world.old world.new (ending_of result) }
{
    let network = read_network(alloc, layout, world)?;
    let taps = aim(alloc, report, &network, to, words, world)?;
    let plan = plan_network(alloc, network, world)?;
    tell_taps(
        alloc,
        report,
        &plan,
        words,
        taps.as_slice(),
        from,
        to,
        world,
    )
}
