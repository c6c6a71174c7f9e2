//! The page of a run.
ghost use Rattle.std.specs.Prelude.{◌≡◌, ◌++◌, IfOk, OnOk, length};
ghost use Rattle.layout.specs.Sound.{IsSound};
ghost use Rattle.tap_signals.specs.Taps.{taps_in_order};
ghost use Rattle.run_page.specs.Pages.{data_lines, page_head, page_tail, page_text};

use crate::head::HEAD;
use crate::layout_lines::{add_layout, add_run, add_window};
use crate::row_lines::add_rows;
use crate::signal_lines::add_signals;
use crate::tail::TAIL;
use collision_log::Row;
use layout::Layout;
use lists::{List, OutOfMemory};
use load_plan::Plan;
use std::alloc::Global;
use tap_signals::StretchesList;

/// Puts what stands before the data lines of each page at the end of a text.
#[tactic(auto, unfolding(crate::specs::Pages::page_head))]
fn add_head(text: &mut List<u8>) -> Result<(), OutOfMemory>
    ensures { OnOk result (text.new ≡ text.old ++ page_head) }
{
    text.extend(HEAD.as_bytes())
}

/// Puts what stands after the data lines of each page at the end of a text.
#[tactic(auto, unfolding(crate::specs::Pages::page_tail))]
fn add_tail(text: &mut List<u8>) -> Result<(), OutOfMemory>
    ensures { OnOk result (text.new ≡ text.old ++ page_tail) }
{
    text.extend(TAIL.as_bytes())
}

/// Puts the data lines of a page at the end of a text.
#[tactic(auto, unfolding(crate::specs::Pages::data_lines))]
fn add_data(
    text: &mut List<u8>,
    layout: &Layout,
    from: u64,
    to: u64,
    signals: &StretchesList,
    rows: &[Row],
) -> Result<(), OutOfMemory>
    requires sound { IsSound layout.now }
    requires taps { length signals.now ≡ length (taps_in_order layout.now) }
    ensures { OnOk result (text.new ≡ text.old ++ data_lines layout.now from to signals.now rows.now) }
{
    add_window(text, from, to)?;
    add_run(text, layout)?;
    add_layout(text, layout)?;
    add_signals(text, layout, signals.as_slice())?;
    add_rows(text, layout, from, to, rows)
}

/// The page of the half bits from `from` to below `to` of a plan's run: one HTML file that needs nothing else. It takes
/// the stretches of what each tap of the layout emits, stations first and then ports, and the rows of the whole run, of
/// which it has those that meet the half bits. Half bits count from 0. The one refusal is want of memory.
#[tactic(auto, unfolding(crate::specs::Pages::page_text))]
pub fn page(
    alloc: Global,
    plan: &Plan,
    from: u64,
    to: u64,
    signals: &StretchesList,
    rows: &[Row],
) -> Result<List<u8>, OutOfMemory>
    requires { length signals.now ≡ length (taps_in_order plan.now.layout) }
    ensures { IfOk result (λ text. text ≡ page_text plan.now.layout from to signals.now rows.now) }
{
    let mut text = List::new(alloc);
    add_head(&mut text)?;
    add_data(&mut text, &plan.layout, from, to, signals, rows)?;
    add_tail(&mut text)?;
    Ok(text)
}
