//! What the devices of a plan count, and the text of it.
ghost use Rattle.std.specs.Prelude.{◌≡◌, ℕ, ◌≤◌, ◌+◌, ◌-◌, ◌++◌, ◌^◌, length, map, All, IfOk, OnOk};
ghost use Rattle.collision_log.specs.Counters.{counters_line};
ghost use Rattle.run_texts.specs.Counting.{AreAtMost, counted};
ghost use Rattle.run_texts.specs.Counts.{AreLeft, all_counts_after, counts_of, first_counts, station_counts};
ghost use Rattle.run_texts.specs.Texts.{counters_of_rows, lines_of_counts};

use crate::names::device_names;
use collision_log::{Counters, Row, counters_text};
use frame_layout::Queue;
use lists::{List, OutOfMemory};
use load_plan::{Plan, Skips};
use std::alloc::Global;

/// The greatest length of the line of a device's counters, in octets (profile).
const MOST_LINE: usize = 800;

/// What a station counts before its run.
fn station_counts(queue: &Queue, skips: &Skips) -> Counters
    ensures { result ≡ station_counts queue.now skips.now }
{
    Counters {
        queued: u64::from(queue.len()),
        short: u64::from(skips.short),
        long: u64::from(skips.long),
        snapped: u64::from(skips.snapped),
        ..Counters::new()
    }
}

/// What the devices count before a run: the stations, then the repeaters.
#[tactic(auto, unfolding(crate::specs::Counts::first_counts))]
fn first_counts(alloc: Global, plan: &Plan) -> Result<Vec<Counters>, OutOfMemory>
    ensures { IfOk result (λ counts. counts.items ≡ first_counts plan.now) }
{
    let mut counts = Vec::new(alloc);
    for k in 0..plan.queues.len() {
        counts.push(station_counts(plan.queues.get(k), plan.skips.get(k)))?;
    }
    for _repeater in plan.layout.repeaters.as_slice() {
        counts.push(Counters::new())?;
    }
    Ok(counts)
}

/// Counts one row at its device, where there is one.
fn count_row(counts: &mut [Counters], row: &Row)
    requires { AreAtMost counts.old (2 ^ 64 - 2) }
    ensures counts { counts.new ≡ counted 0 counts.old row.now }
    ensures rise { (n : ℕ) → AreAtMost counts.old n → AreAtMost counts.new (n + 1) }
{
    let device = row.device as usize;
    if device < counts.len() {
        counts[device].count(&row.body);
    }
}

/// Counts rows at their devices, which have counted no row before.
fn count_rows(counts: &mut [Counters], rows: &[Row])
    requires { AreAtMost counts.old 0 }
    ensures { counts.new ≡ all_counts_after 0 counts.old rows.now }
{
    for row in rows {
        count_row(counts, row);
    }
}

/// What the devices count over the rows of a run.
#[tactic(auto, unfolding(crate::specs::Counts::counts_of), using(crate::proofs::CountedRows::first_none))]
pub(crate) fn counts_of(
    alloc: Global,
    plan: &Plan,
    rows: &[Row],
) -> Result<Vec<Counters>, OutOfMemory>
    ensures { IfOk result (λ counts. counts.items ≡ counts_of plan.now rows.now) }
{
    let mut counts = first_counts(alloc, plan)?;
    count_rows(counts.as_mut_slice(), rows);
    Ok(counts)
}

/// Puts the line of a device's counters at the end of a text.
fn add_counters(
    text: &mut List<u8>,
    name: &str,
    repeater: bool,
    counters: &Counters,
) -> Result<(), OutOfMemory>
    requires name { length name.now ≤ 32 }
    requires left { counters.now.sent + counters.now.given_up ≤ counters.now.queued }
    ensures { OnOk result (text.new ≡ text.old ++ counters_line counters.now repeater name.now) }
{
    let mut line = [0; MOST_LINE];
    let count = counters_text(counters, repeater, name, &mut line);
    text.extend(&line[..count.min(MOST_LINE)])
}

/// The lines of the counts of devices, of which the first so many are stations.
fn lines_of_counts(
    alloc: Global,
    names: &[&str],
    stations: usize,
    counts: &[Counters],
) -> Result<List<u8>, OutOfMemory>
    requires names { All (λ name. length name ≤ 32) (map (λ name. name.now) names.now) }
    requires left { AreLeft counts.now }
    requires devices { length counts.now ≡ length names.now }
    ensures { IfOk result (λ text. text ≡ lines_of_counts stations 0 (map (λ name. name.now) names.now) counts.now) }
{
    let mut text = List::new(alloc);
    for (k, counters) in counts.iter().enumerate() {
        add_counters(&mut text, names[k], k >= stations, counters)?;
    }
    Ok(text)
}

/// The counters of a plan's run that gave these rows: a line for each device, where no station sent and gave up more
/// frames than its queue has (profile).
#[tactic(auto, unfolding(crate::specs::Texts::counters_of_rows))]
pub fn counters_of_rows(alloc: Global, plan: &Plan, rows: &[Row]) -> Result<List<u8>, OutOfMemory>
    requires { AreLeft (counts_of plan.now rows.now) }
    ensures { IfOk result (λ text. text ≡ counters_of_rows plan.now rows.now) }
{
    let names = device_names(alloc, &plan.layout)?;
    let counts = counts_of(alloc, plan, rows)?;
    let stations = plan.layout.stations.len();
    lines_of_counts(alloc, names.as_slice(), stations, counts.as_slice())
}
