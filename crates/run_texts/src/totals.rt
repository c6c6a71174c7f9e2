//! The sums of the counters of all devices.
ghost use Rattle.std.specs.Prelude.{◌≡◌, ◌+◌, ◌++◌, IfOk, OnOk, decimal};
ghost use Rattle.collision_log.specs.Counters.{left_of};
ghost use Rattle.run_texts.specs.Counts.{counts_of, dropped_of, totals};
ghost use Rattle.run_texts.specs.Texts.{receiving_totals, sending_totals, totals_line, totals_of_rows};

use crate::counts::counts_of;
use collision_log::{Counters, Row};
use lists::{List, OutOfMemory};
use load_plan::Plan;
use std::alloc::Global;

/// The sums over all devices.
#[derive(Clone, Copy)]
pub struct Sums {
    pub sent: u64,
    pub collided: u64,
    pub late: u64,
    pub given_up: u64,
    pub cut: u64,
    pub left: u64,
    pub received: u64,
    pub dropped: u64,
    pub clash: u64,
    pub closed: u64,
    pub opened: u64,
}

/// A sum that passes 64 bits is answered as want of memory.
fn sum(a: u64, b: u64) -> Result<u64, OutOfMemory>
    ensures { IfOk result (λ sum. sum ≡ a + b) }
{
    a.checked_add(b).ok_or(OutOfMemory)
}

/// How many frames a device neither sent nor gave up.
fn left_of(counters: &Counters) -> u64
    ensures { result ≡ left_of counters.now }
{
    counters
        .queued
        .saturating_sub(counters.sent)
        .saturating_sub(counters.given_up)
}

/// How many receptions a device dropped, for whatever cause.
fn dropped_of(counters: &Counters) -> Result<u64, OutOfMemory>
    ensures { IfOk result (λ dropped. dropped ≡ dropped_of counters.now) }
{
    let short = sum(counters.fragment, counters.too_long)?;
    let wrong = sum(short, counters.fcs)?;
    let odd = sum(wrong, counters.align)?;
    sum(odd, counters.damaged)
}

impl Sums {
    ghost use Rattle.std.specs.Prelude.{◌≡◌, [], IfOk};
    ghost use Rattle.run_texts.specs.Counting.{with_counts};
    ghost use Rattle.run_texts.specs.Counts.{totals};

    /// The sums over no device.
    #[tactic(auto, unfolding(crate::specs::Counts::totals))]
    fn new() -> Sums
        ensures { result ≡ totals [] }
    {
        Sums {
            sent: 0,
            collided: 0,
            late: 0,
            given_up: 0,
            cut: 0,
            left: 0,
            received: 0,
            dropped: 0,
            clash: 0,
            closed: 0,
            opened: 0,
        }
    }

    /// The sums with those of one more device.
    fn with(&self, counters: &Counters) -> Result<Sums, OutOfMemory>
        ensures { IfOk result (λ sums. sums ≡ with_counts self.now counters.now) }
    {
        Ok(Sums {
            sent: sum(self.sent, counters.sent)?,
            collided: sum(self.collided, counters.collided)?,
            late: sum(self.late, counters.late)?,
            given_up: sum(self.given_up, counters.given_up)?,
            cut: sum(self.cut, counters.cut)?,
            left: sum(self.left, left_of(counters))?,
            received: sum(self.received, counters.received)?,
            dropped: sum(self.dropped, dropped_of(counters)?)?,
            clash: sum(self.clash, counters.clash)?,
            closed: sum(self.closed, counters.closed)?,
            opened: sum(self.opened, counters.opened)?,
        })
    }
}

/// The sums over all devices.
fn totals(counts: &[Counters]) -> Result<Sums, OutOfMemory>
    ensures { IfOk result (λ sums. sums ≡ totals counts.now) }
{
    let mut sums = Sums::new();
    for counters in counts {
        sums = sums.with(counters)?;
    }
    Ok(sums)
}

/// Puts a word and its number at the end of a line.
fn add_field(line: &mut List<u8>, word: &str, number: u64) -> Result<(), OutOfMemory>
    ensures { OnOk result (line.new ≡ line.old ++ word.now ++ decimal number) }
{
    line.extend(word.as_bytes())?;
    line.extend(itoa::Buffer::new().format(number).as_bytes())
}

/// Puts what was sent, over all devices, at the end of a text.
fn add_sending(text: &mut List<u8>, sums: &Sums) -> Result<(), OutOfMemory>
    ensures { OnOk result (text.new ≡ text.old ++ sending_totals sums.now) }
{
    add_field(text, "sent ", sums.sent)?;
    add_field(text, " collided ", sums.collided)?;
    add_field(text, " late ", sums.late)?;
    add_field(text, " given_up ", sums.given_up)?;
    add_field(text, " cut ", sums.cut)?;
    add_field(text, " left ", sums.left)
}

/// Puts what was received and repeated, over all devices, at the end of a text.
fn add_receiving(text: &mut List<u8>, sums: &Sums) -> Result<(), OutOfMemory>
    ensures { OnOk result (text.new ≡ text.old ++ receiving_totals sums.now) }
{
    add_field(text, " received ", sums.received)?;
    add_field(text, " dropped ", sums.dropped)?;
    add_field(text, " clash ", sums.clash)?;
    add_field(text, " closed ", sums.closed)?;
    add_field(text, " opened ", sums.opened)
}

/// Puts the line of the sums at the end of a text.
fn add_totals(text: &mut List<u8>, sums: &Sums) -> Result<(), OutOfMemory>
    ensures { OnOk result (text.new ≡ text.old ++ totals_line sums.now) }
{
    add_sending(text, sums)?;
    add_receiving(text, sums)?;
    text.extend(b"\n")
}

/// The last two lines of a run's summary: its half bits, and the sums over the rows that it gave. A sum that passes 64
/// bits is answered as want of memory (profile).
#[tactic(auto, unfolding(crate::specs::Texts::totals_of_rows))]
pub fn totals_of_rows(alloc: Global, plan: &Plan, rows: &[Row]) -> Result<List<u8>, OutOfMemory>
    ensures { IfOk result (λ text. text ≡ totals_of_rows plan.now rows.now) }
{
    let counts = counts_of(alloc, plan, rows)?;
    let sums = totals(counts.as_slice())?;
    let mut text = List::new(alloc);
    let half_bits = plan.layout.half_bits();
    add_field(&mut text, "half_bits ", half_bits)?;
    text.extend(b"\n")?;
    add_totals(&mut text, &sums)?;
    Ok(text)
}
