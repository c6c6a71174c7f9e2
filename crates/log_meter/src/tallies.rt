//! The tallies of all names of a log, by one pass from its last line to its first.
ghost use Rattle.std.specs.Prelude.{◌≡◌, IfOk};
ghost use Rattle.std.specs.List.{AllByRecursion};
ghost use Rattle.log_meter.specs.Lines.{IsLogLine};
ghost use Rattle.log_meter.specs.Tallies.{AreTalliesOf, tally_at};

use crate::LogLine;
use crate::tally::{Tally, sum};
use collision_log::Body;
use lists::OutOfMemory;
use std::alloc::Global;
use std::collections::BTreeMap;

/// Who sent the frames with which a log begins, and how many of them in a row.
#[derive(Clone, Copy)]
struct Row<'a> {
    name: &'a str,
    count: u64,
}

impl<'a> Row<'a> {
    ghost use Rattle.std.specs.Prelude.{IfOk};
    ghost use Rattle.log_meter.specs.Tallies.{row_after};

    /// The row with one more line in front.
    fn with(self, line: &'a LogLine) -> Result<Row<'a>, OutOfMemory>
        ensures { IfOk result (λ row. (row.name.now, row.count) ≡ row_after (self.entry.name.now, self.entry.count) line.now) }
    {
        if !matches!(line.body, Body::Sent { .. }) {
            return Ok(self);
        }
        let name = line.name.as_str();
        let before = if name == self.name { self.count } else { 0 };
        Ok(Row {
            name,
            count: sum(before, 1)?,
        })
    }
}

/// The tally of a name.
fn tally_at<'a>(tallies: &BTreeMap<&'a str, Tally>, name: &'a str) -> Tally
    ensures { result ≡ tally_at tallies.now name.now }
{
    match tallies.get(&name) {
        Some(tally) => *tally,
        None => Tally::new(),
    }
}

/// The tallies of these lines, by names.
pub fn tallies_of(alloc: Global, lines: &[LogLine]) -> Result<BTreeMap<&str, Tally>, OutOfMemory>
    requires { AllByRecursion IsLogLine lines.now }
    ensures { IfOk result (λ tallies. AreTalliesOf lines.now tallies) }
{
    let mut tallies = BTreeMap::new(alloc);
    let mut row = Row { name: "", count: 0 };
    let mut i = lines.len();
    while i > 0 {
        i -= 1;
        let line = &lines[i];
        row = row.with(line)?;
        let name = line.name.as_str();
        let tally = tally_at(&tallies, name);
        tallies.insert(name, tally.with(line, row.count)?)?;
    }
    Ok(tallies)
}
