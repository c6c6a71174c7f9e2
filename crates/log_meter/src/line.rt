//! A line of a log.
ghost use Rattle.std.specs.Prelude.{◌≡◌, ◌≢◌, ◌++◌, IfOk, codes, ◌↔◌, Err};
ghost use Rattle.log_meter.specs.Entries.{line_of};
ghost use Rattle.log_meter.specs.Lines.{IsLogLine, entry_text};
ghost use Rattle.log_meter.specs.declared.fault.LineFault.TheVariants.{Bad};

use crate::LineFault;
use crate::entry::{NamedLine, entry_at};
use collision_log::Body;
use lists::{List, OutOfMemory, Text};
use std::alloc::Global;

/// A line: the half bit, from 0, whether the device is a repeater, its name, and what happened.
#[derive(Drop)]
pub struct LogLine {
    pub t: u64,
    pub repeater: bool,
    pub name: Text,
    pub body: Body,
}

/// The lines of a log, in their order.
pub type LogLines = List<LogLine>;

/// The line with its name kept.
pub fn kept(alloc: Global, entry: NamedLine<'_>) -> Result<LogLine, OutOfMemory>
    ensures { IfOk result (λ line. line ≡ line_of entry.entry) }
{
    Ok(LogLine {
        t: entry.t,
        repeater: entry.repeater,
        name: Text::new(alloc, entry.name)?,
        body: entry.body,
    })
}

/// The line that these octets are, without their line feed.
pub fn read_line(alloc: Global, line: &[u8]) -> Result<LogLine, LineFault>
    ensures line { IfOk result (λ l. IsLogLine l × (entry_text l ≡ line.now ++ codes "\n")) }
    ensures bad { (result ≡ Err Bad) ↔ ((l : LogLine) → IsLogLine l → entry_text l ≢ line.now ++ codes "\n") }
{
    let Some((entry, rest)) = entry_at(line) else {
        return Err(LineFault::Bad);
    };
    if !rest.is_empty() {
        return Err(LineFault::Bad);
    }
    let Ok(kept) = kept(alloc, entry) else {
        return Err(LineFault::OutOfMemory);
    };
    Ok(kept)
}
