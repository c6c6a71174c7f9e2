//! A whole log.
ghost use Rattle.std.specs.Prelude.{◌≡◌, ◌<◌, ◌≤◌, ◌++◌, ℕ, List, length, IfOk, IfSome, IfNone, Result, Ok, Err, ◌↔◌, ◌⊎◌};
ghost use Rattle.collision_log.specs.declared.row.Row.{Row};
ghost use Rattle.layout.specs.Sound.{IsSound};
ghost use Rattle.layout.specs.declared.lines.Layout.{Layout};
ghost use Rattle.log_meter.specs.Entries.{line_of};
ghost use Rattle.log_meter.specs.Lines.{IsLogLine, entry_text};
ghost use Rattle.log_meter.specs.LoggedRows.{AreLoggable, logged_lines};
ghost use Rattle.log_meter.specs.Logs.{HasNoLine, IsBadAt, IsFallingAt, IsJudgedLog, IsLogOf, IsUnlessMemory, most_log_octets};
ghost use Rattle.log_meter.specs.declared.fault.LogFault.{LogFault};
ghost use Rattle.log_meter.specs.declared.fault.LogFault.TheVariants.{BadLine, OutOfMemory, Order, TooLarge};
ghost use Rattle.log_meter.specs.declared.line.LogLine.{LogLine};
ghost use Rattle.load_plan.specs.declared.plan.Plan.{Plan};
ghost use Rattle.network.specs.Outputs.{rows};
ghost use Rattle.run_texts.specs.Texts.{log_of_rows};

use crate::entry::{NamedLine, entry_at};
use crate::line::kept;
use crate::{LogFault, LogLines};
use std::alloc::Global;
use text_fields::after_word;

/// The most octets that a log may have.
pub const MOST_LOG_OCTETS: usize = 268_435_456;

/// The line in front, with its line feed, and the octets after it.
fn line_with_feed(octets: &[u8]) -> Option<(NamedLine<'_>, &[u8])>
    ensures grammar { IfSome result (λ e. IsLogLine (line_of e.0)) }
    ensures text { IfSome result (λ e. octets.now ≡ entry_text (line_of e.0) ++ e.1.now) }
    ensures shorter { IfSome result (λ e. length e.1.now < length octets.now) }
    ensures none { IfNone result (HasNoLine octets.now) }
{
    let Some((entry, rest)) = entry_at(octets) else {
        return None;
    };
    let Some(rest) = after_word(b"\n", rest) else {
        return None;
    };
    Some((entry, rest))
}

/// The lines of octets that aren't too many.
fn lines(alloc: Global, bytes: &[u8]) -> Result<LogLines, LogFault>
    requires { length bytes.now ≤ most_log_octets }
    ensures { (result ≡ Err OutOfMemory) ⊎ IsJudgedLog bytes.now result }
{
    let mut lines = LogLines::new(alloc);
    let mut rest = bytes;
    let mut last = 0;
    let mut number = 0u32;
    while !rest.is_empty() {
        number += 1;
        let Some((entry, after)) = line_with_feed(rest) else {
            return Err(LogFault::BadLine { line: number });
        };
        if entry.t < last {
            return Err(LogFault::Order { line: number });
        }
        last = entry.t;
        lines.push(kept(alloc, entry)?)?;
        rest = after;
    }
    Ok(lines)
}

/// The lines of a log of at most 268,435,456 octets, or the first fault.
pub fn read_log(alloc: Global, bytes: &[u8]) -> Result<LogLines, LogFault>
    ensures too_large { (result ≡ Err TooLarge) ↔ (most_log_octets < length bytes.now) }
    ensures log { IfOk result (λ lines. IsLogOf bytes.now lines) }
    ensures bad_line { (n : ℕ) → result ≡ Err (BadLine n) → IsBadAt n bytes.now }
    ensures order { (n : ℕ) → result ≡ Err (Order n) → IsFallingAt n bytes.now }
    ensures only { (judged : Result (List LogLine) LogFault) → IsJudgedLog bytes.now judged →
        length bytes.now ≤ most_log_octets → IsUnlessMemory result judged }
    ensures rows { (layout : Layout) (rows : List Row) → IsSound layout → AreLoggable layout rows →
        bytes.now ≡ log_of_rows layout rows → length bytes.now ≤ most_log_octets →
        IsUnlessMemory result (Ok (logged_lines layout rows)) }
    ensures plans { (plan : Plan) → bytes.now ≡ log_of_rows plan.layout (rows plan) → length bytes.now ≤ most_log_octets →
        IsUnlessMemory result (Ok (logged_lines plan.layout (rows plan))) }
{
    if bytes.len() > MOST_LOG_OCTETS {
        return Err(LogFault::TooLarge);
    }
    lines(alloc, bytes)
}
