//! The line of a port's guard.
ghost use Rattle.std.specs.Prelude.{◌≡◌, ◌++◌, OnOk, decimal};
ghost use Rattle.text_fields.specs.Reading.{IsReading, after_word};
ghost use Rattle.run_checkpoint.specs.LineForms.{after_port_name, answers_at, guard_form};
ghost use Rattle.run_checkpoint.specs.LineTexts.{count_words, line_of_guard};
ghost use Rattle.run_checkpoint.specs.GuardLines.{guard_of_line};

use crate::fault::add_figure;
use crate::fields::{figure, is_line_end, truth};
use crate::sender_line::add_truth;
use lists::{List, OutOfMemory};
use port_partition::PortGuard;
use text_fields::after_word;

/// What the line of a port says: whether it is closed, whether it opens once nothing is heard, whether the activity
/// under way had a collision, the guard's counts, and for how many half bits the port rests. The numbers may have any
/// value.
#[derive(Clone, Copy)]
pub struct GuardLine {
    pub closed: bool,
    pub mend: bool,
    pub struck: bool,
    pub in_row: u64,
    pub clash_run: u64,
    pub clean_run: u64,
    pub rest: u64,
}

/// What the line of a port with this guard says, which rests for so many half bits.
pub fn guard_line(guard: &PortGuard, rest: u32) -> GuardLine
    ensures { guard_of_line result ≡ (guard.now, rest) }
{
    GuardLine {
        closed: guard.closed,
        mend: guard.mend,
        struck: guard.struck,
        in_row: u64::from(guard.in_row),
        clash_run: u64::from(guard.clash_run),
        clean_run: u64::from(guard.clean_run),
        rest: u64::from(rest),
    }
}

/// Puts the counts of a guard at the end of a text, and for how many half bits its port rests.
#[tactic(auto, unfolding(crate::specs::LineTexts::count_words))]
fn add_counts(text: &mut List<u8>, line: &GuardLine) -> Result<(), OutOfMemory>
    ensures { OnOk result (text.new ≡ text.old ++ count_words (guard_of_line line.now).0 line.now.rest) }
{
    add_figure(text, b" in_row ", line.in_row)?;
    add_figure(text, b" clash_run ", line.clash_run)?;
    add_figure(text, b" clean_run ", line.clean_run)?;
    add_figure(text, b" rest ", line.rest)?;
    text.extend(b"\n")
}

/// Puts the line of a port of a repeater with this name at the end of a text. Ports are numbered from 1.
#[tactic(auto, unfolding(crate::specs::LineTexts::line_of_guard))]
pub fn add_guard(
    text: &mut List<u8>,
    name: &str,
    port: u32,
    line: &GuardLine,
) -> Result<(), OutOfMemory>
    ensures { OnOk result (text.new ≡ text.old ++ line_of_guard name.now port (guard_of_line line.now).0 line.now.rest) }
{
    text.extend(b"guard ")?;
    text.extend(name.as_bytes())?;
    add_figure(text, b" port ", u64::from(port))?;
    add_truth(text, b" closed ", line.closed)?;
    add_truth(text, b" mend ", line.mend)?;
    add_truth(text, b" struck ", line.struck)?;
    add_counts(text, line)
}

/// The octets after the number of a port.
fn after_port(port: u32, octets: &[u8]) -> Option<&[u8]>
    ensures { IsReading (λ rest. rest.now) result (after_word (decimal port) octets.now) }
{
    let mut buffer = itoa::Buffer::new();
    after_word(buffer.format(port).as_bytes(), octets)
}

/// The octets after the words that name a port.
#[tactic(auto, unfolding(crate::specs::LineForms::after_port_name))]
fn after_port_name<'a>(name: &str, port: u32, line: &'a [u8]) -> Option<&'a [u8]>
    ensures { IsReading (λ rest. rest.now) result (after_port_name name.now port line.now) }
{
    let rest = after_word(b"guard ", line)?;
    let rest = after_word(name.as_bytes(), rest)?;
    let rest = after_word(b" port ", rest)?;
    after_port(port, rest)
}

/// Whether a port is closed, whether it opens once nothing is heard, and whether the activity had a collision.
#[tactic(auto, unfolding(crate::specs::LineForms::answers_at))]
fn answers(octets: &[u8]) -> Option<((bool, bool, bool), &[u8])>
    ensures { IsReading (λ a. (a.0, a.1.now)) result (answers_at octets.now) }
{
    let (closed, rest) = truth(b" closed ", octets)?;
    let (mend, rest) = truth(b" mend ", rest)?;
    let (struck, rest) = truth(b" struck ", rest)?;
    Some(((closed, mend, struck), rest))
}

/// What the line of a port of a repeater with this name says.
#[tactic(auto, unfolding(crate::specs::LineForms::guard_form))]
pub fn guard_of(name: &str, port: u32, line: &[u8]) -> Option<GuardLine>
    ensures { IsReading guard_of_line result (guard_form name.now port line.now) }
{
    let rest = after_port_name(name, port, line)?;
    let ((closed, mend, struck), rest) = answers(rest)?;
    let (in_row, rest) = figure(b" in_row ", rest)?;
    let (clash_run, rest) = figure(b" clash_run ", rest)?;
    let (clean_run, rest) = figure(b" clean_run ", rest)?;
    let (rests, rest) = figure(b" rest ", rest)?;
    if !is_line_end(rest) {
        return None;
    }
    Some(GuardLine {
        closed,
        mend,
        struck,
        in_row,
        clash_run,
        clean_run,
        rest: rests,
    })
}
