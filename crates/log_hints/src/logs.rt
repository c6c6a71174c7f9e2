//! What is wrong with a log or a state, by the program's own line.

use crate::fronts::{LineFront, read_line};
use crate::lines::{first_word, row_fault, shape_fault};
use crate::states::{form_fault, order_fault, tell_value};
use input_hints::{Ended, after, show, show_front, word_at};
use lists::OutOfMemory;
use outside::Store;
use std::alloc::Global;

/// Shows a place of a file, and a front of what stands there, where anything does.
fn tell_line(
    out: &mut String,
    file: &str,
    line: u64,
    what: &str,
    found: &Option<LineFront>,
) -> Result<(), OutOfMemory> {
    out.push_str("netsim: ")?;
    show(out, file)?;
    if line == 0 {
        write!(out, ": {what}\n")?;
        return Ok(());
    }
    write!(out, ":{line}: {what}")?;
    match found {
        Some(found) if found.front.len() > 0 || !found.ends_file => {
            out.push_str(": ")?;
            show_front(out, found.front.as_slice())?;
        }
        _ => {}
    }
    out.push_str("\n")?;
    Ok(())
}

fn text_of(line: &Option<LineFront>) -> &str {
    match line {
        Some(line) => str::from_utf8(line.front.as_slice()).unwrap_or(""),
        None => "",
    }
}

/// What is wrong with a line that is none of a log.
fn log_fault(found: &Option<LineFront>) -> &'static str {
    let text = text_of(found);
    match found {
        Some(line) => shape_fault(text, line.ends_file)
            .or(row_fault(text))
            .unwrap_or("this is no line of a log"),
        None => "this is no line of a log, or its line feed is missing",
    }
}

fn line_number(said: &str) -> u64 {
    after(said, "line")
        .and_then(|line| line.parse::<u64>().ok())
        .unwrap_or(0)
}

/// Tells of a log's fault: the log is the second word of `meter`, the third of `picture` and `frames`.
pub fn tell_log<S: Store>(
    alloc: Global,
    out: &mut String,
    ended: &Ended<'_>,
    store: &mut S,
) -> Result<(), OutOfMemory> {
    let place = if word_at(ended.words, 0) == "meter" {
        1
    } else {
        2
    };
    let log = word_at(ended.words, place);
    let number = line_number(ended.said);
    let found = read_line(alloc, store, log, number)?;
    let what = match after(ended.said, "fault").unwrap_or("") {
        "1" => "a log has at most 268435456 octets",
        "3" => "this is of an earlier half bit than the line before",
        _ => log_fault(&found),
    };
    tell_line(out, log, number, what, &found)
}

/// What is wrong with a line that names what isn't there: `frames` looks for its frames in the loads, too.
fn stranger_fault(form: &str) -> &'static str {
    if form == "frames" {
        "the layout and its loads lack what this line names; is the log of a run of another layout, or of other loads?"
    } else {
        "the layout lacks what this line names; is the log of a run of another layout?"
    }
}

/// Tells of a log that doesn't fit the layout, or for `frames` the layout with its loads.
pub fn tell_stranger<S: Store>(
    alloc: Global,
    out: &mut String,
    ended: &Ended<'_>,
    store: &mut S,
) -> Result<(), OutOfMemory> {
    let log = word_at(ended.words, 2);
    let what = stranger_fault(word_at(ended.words, 0));
    let number = line_number(ended.said);
    let found = read_line(alloc, store, log, number)?;
    tell_line(out, log, number, what, &found)
}

/// What is wrong with the order of a row, where it is known: the row before it may have its frame's octets after it.
fn row_order<S: Store>(
    alloc: Global,
    store: &mut S,
    layout: &str,
    file: &str,
    number: u64,
    row: &str,
) -> Result<Option<&'static str>, OutOfMemory> {
    if first_word(row) != "row" {
        return Ok(None);
    }
    let mut before = read_line(alloc, store, file, number.saturating_sub(1))?;
    if first_word(text_of(&before)) == "octets" {
        before = read_line(alloc, store, file, number.saturating_sub(2))?;
    }
    order_fault(alloc, store, layout, row, text_of(&before))
}

/// Tells of a state's fault.
pub fn tell_state<S: Store>(
    alloc: Global,
    out: &mut String,
    ended: &Ended<'_>,
    store: &mut S,
) -> Result<(), OutOfMemory> {
    let prefix = word_at(ended.words, 2);
    let name = format!(in alloc; "{prefix}.state")?;
    let number = line_number(ended.said);
    let found = read_line(alloc, store, name.as_str(), number)?;
    let text = text_of(&found);
    let is_end = found.as_ref().is_some_and(|line| line.ends_file);
    let mut what = String::new(alloc);
    match after(ended.said, "fault").unwrap_or("") {
        "1" => what.push_str("a state has at most 268435456 octets")?,
        "2" => what.push_str(form_fault(text, is_end).unwrap_or(
            "this is not the line that is due here; is it the state of another layout?",
        ))?,
        _ => {
            let layout = word_at(ended.words, 1);
            let order = row_order(alloc, store, layout, name.as_str(), number, text)?;
            tell_value(&mut what, text, order)?;
        }
    }
    tell_line(out, name.as_str(), number, what.as_str(), &found)?;
    out.push_str("netsim: 'netsim stop' writes a state anew\n")?;
    Ok(())
}

/// Tells that no half bit is quiet.
pub fn tell_no_quiet(out: &mut String, ended: &Ended<'_>) -> Result<(), OutOfMemory> {
    let from = word_at(ended.words, 3);
    write!(
        out,
        "netsim: no half bit of the run from {from} on is quiet: give an earlier FROM\n"
    )?;
    Ok(())
}
