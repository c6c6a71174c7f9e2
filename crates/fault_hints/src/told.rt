//! What is told of a run, by its status.

use crate::failures::tell_failure;
use crate::loads::tell_loads;
use crate::outputs::tell_output;
use crate::words::tell_words;
use input_hints::{Ended, after, show, tell_layout, word_at};
use lists::OutOfMemory;
use load_hints::tell_load;
use outside::{Failure, Store};
use std::alloc::Global;
use std::rt::Files;

fn number_after(line: &str, word: &str) -> u64 {
    after(line, word)
        .and_then(|number| number.parse::<u64>().ok())
        .unwrap_or(0)
}

/// What a run that is done has to warn of: a round trip that is too long, late collisions, and loads that weren't sent whole.
fn tell_warnings<R: Files, S: Store>(
    rt: &R,
    alloc: Global,
    out: &mut String,
    ended: &Ended<'_>,
    store: &mut S,
) -> Result<(), OutOfMemory> {
    if !matches!(word_at(ended.words, 0), "plain" | "run" | "resume") {
        return Ok(());
    }
    for line in ended.said.lines() {
        if let Some(over) = line.strip_prefix("over ") {
            tell_over(out, ended, over)?;
        }
        let late = number_after(line, "late");
        if line.starts_with("sent ") && late > 0 {
            write!(
                out,
                "netsim: late collisions: {late}, heard after the slot time of 1024 half bits\n"
            )?;
        }
    }
    tell_loads(rt, alloc, out, ended, store)
}

fn tell_over(out: &mut String, ended: &Ended<'_>, over: &str) -> Result<(), OutOfMemory> {
    let layout = word_at(ended.words, 1);
    write!(
        out,
        "netsim: over {over}: this round trip isn't below the slot time of 1024 half bits, so a collision can go unnoticed; 'netsim slack "
    )?;
    show(out, layout)?;
    out.push_str("' tells more\n")?;
    Ok(())
}

/// Puts the lines of a run that ended behind a text.
fn tell_end<R: Files, S: Store>(
    rt: &R,
    alloc: Global,
    out: &mut String,
    ended: &Ended<'_>,
    failure: Option<&Failure>,
    store: &mut S,
) -> Result<(), OutOfMemory> {
    match ended.status {
        0 => tell_warnings(rt, alloc, out, ended, store),
        1 => tell_words(alloc, out, ended.help, ended.words),
        2 => tell_layout(alloc, out, ended, store),
        3 => tell_load(alloc, out, ended, store),
        4 | 5 => match failure {
            Some(failure) => tell_failure(out, ended.words, failure),
            None => Ok(()),
        },
        12 => tell_output(out, ended),
        _ => {
            out.push_str(
                "netsim: there was not enough memory: what is on standard output isn't whole\n",
            )?;
            Ok(())
        }
    }
}

/// The lines for standard error, but for logs, states and taps: each begins with `netsim: `, and what can't be found out
/// is left unsaid.
pub fn hints<R: Files, S: Store>(
    rt: &R,
    alloc: Global,
    ended: &Ended<'_>,
    failure: Option<&Failure>,
    store: &mut S,
) -> Result<String, OutOfMemory> {
    let mut out = String::new(alloc);
    tell_end(rt, alloc, &mut out, ended, failure, store)?;
    Ok(out)
}
