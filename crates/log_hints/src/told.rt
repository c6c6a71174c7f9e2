//! What is told of a run, by its status.

use crate::logs::{tell_log, tell_no_quiet, tell_state, tell_stranger};
use crate::taps::{tell_range, tell_tap};
use input_hints::Ended;
use lists::OutOfMemory;
use outside::{Failure, Store};
use std::alloc::Global;
use std::rt::Files;

/// Whether a probe or a page ends after the run.
fn is_past_run(said: &str) -> bool {
    said.starts_with("probe fault range") || said.starts_with("page fault range")
}

/// The lines for standard error: each begins with `netsim: `, and what can't be found out is left unsaid.
pub fn hints<R: Files, S: Store>(
    rt: &R,
    alloc: Global,
    ended: &Ended<'_>,
    failure: Option<&Failure>,
    store: &mut S,
) -> Result<String, OutOfMemory> {
    let mut out = String::new(alloc);
    match ended.status {
        7 if is_past_run(ended.said) => tell_range(alloc, &mut out, ended, store)?,
        7 => tell_tap(alloc, &mut out, ended, store)?,
        8 => tell_log(alloc, &mut out, ended, store)?,
        9 => tell_no_quiet(&mut out, ended)?,
        10 => tell_state(alloc, &mut out, ended, store)?,
        11 => tell_stranger(alloc, &mut out, ended, store)?,
        _ => return fault_hints::hints(rt, alloc, ended, failure, store),
    }
    Ok(out)
}
