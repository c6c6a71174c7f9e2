//! What of the loads a run didn't send.

use input_hints::{Ended, word_at};
use lists::OutOfMemory;
use load_hints::tell_skips;
use outside::Store;
use std::alloc::Global;
use std::fs;
use std::rt::Files;

/// Warns of loads that weren't sent whole, by the counters that the run wrote. They are read only where they are a
/// file: reading of a pipe might wait.
pub fn tell_loads<R: Files, S: Store>(
    rt: &R,
    alloc: Global,
    out: &mut String,
    ended: &Ended<'_>,
    store: &mut S,
) -> Result<(), OutOfMemory> {
    let prefix = word_at(ended.words, 2);
    let counters = format!(in alloc; "{prefix}.counters")?;
    match fs::metadata(rt, counters.as_str()) {
        Ok(found) if found.is_file() => tell_skips(alloc, out, ended, store, counters.as_str()),
        _ => Ok(()),
    }
}
