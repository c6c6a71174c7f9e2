//! What is said and left where a call of the store or of the sink fails: each call in turn, for each form of words.
use crate::calls::{Case, LOG, RUN, RUNS, STATE, holds, is_alone, store_after};
use lists::OutOfMemory;
use memory_files::MemoryStore;
use std::sync::Wait;
use std::thread::Threads;

/// Forms with the names of the files that they read, a piece and then the end of each.
const READS: [(&[&str], &[&str]); 16] = [
    (&["check", "l.toml"], &["l.toml", "l.toml"]),
    (&["slack", "l.toml"], &["l.toml", "l.toml"]),
    (
        &["plain", "l.toml", "out"],
        &["l.toml", "l.toml", "b.pcap", "b.pcap"],
    ),
    (
        &["plain", "two.toml", "out"],
        &[
            "two.toml", "two.toml", "b.pcap", "b.pcap", "c.pcap", "c.pcap",
        ],
    ),
    (
        &["run", "l.toml", "out", "1"],
        &["l.toml", "l.toml", "b.pcap", "b.pcap"],
    ),
    (
        &["run", "l.toml", "out", "2"],
        &["l.toml", "l.toml", "b.pcap", "b.pcap"],
    ),
    (
        &["run", "l.toml", "out", "7"],
        &["l.toml", "l.toml", "b.pcap", "b.pcap"],
    ),
    (
        &["run", "l.toml", "out", "64"],
        &["l.toml", "l.toml", "b.pcap", "b.pcap"],
    ),
    (
        &["resume", "l.toml", "out"],
        &[
            "l.toml",
            "l.toml",
            "b.pcap",
            "b.pcap",
            "out.state",
            "out.state",
        ],
    ),
    (
        &["stop", "l.toml", "out", "0"],
        &["l.toml", "l.toml", "b.pcap", "b.pcap"],
    ),
    (
        &["probe", "l.toml", "0", "20", "b"],
        &["l.toml", "l.toml", "b.pcap", "b.pcap"],
    ),
    (
        &["waves", "l.toml", "8", "16", "b"],
        &["l.toml", "l.toml", "b.pcap", "b.pcap"],
    ),
    (
        &["page", "l.toml", "0", "20"],
        &["l.toml", "l.toml", "b.pcap", "b.pcap"],
    ),
    (&["meter", "m.log"], &["m.log", "m.log"]),
    (
        &["picture", "l.toml", "m.log", "0", "1400"],
        &["l.toml", "l.toml", "m.log", "m.log"],
    ),
    (
        &["frames", "l.toml", "m.log"],
        &["l.toml", "l.toml", "b.pcap", "b.pcap", "m.log", "m.log"],
    ),
];

/// Whether each read that fails, in turn, is told by the name of its file.
fn reads_are_told<R: Threads + Wait + Sync + AllocGlobal>(
    rt: &R,
    words: &[&'static str],
    names: &[&str],
) -> Result<bool, OutOfMemory> {
    let mut read = 1u32;
    for name in names {
        let said = format!(in rt.alloc(); "read fault {name}\n")?;
        let case = Case {
            words,
            read,
            status: 4,
            said: &said,
            ..RUN
        };
        if !is_alone(rt, &case)? {
            return Ok(false);
        }
        read = read.saturating_add(1);
    }
    Ok(true)
}

#[test]
fn reads_that_fail(rt: HostRuntime) -> Result<(), OutOfMemory> {
    for (words, names) in READS {
        assert!(rt; reads_are_told(&rt, words, names)?);
    }
    Ok(())
}

/// Forms that say nothing where the first write fails, which begin no file; a refusal keeps its status.
const WRITES: [(&[&str], u8); 23] = [
    (&["--help"], 5),
    (&["--version"], 5),
    (&["check", "l.toml"], 5),
    (&["slack", "l.toml"], 5),
    (&["demo", "1", "1"], 5),
    (&["probe", "l.toml", "0", "20", "b"], 5),
    (&["waves", "l.toml", "8", "16", "b"], 5),
    (&["page", "l.toml", "0", "20"], 5),
    (&["meter", "m.log"], 5),
    (&["picture", "l.toml", "m.log", "0", "1400"], 5),
    (&["frames", "l.toml", "m.log"], 5),
    (&["check"], 1),
    (&["plain", "none", "out"], 2),
    (&["plain", "load.toml", "out"], 3),
    (&["plain", "m.toml", "out"], 4),
    (&["probe", "l.toml", "0", "1401", "b"], 7),
    (&["page", "l.toml", "0", "1401"], 7),
    (&["meter", "l.toml"], 8),
    (&["stop", "l.toml", "out", "1400"], 9),
    (&["resume", "l.toml", "none"], 10),
    (&["picture", "l.toml", "other.log", "0", "1400"], 11),
    (&["frames", "l.toml", "other.log"], 11),
    (&["plain", "in.log", "in"], 12),
];

#[test]
fn writes_that_fail(rt: HostRuntime) -> Result<(), OutOfMemory> {
    for (words, status) in WRITES {
        let case = Case {
            words,
            write: 1,
            status,
            said: "",
            ..RUN
        };
        assert!(rt; is_alone(&rt, &case)?, "{status}");
    }
    let second = Case {
        words: &["probe", "l.toml", "0", "2", "a", "b"],
        write: 2,
        status: 5,
        said: "tap a\n0 2 idle\n",
        ..RUN
    };
    assert!(rt; is_alone(&rt, &second)?);
    Ok(())
}

/// The files of a run, in the order in which they are written.
const NAMES: [&str; 4] = ["out.log", "out.counters", "out.a.pcap", "out.b.pcap"];

/// Whether a store holds the first so many files of a run whole, the next one empty where it was begun, and no others.
fn is_left(store: &MemoryStore, whole: &MemoryStore, count: u32, begun: bool) -> bool {
    let mut number = 0u32;
    for name in NAMES {
        let right = match store.get(name) {
            Some(held) if number < count => Some(held) == whole.get(name),
            Some(held) => begun && number == count && held.is_empty(),
            None => number > count || (number == count && !begun),
        };
        if !right {
            return false;
        }
        number = number.saturating_add(1);
    }
    true
}

/// Whether the run of a case is right, and leaves the first so many files whole.
fn is_right_and_left<R: Threads + Wait + Sync + AllocGlobal>(
    rt: &R,
    case: &Case<'_>,
    whole: &MemoryStore,
    count: u32,
    begun: bool,
) -> Result<bool, OutOfMemory> {
    let (right, store) = store_after(rt, case)?;
    Ok(right && is_left(&store, whole, count, begun))
}

/// Whether a run that can't begin the file of this number, from 1, or can't fill it, leaves what it must.
fn file_is_left<R: Threads + Wait + Sync + AllocGlobal>(
    rt: &R,
    words: &[&'static str],
    whole: &MemoryStore,
    number: u32,
    begun: bool,
) -> Result<bool, OutOfMemory> {
    let (start, append) = if begun { (0, number) } else { (number, 0) };
    let case = Case {
        words,
        start,
        append,
        status: 5,
        said: "",
        ..RUN
    };
    is_right_and_left(rt, &case, whole, number.saturating_sub(1), begun)
}

/// Whether a run whose summary can't be written leaves all its files.
fn all_are_left<R: Threads + Wait + Sync + AllocGlobal>(
    rt: &R,
    words: &[&'static str],
    whole: &MemoryStore,
) -> Result<bool, OutOfMemory> {
    let case = Case {
        words,
        write: 1,
        status: 5,
        said: "",
        ..RUN
    };
    is_right_and_left(rt, &case, whole, 4, false)
}

/// Whether a run by these words leaves what it must where a start, an append or the write of its summary fails.
fn files_are_left<R: Threads + Wait + Sync + AllocGlobal>(
    rt: &R,
    words: &[&'static str],
    whole: &MemoryStore,
) -> Result<bool, OutOfMemory> {
    for number in [1, 2, 3, 4] {
        if !file_is_left(rt, words, whole, number, false)? {
            return Ok(false);
        }
        if !file_is_left(rt, words, whole, number, true)? {
            return Ok(false);
        }
    }
    all_are_left(rt, words, whole)
}

/// The same of all words that run.
fn runs_are_left<R: Threads + Wait + Sync + AllocGlobal>(
    rt: &R,
    whole: &MemoryStore,
) -> Result<bool, OutOfMemory> {
    for words in RUNS {
        if !files_are_left(rt, words, whole)? {
            return Ok(false);
        }
    }
    Ok(true)
}

#[test]
fn starts_and_appends_that_fail(rt: HostRuntime) -> Result<(), OutOfMemory> {
    let (right, whole) = store_after(&rt, &RUN)?;
    assert!(rt; right && holds(&whole, "out.log", LOG));
    assert!(rt; runs_are_left(&rt, &whole)?);
    Ok(())
}

/// Whether a store holds this state of a stop, or none.
fn is_state(store: &MemoryStore, left: Option<&str>) -> bool {
    match left {
        Some(text) => holds(store, "new.state", text),
        None => store.get("new.state").is_none(),
    }
}

/// Whether the stop of a case is right, and leaves this state, or none.
fn is_stopped<R: Threads + Wait + Sync + AllocGlobal>(
    rt: &R,
    case: &Case<'_>,
    left: Option<&str>,
) -> Result<bool, OutOfMemory> {
    let (right, store) = store_after(rt, case)?;
    Ok(right && is_state(&store, left))
}

/// Whether a stop of which these calls fail leaves the state that it must, or none.
fn stop_leaves<R: Threads + Wait + Sync + AllocGlobal>(
    rt: &R,
    start: u32,
    append: u32,
    write: u32,
    left: Option<&str>,
) -> Result<bool, OutOfMemory> {
    let case = Case {
        words: &["stop", "l.toml", "new", "0"],
        start,
        append,
        write,
        status: 5,
        said: "",
        ..RUN
    };
    is_stopped(rt, &case, left)
}

/// A state that isn't begun, one that is begun alone, and one that is written before the last line can't be.
#[test]
fn stops_that_fail(rt: HostRuntime) -> Result<(), OutOfMemory> {
    assert!(rt; stop_leaves(&rt, 1, 0, 0, None)?);
    assert!(rt; stop_leaves(&rt, 0, 1, 0, Some(""))?);
    assert!(rt; stop_leaves(&rt, 0, 0, 1, Some(STATE))?);
    Ok(())
}
