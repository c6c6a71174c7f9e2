//! What of the stations' loads a run didn't send, by the counters that it wrote.

use crate::loads::number_after;
use crate::records::walk_over;
use input_hints::{
    Ended, Message, begin, document_of, is_named, number_at, or_empty, read_file, rows_of, word_at,
    word_of,
};
use lists::OutOfMemory;
use mac_parameters::{NANOSECONDS_A_HALF_BIT, most_octets};
use outside::Store;
use std::alloc::Global;
use toml::{Table, Value};

/// The most octets of counters that are read: more than those of all devices have.
const MOST_COUNTERS: usize = 1_048_576;

/// How many stations are told of.
const MOST_TOLD: u64 = 5;

/// The counts of a station's line, after its name, which may be such a word, too.
fn counts_in(line: &str) -> Option<&str> {
    let (_, counts) = line.strip_prefix("station ")?.split_once(' ')?;
    Some(counts)
}

/// The count of a word in a station's line.
fn count_of(line: &str, word: &str) -> u64 {
    number_after(or_empty(counts_in(line)), word).unwrap_or(0)
}

fn skipped_of(line: &str) -> u64 {
    count_of(line, "snapped")
        .saturating_add(count_of(line, "short"))
        .saturating_add(count_of(line, "long"))
}

/// Whether a station has frames and began to send none.
fn is_silent(line: &str) -> bool {
    let queued = count_of(line, "queued");
    let begun = count_of(line, "collided").saturating_add(count_of(line, "cut"));
    queued > 0 && queued == count_of(line, "left") && begun == 0
}

/// What a layout and its loads say of a run.
#[derive(Clone, Copy)]
struct Run<'a> {
    document: &'a Table,
    half_bits: u64,
    /// The most octets of a frame.
    most: u32,
    /// The least time of all loads, in nanoseconds, which is half bit 0, where it was looked for.
    start: Option<u64>,
}

/// The least time of all loads, in nanoseconds; nothing where one can't be read.
fn start_of<S: Store>(store: &mut S, document: &Table) -> Option<u64> {
    let mut start = u64::MAX;
    for row in rows_of(document, "station") {
        if let Some(load) = word_of(row, "load") {
            let walk = walk_over(store, load, u64::MAX, 0)?;
            start = start.min(walk.least);
        }
    }
    Some(start)
}

/// The half bit in which a load's first frame is ready, where that is at the run's end or later.
fn late_start<S: Store>(store: &mut S, run: &Run<'_>, load: &str) -> Option<u64> {
    let first = walk_over(store, load, u64::MAX, run.most)?.first?;
    let ready = first.saturating_sub(run.start?) / NANOSECONDS_A_HALF_BIT;
    if ready < run.half_bits {
        return None;
    }
    Some(ready)
}

/// How many records of a load only say when time begins, as its first one may: not looked for where none was skipped.
fn timed_of<S: Store>(store: &mut S, load: &str, skipped: u64) -> u64 {
    if skipped == 0 {
        return 0;
    }
    match walk_over(store, load, 1, 0) {
        Some(walk) => u64::from(walk.is_timed),
        None => 0,
    }
}

/// How many frames of a station are of its load.
fn frames_of(document: &Table, station: &str, line: &str) -> u64 {
    let mut frames = count_of(line, "queued");
    for send in rows_of(document, "send") {
        if is_named(send, "station", station) {
            frames = frames.saturating_sub(1);
        }
    }
    frames
}

/// What wasn't sent of the load of a station.
#[derive(Clone, Copy)]
struct Unsent<'a> {
    load: &'a str,
    station: &'a str,
    /// How many frames are of the load.
    frames: u64,
    /// How many records only say when time begins, and how many others were skipped.
    timed: u64,
    skipped: u64,
    /// The half bit in which the first frame is ready, where that is too late.
    late: Option<u64>,
}

fn unsent_load<'a, S: Store>(
    store: &mut S,
    run: &Run<'_>,
    load: &'a str,
    station: &'a str,
    line: &str,
) -> Option<Unsent<'a>> {
    let skipped = skipped_of(line);
    let timed = timed_of(store, load, skipped);
    let mut late = None;
    if is_silent(line) {
        late = late_start(store, run, load);
    }
    if skipped <= timed && late.is_none() {
        return None;
    }
    Some(Unsent {
        load,
        station,
        frames: frames_of(run.document, station, line),
        timed,
        skipped: skipped.saturating_sub(timed),
        late,
    })
}

/// What wasn't sent of the load of a station's row: nothing is told where the first record alone was skipped, since it
/// says when time begins.
fn unsent_of<'a, S: Store>(
    store: &mut S,
    run: &Run<'_>,
    row: &'a Value,
    line: &str,
) -> Option<Unsent<'a>> {
    let load = word_of(row, "load")?;
    unsent_load(store, run, load, word_of(row, "name")?, line)
}

/// Tells how many records were skipped for one reason, where any were, and answers what stands before the next one.
fn tell_why<'a>(out: &mut Message, before: &'a str, count: u64, why: &str) -> &'a str {
    if count == 0 {
        return before;
    }
    out.add(before);
    out.add(" ");
    out.add_number(count);
    out.add(why);
    ","
}

/// Tells of records that were too long.
fn tell_long(out: &mut Message, before: &str, long: u64, most: u32) {
    if long > 0 {
        out.add(before);
        out.add(" ");
        out.add_number(long);
        out.add(" long (above ");
        out.add_number(u64::from(most));
        out.add(" octets)");
    }
}

/// Tells how many records were skipped, and why.
fn tell_skipped(out: &mut Message, line: &str, unsent: &Unsent<'_>, most: u32) {
    out.add_number(unsent.skipped);
    out.add(" of ");
    out.add_number(unsent.frames.saturating_add(unsent.skipped));
    out.add(if unsent.skipped == 1 {
        " records was skipped"
    } else {
        " records were skipped"
    });
    let short = count_of(line, "short").saturating_sub(unsent.timed);
    let before = tell_why(
        out,
        ":",
        count_of(line, "snapped"),
        " snapped (not all octets were captured)",
    );
    let before = tell_why(out, before, short, " short (below 14 octets)");
    tell_long(out, before, count_of(line, "long"), most);
}

/// Tells that none of a load's frames was sent, since the first is ready too late.
fn tell_late(out: &mut Message, frames: u64, ready: u64, end: u64) {
    if frames == 1 {
        out.add("its frame was not sent: it is");
    } else {
        out.add("none of its ");
        out.add_number(frames);
        out.add(" frames was sent: the first is");
    }
    out.add(" ready at half bit ");
    out.add_number(ready);
    out.add(", and the run ends at ");
    out.add_number(end);
}

/// Tells what wasn't sent of the load of a station.
fn tell_unsent(out: &mut Message, run: &Run<'_>, line: &str, unsent: &Unsent<'_>) {
    begin(out, unsent.load);
    out.add(", the load of station ");
    out.show(unsent.station);
    let mut before = ": ";
    if unsent.skipped > 0 {
        out.add(before);
        tell_skipped(out, line, unsent, run.most);
        before = "; ";
    }
    if let Some(ready) = unsent.late {
        out.add(before);
        tell_late(out, unsent.frames, ready, run.half_bits);
    }
    out.add("\n");
}

/// Tells of the loads of the first stations, and answers how many such there are.
fn tell_first<S: Store>(
    out: &mut Message,
    store: &mut S,
    run: &Run<'_>,
    counters: &str,
    rows: &[Value],
) -> u64 {
    let mut told = 0u64;
    let mut place = 0usize;
    for line in counters.lines() {
        let Some(row) = rows.get(place) else {
            break;
        };
        place = place.saturating_add(1);
        if let Some(unsent) = unsent_of(store, run, row, line) {
            told = told.saturating_add(1);
            if told <= MOST_TOLD {
                tell_unsent(out, run, line, &unsent);
            }
        }
    }
    told
}

/// Tells of the loads of the first stations, and how many more such there are.
fn tell_all<S: Store>(out: &mut Message, store: &mut S, run: &Run<'_>, counters: &str) {
    let told = tell_first(out, store, run, counters, rows_of(run.document, "station"));
    if told > MOST_TOLD {
        out.add("netsim: more stations with such loads: ");
        out.add_number(told.saturating_sub(MOST_TOLD));
        out.add("\n");
    }
}

/// Whether the counters say that anything wasn't sent.
fn has_unsent(counters: &str) -> bool {
    for line in counters.lines() {
        if skipped_of(line) > 0 || is_silent(line) {
            return true;
        }
    }
    false
}

/// Whether a station that has a load is silent.
fn has_silent(counters: &str, rows: &[Value]) -> bool {
    let mut place = 0usize;
    for line in counters.lines() {
        let Some(row) = rows.get(place) else {
            break;
        };
        place = place.saturating_add(1);
        if is_silent(line) && word_of(row, "load").is_some() {
            return true;
        }
    }
    false
}

/// The half bits of a run.
fn half_bits_of(document: &Table) -> u64 {
    match number_at(document, "until_bits") {
        Some(bits) => u64::try_from(bits).unwrap_or(u64::MAX).saturating_mul(2),
        None => u64::MAX,
    }
}

/// The run of a layout.
fn run_of<'a, S: Store>(store: &mut S, document: &'a Table, counters: &str) -> Run<'a> {
    let mut start = None;
    if has_silent(counters, rows_of(document, "station")) {
        start = start_of(store, document);
    }
    Run {
        document,
        half_bits: half_bits_of(document),
        most: most_octets(number_at(document, "format") == Some(2)),
        start,
    }
}

/// Tells of loads of which records were skipped, or which are ready too late, by the counters' file.
pub fn tell_skips<S: Store>(
    alloc: Global,
    out: &mut String,
    ended: &Ended<'_>,
    store: &mut S,
    name: &str,
) -> Result<(), OutOfMemory> {
    let Some(octets) = read_file(alloc, store, name, MOST_COUNTERS)? else {
        return Ok(());
    };
    let counters = or_empty(str::from_utf8(octets.as_slice()).ok());
    if !has_unsent(counters) {
        return Ok(());
    }
    let mut message = Message::new(alloc);
    if let Some(document) = document_of(alloc, word_at(ended.words, 1), store)? {
        let run = run_of(store, &document, counters);
        tell_all(&mut message, store, &run, counters);
    }
    message.put_into(out)
}
