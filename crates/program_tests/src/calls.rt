//! Calls over stores and sinks in memory, for the tests. No contract says what the store holds: the tests look.
use lists::{List, OutOfMemory, Text};
use memory_files::{MemorySink, MemoryStore};
use netsim::{Words, World, netsim};
use outside::OpenGate;
use std::alloc::Global;
use std::sync::Wait;
use std::thread::Threads;

/// The world of a call: a store and a sink in memory.
pub type MemoryWorld = World<MemoryStore, MemorySink>;

pub const SUMMARY: &str =
    "within 212 a b\nhalf_bits 1400\nsent 1 collided 0 late 0 given_up 0 cut 0 left 0 received 1 dropped 0 clash 0 closed 0 opened 0\n";

/// A capture in nanoseconds without records.
pub const CAPTURE: [u8; 24] = [
    0x4d, 0x3c, 0xb2, 0xa1, 2, 0, 4, 0, 0, 0, 0, 0, 0, 0, 0, 0, 0, 0, 4, 0, 1, 0, 0, 0,
];

/// The state before half bit 0.
pub const STATE: &str =
    "state 0\nstation a phase rest defer watch attempt 1 place 0 drawn 0\nstation b phase rest defer watch attempt 1 place 0 drawn 0\nend\n";

/// One segment with a station a at 0 and a station b at 10, up to the name of b's load.
const STATIONS: &str =
    "format = 1\nseed = 1\nuntil_bits = 700\n[[segment]]\nname = \"x\"\n[[station]]\nname = \"a\"\nsegment = \"x\"\nat = 0\n[[station]]\nname = \"b\"\nsegment = \"x\"\nat = 10\nload = \"";

/// The end of that line, and a frame that a sends.
const SEND: &str =
    "\"\n[[send]]\nstation = \"a\"\nat = 0\noctets = \"ffffffffffff0200000000010800\"\n";

/// A station c at 20 with a load of its own.
const THIRD: &str = "[[station]]\nname = \"c\"\nsegment = \"x\"\nat = 20\nload = \"c.pcap\"\n";

pub const LOG: &str =
    "1152 station a sent frame 1 start 0 attempt 1\n1162 station b received octets 64\n";

/// The files of all forms but the loads, and a layout, a load, a log and a state that are refused, each by its pieces.
const TEXTS: [(&str, &[&str]); 9] = [
    ("l.toml", &[STATIONS, "b.pcap", SEND]),
    ("two.toml", &[STATIONS, "b.pcap", SEND, THIRD]),
    ("m.log", &[LOG]),
    ("out.state", &[STATE]),
    ("none", &[]),
    ("in.log", &[STATIONS, "b.pcap", SEND]),
    ("load.toml", &[STATIONS, "none", SEND]),
    ("other.log", &["1162 station c received octets 64\n"]),
    ("none.state", &[]),
];

/// The words of runs: by half bits, by windows on so many workers, and from the state.
pub const RUNS: [&[&str]; 6] = [
    &["plain", "l.toml", "out"],
    &["run", "l.toml", "out", "1"],
    &["run", "l.toml", "out", "2"],
    &["run", "l.toml", "out", "7"],
    &["run", "l.toml", "out", "64"],
    &["resume", "l.toml", "out"],
];

/// The most octets that are read or appended at once.
pub const BLOCK: u64 = 65_536;

/// A call with its status and what it says; the calls of the store and of the sink that fail, from 1, or 0.
#[derive(Clone, Copy)]
pub struct Case<'a> {
    pub words: &'a [&'static str],
    pub read: u32,
    pub start: u32,
    pub append: u32,
    pub write: u32,
    pub status: u8,
    pub said: &'a str,
}

/// A run of which no call fails.
pub const RUN: Case<'static> = Case {
    words: &["plain", "l.toml", "out"],
    read: 0,
    start: 0,
    append: 0,
    write: 0,
    status: 0,
    said: SUMMARY,
};

fn words_of(alloc: Global, line: &[&str]) -> Result<Words, OutOfMemory> {
    let mut words = Words::new(alloc);
    for word in line {
        words.push(Text::new(alloc, word)?)?;
    }
    Ok(words)
}

/// Puts a file into a store.
pub fn put(store: &mut MemoryStore, name: &str, octets: &[u8]) -> Result<(), OutOfMemory> {
    store.put(name, octets)
}

/// Puts a file of these pieces into a store.
fn put_pieces(
    alloc: Global,
    store: &mut MemoryStore,
    name: &str,
    pieces: &[&str],
) -> Result<(), OutOfMemory> {
    let mut octets = List::new(alloc);
    for piece in pieces {
        octets.extend(piece.as_bytes())?;
    }
    put(store, name, octets.as_slice())
}

/// A store without files, of whose calls those of the case fail.
fn empty_store(alloc: Global, case: &Case<'_>) -> Result<MemoryStore, OutOfMemory> {
    MemoryStore::with_failing(alloc, &[case.read], &[case.start], &[case.append])
}

/// Puts all files into a store.
fn put_all(alloc: Global, store: &mut MemoryStore) -> Result<(), OutOfMemory> {
    for name in ["b.pcap", "c.pcap"] {
        put(store, name, &CAPTURE)?;
    }
    for (name, pieces) in TEXTS {
        put_pieces(alloc, store, name, pieces)?;
    }
    Ok(())
}

/// A store with all files.
fn store_of(alloc: Global, case: &Case<'_>) -> Result<MemoryStore, OutOfMemory> {
    let mut store = empty_store(alloc, case)?;
    put_all(alloc, &mut store)?;
    Ok(store)
}

/// A sink to which nothing was written, of whose calls that of the case fails.
fn sink_of(alloc: Global, case: &Case<'_>) -> Result<MemorySink, OutOfMemory> {
    MemorySink::with_failing(alloc, &[case.write])
}

/// A store with all files, and a sink to which nothing was written.
fn world_of(alloc: Global, case: &Case<'_>) -> Result<MemoryWorld, OutOfMemory> {
    let store = store_of(alloc, case)?;
    let out = sink_of(alloc, case)?;
    Ok(World { store, out })
}

/// What the top call answers.
pub fn status_of<R: Threads + Wait + Sync + AllocGlobal>(
    rt: &R,
    line: &[&str],
    world: &mut MemoryWorld,
) -> Result<u8, OutOfMemory> {
    let words = words_of(rt.alloc(), line)?;
    Ok(netsim(rt, rt.alloc(), &words, world, &OpenGate))
}

/// Whether a world was told what it must be, by blocks that are no larger than promised.
fn is_told(case: &Case<'_>, world: &MemoryWorld) -> bool {
    world.out.bytes() == case.said.as_bytes() && world.store.largest() <= BLOCK
}

/// Whether the call gives the case's status and says what it must, by such blocks.
fn is_right<R: Threads + Wait + Sync + AllocGlobal>(
    rt: &R,
    case: &Case<'_>,
    world: &mut MemoryWorld,
) -> Result<bool, OutOfMemory> {
    let status = status_of(rt, case.words, world)?;
    Ok(status == case.status && is_told(case, world))
}

/// Whether the call of a case is right, and the store that it leaves.
pub fn store_after<R: Threads + Wait + Sync + AllocGlobal>(
    rt: &R,
    case: &Case<'_>,
) -> Result<(bool, MemoryStore), OutOfMemory> {
    let mut world = world_of(rt.alloc(), case)?;
    let right = is_right(rt, case, &mut world)?;
    Ok((right, world.store))
}

/// Whether a file holds this text.
pub fn holds(store: &MemoryStore, name: &str, text: &str) -> bool {
    match store.get(name) {
        Some(held) => held == text.as_bytes(),
        None => false,
    }
}

/// Whether a store has no log of a run, and the state as it was.
fn is_untouched(store: &MemoryStore) -> bool {
    store.get("out.log").is_none() && holds(store, "out.state", STATE)
}

/// Whether a call gives what it must and begins no file of a run, nor a state over that one.
pub fn is_alone<R: Threads + Wait + Sync + AllocGlobal>(
    rt: &R,
    case: &Case<'_>,
) -> Result<bool, OutOfMemory> {
    let (right, store) = store_after(rt, case)?;
    Ok(right && is_untouched(&store))
}
