//! Files that are longer than a block are read and written by blocks.
use crate::calls::{BLOCK, CAPTURE, MemoryWorld, put, status_of};
use lists::OutOfMemory;
use memory_files::{MemorySink, MemoryStore};
use netsim::World;
use std::alloc::Global;
use std::sync::Wait;
use std::thread::Threads;

/// One segment with stations a and b, of which b has a load.
const LOADED: &str =
    "format = 1\nseed = 1\nuntil_bits = 600000\n[[segment]]\nname = \"x\"\n[[station]]\nname = \"a\"\nsegment = \"x\"\nat = 0\n[[station]]\nname = \"b\"\nsegment = \"x\"\nat = 10\nload = \"b.pcap\"\n";

/// What is said of the run.
const SAID: &str =
    "within 212 a b\nhalf_bits 1200000\nsent 45 collided 0 late 0 given_up 0 cut 0 left 0 received 45 dropped 0 clash 0 closed 0 opened 0\n";

/// What a's send of a long frame begins with: the frame's header of 14 octets.
const LONG_SEND: &str =
    "[[send]]\nstation = \"a\"\nat = 0\noctets = \"ffffffffffff0200000000010800";

/// Fifty octets of 0.
const ZEROS: &str =
    "0000000000000000000000000000000000000000000000000000000000000000000000000000000000000000000000000000";

/// Puts one more send of a long frame to a layout.
fn push_send(layout: &mut String) -> Result<(), OutOfMemory> {
    layout.push_str(LONG_SEND)?;
    for _fifty in 0..30 {
        layout.push_str(ZEROS)?;
    }
    layout.push_str("\"\n")?;
    Ok(())
}

/// The layout with sends of 45 frames of 1,514 octets by a.
fn long_layout(alloc: Global) -> Result<String, OutOfMemory> {
    let mut layout = String::from_str(alloc, LOADED)?;
    for _frame in 0..45 {
        push_send(&mut layout)?;
    }
    Ok(layout)
}

/// Puts one more record of 1,514 zeros to a capture, of which one octet wasn't kept.
fn push_record(load: &mut Vec<u8>) -> Result<(), OutOfMemory> {
    load.extend_from_slice(&[0, 0, 0, 0, 0, 0, 0, 0, 0xea, 5, 0, 0, 0xeb, 5, 0, 0])?;
    for _octet in 0..1_514 {
        load.push(0)?;
    }
    Ok(())
}

/// A capture of a hundred such records.
fn long_load(alloc: Global) -> Result<Vec<u8>, OutOfMemory> {
    let mut load = Vec::new(alloc);
    load.extend_from_slice(&CAPTURE)?;
    for _record in 0..100 {
        push_record(&mut load)?;
    }
    Ok(load)
}

/// Puts that layout and that load into a store.
fn put_long(alloc: Global, store: &mut MemoryStore) -> Result<(), OutOfMemory> {
    let layout = long_layout(alloc)?;
    put(store, "l.toml", layout.as_bytes())?;
    let load = long_load(alloc)?;
    put(store, "b.pcap", load.as_slice())
}

/// A store with that layout and that load, and a sink.
fn long_world(alloc: Global) -> Result<MemoryWorld, OutOfMemory> {
    let mut store = MemoryStore::new(alloc);
    put_long(alloc, &mut store)?;
    let out = MemorySink::new(alloc);
    Ok(World { store, out })
}

fn held_length(store: &MemoryStore, name: &str) -> usize {
    match store.get(name) {
        Some(held) => held.len(),
        None => 0,
    }
}

/// Whether the run is told, b's capture holds 45 frames, and blocks were as long as they may be.
fn is_captured(world: &MemoryWorld) -> bool {
    world.out.bytes() == SAID.as_bytes()
        && held_length(&world.store, "out.b.pcap") == 24 + 45 * (16 + 1_514)
        && world.store.largest() == BLOCK
}

/// Whether the run ends with status 0, and is captured.
fn is_run<R: Threads + Wait + Sync + AllocGlobal>(rt: &R) -> Result<bool, OutOfMemory> {
    let mut world = long_world(rt.alloc())?;
    let status = status_of(rt, &["plain", "l.toml", "out"], &mut world)?;
    Ok(status == 0 && is_captured(&world))
}

/// A layout and a load of three blocks, whose records are skipped, and a capture of two.
#[test]
fn long_files(rt: HostRuntime) -> Result<(), OutOfMemory> {
    assert!(rt; is_run(&rt)?);
    Ok(())
}
