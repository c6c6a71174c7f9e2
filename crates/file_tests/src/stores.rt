use lists::OutOfMemory;
use memory_files::{MemorySink, MemoryStore};
use outside::{
    Act, Failure, FolderStore, Gate, OpenGate, OutSink, Sink, SinkFail, Store, StoreFail,
};
use std::alloc::Global;
use std::rt::Files;
use std::test::Fail;

fn start<S: Store>(store: &mut S, name: &str) -> Result<(), StoreFail> {
    store.start(name)
}

fn append<S: Store>(store: &mut S, name: &str, piece: &[u8]) -> Result<usize, StoreFail> {
    store.append(name, piece)
}

/// Reads one octet.
fn read<S: Store>(store: &mut S, name: &str, from: u64) -> Result<(usize, u8), StoreFail> {
    let mut room = [0; 1];
    let count = store.read(name, from, &mut room)?;
    Ok((count, room[0]))
}

fn write<K: Sink>(sink: &mut K, piece: &[u8]) -> Result<usize, SinkFail> {
    sink.write(piece)
}

/// Starts a file, appends two pieces, and reads them back from the second octet on.
fn fill_and_read<S: Store>(store: &mut S, name: &str) -> Result<(usize, [u8; 4]), StoreFail> {
    start(store, name)?;
    append(store, name, b"ne")?;
    append(store, name, b"t")?;
    let mut room = [0; 4];
    let count = store.read(name, 1, &mut room)?;
    Ok((count, room))
}

fn put(store: &mut MemoryStore, name: &str, octets: &[u8]) -> Result<(), OutOfMemory> {
    store.put(name, octets)
}

fn is_held(store: &MemoryStore, name: &str, octets: &[u8]) -> bool {
    match store.get(name) {
        Some(held) => held == octets,
        None => false,
    }
}

/// Whether what is appended to a file is read back.
fn reads_back<S: Store>(store: &mut S, name: &str) -> Result<bool, StoreFail> {
    let (count, room) = fill_and_read(store, name)?;
    Ok(count == 2 && room == *b"et\0\0")
}

/// A store with a layout.
fn store_with_layout(alloc: Global) -> Result<MemoryStore, OutOfMemory> {
    let mut store = MemoryStore::new(alloc);
    put(&mut store, "l.toml", b"layout")?;
    Ok(store)
}

/// Whether the layout and a log are held and no other file, to which a piece of eight octets can't be appended.
fn are_held(store: &mut MemoryStore) -> bool {
    is_held(store, "out.log", b"net")
        && is_held(store, "l.toml", b"layout")
        && store.get("none").is_none()
        && append(store, "none", b"abcdefgh") == Err(StoreFail::Missing)
        && store.largest() == 8
}

#[test]
fn memory_keeps_what_is_put_and_appended(rt: HostRuntime) -> Result<(), Fail> {
    assert_eq!(rt; MemoryStore::new(rt.alloc()).largest(), 0);
    let mut store = store_with_layout(rt.alloc())?;
    assert!(rt; reads_back(&mut store, "out.log")?);
    assert!(rt; are_held(&mut store));
    Ok(())
}

/// A store whose second read, first and third start and second append fail.
fn failing_store(alloc: Global) -> Result<MemoryStore, OutOfMemory> {
    MemoryStore::with_failing(alloc, &[2], &[1, 3], &[2])
}

/// Whether starts fail as numbered.
fn starts_fail(store: &mut MemoryStore) -> bool {
    for begun in [Err(StoreFail::Failed), Ok(()), Err(StoreFail::Failed)] {
        if start(store, "a") != begun {
            return false;
        }
    }
    true
}

/// Whether appends and reads do, and nothing comes of those that fail.
fn appends_and_reads_fail(store: &mut MemoryStore) -> bool {
    append(store, "a", b"xy") == Ok(2)
        && append(store, "a", b"z") == Err(StoreFail::Failed)
        && read(store, "a", 0) == Ok((1, 120))
        && read(store, "a", 0) == Err(StoreFail::Failed)
        && is_held(store, "a", b"xy")
}

#[test]
fn numbered_calls_of_a_store_fail(rt: HostRuntime) -> Result<(), Fail> {
    let mut store = failing_store(rt.alloc())?;
    assert!(rt; starts_fail(&mut store));
    assert!(rt; appends_and_reads_fail(&mut store));
    Ok(())
}

/// A sink whose second write fails.
fn failing_sink(alloc: Global) -> Result<MemorySink, OutOfMemory> {
    MemorySink::with_failing(alloc, &[2])
}

/// Whether the second write fails, and nothing comes of it.
fn second_fails(sink: &mut MemorySink) -> bool {
    write(sink, b"one") == Ok(3)
        && write(sink, b"two") == Err(SinkFail::Failed)
        && write(sink, b"two") == Ok(3)
        && sink.bytes() == b"onetwo".as_slice()
}

#[test]
fn numbered_writes_of_a_sink_fail(rt: HostRuntime) -> Result<(), Fail> {
    assert_eq!(rt; MemorySink::new(rt.alloc()).bytes().len(), 0);
    let mut sink = failing_sink(rt.alloc())?;
    assert!(rt; second_fails(&mut sink));
    Ok(())
}

/// Whether a file is read back to its end.
fn reads_to_end<S: Store>(store: &mut S, name: &str) -> Result<bool, StoreFail> {
    let back = reads_back(store, name)?;
    Ok(back && read(store, name, 3) == Ok((0, 0)))
}

/// Whether a file can't be read, nor a piece be appended to it.
fn is_gone<S: Store>(store: &mut S, name: &str) -> bool {
    read(store, name, 0) == Err(StoreFail::Failed)
        && append(store, name, b"x") == Err(StoreFail::Failed)
}

#[test]
fn a_folder_keeps_real_files(rt: HostRuntime) -> Result<(), Fail> {
    let path = "/tmp/netsim_outside_a_folder_keeps_real_files";
    let mut store = FolderStore::new(&rt, rt.alloc());
    assert!(rt; reads_to_end(&mut store, path)?);
    rt.remove_file(path)?;
    assert!(rt; is_gone(&mut store, path));
    Ok(())
}

fn is_read_of(failure: Option<Failure>, path: &str) -> bool {
    let Some(failure) = failure else {
        return false;
    };
    match &failure.name {
        Some(name) => failure.act == Act::Read && name.as_str() == path,
        None => false,
    }
}

/// Whether a file is begun and filled, and its first octet read.
fn is_begun<S: Store>(store: &mut S, path: &str) -> Result<bool, StoreFail> {
    start(store, path)?;
    Ok(append(store, path, b"abc") == Ok(3) && read(store, path, 0) == Ok((1, 97)))
}

/// Whether the file, which was removed, is read on, but not anew, and that is the first call that failed.
fn is_read_on<R: Files + Drop>(store: &mut FolderStore<R>, path: &str) -> bool {
    read(store, path, 1) == Ok((1, 98))
        && store.take_failure().is_none()
        && read(store, path, 1) == Err(StoreFail::Failed)
        && append(store, "/", b"x") == Err(StoreFail::Failed)
        && is_read_of(store.take_failure(), path)
}

#[test]
fn a_file_stays_open_while_its_reads_go_on(rt: HostRuntime) -> Result<(), Fail> {
    let path = "/tmp/netsim_outside_a_file_stays_open_while_its_reads_go_on";
    let mut store = FolderStore::new(&rt, rt.alloc());
    assert!(rt; is_begun(&mut store, path)?);
    rt.remove_file(path)?;
    assert!(rt; is_read_on(&mut store, path));
    Ok(())
}

#[test]
fn the_standard_output_takes_a_piece(rt: HostRuntime) {
    let mut sink = OutSink::new(&rt, rt.alloc());
    assert_eq!(rt; write(&mut sink, b"netsim\n"), Ok(7));
    OpenGate.begin(1, 2, 3000);
    OpenGate.enter(0, 1);
}
