//! Files of a store in memory, read by pieces.
ghost use Rattle.std.specs.Prelude.{◌<◌, ◌^◌};

use file_pieces::read_pieces;
use lists::{List, OutOfMemory};
use memory_files::MemoryStore;
use outside::StoreFail;
use std::alloc::Global;

/// A file, by a room of so many octets and up to one octet past a limit.
#[derive(Clone, Copy)]
struct Case<'a> {
    name: &'a str,
    room: usize,
    limit: usize,
    answer: Result<usize, StoreFail>,
    octets: &'a [u8],
}

/// A store with a file of ten octets and one of none.
fn two_files(alloc: Global) -> Result<MemoryStore, OutOfMemory> {
    let mut store = MemoryStore::new(alloc);
    store.put("ten", b"0123456789")?;
    store.put("none", b"")?;
    Ok(store)
}

/// Whether a file is read as the case says.
fn is_read(alloc: Global, store: &mut MemoryStore, case: &Case<'_>) -> Result<bool, OutOfMemory>
    requires room { 0 < case.now.room }
    requires limit { case.now.limit < 2 ^ 32 }
{
    let mut room = vec![in alloc; 0; case.room]?;
    let mut octets = List::new(alloc);
    let answer = read_pieces(store, case.name, case.limit, &mut room, &mut octets);
    Ok(answer == case.answer && octets.as_slice() == case.octets)
}

#[test]
fn files_by_pieces(rt: HostRuntime) -> Result<(), OutOfMemory> {
    let mut store = two_files(rt.alloc())?;
    let whole = Case {
        name: "ten",
        room: 4,
        limit: 100,
        answer: Ok(10),
        octets: b"0123456789",
    };
    let exact = Case { limit: 10, ..whole };
    let past = Case {
        limit: 5,
        answer: Ok(6),
        octets: b"012345",
        ..whole
    };
    let first = Case {
        room: 16,
        limit: 0,
        answer: Ok(1),
        octets: b"0",
        ..whole
    };
    let empty = Case {
        name: "none",
        answer: Ok(0),
        octets: b"",
        ..whole
    };
    let gone = Case {
        name: "gone",
        answer: Err(StoreFail::Missing),
        octets: b"",
        ..whole
    };
    for case in [whole, exact, past, first, empty, gone] {
        assert!(rt; is_read(rt.alloc(), &mut store, &case)?);
    }
    Ok(())
}
