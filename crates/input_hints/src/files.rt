//! Files that are read again to say more.

use lists::{List, OutOfMemory};
use outside::Store;
use std::alloc::Global;

/// How many octets are read at a time, and how many pieces of a file at most.
pub const PIECE: usize = 16_384;

pub const MOST_PIECES: u32 = 16_400;

/// A file, or a front of it of some 256 MiB; nothing where it can't be read.
pub fn read_file<S: Store>(
    alloc: Global,
    store: &mut S,
    name: &str,
    most: usize,
) -> Result<Option<List<u8>>, OutOfMemory> {
    let mut octets = List::new(alloc);
    let mut room = [0u8; PIECE];
    for _piece in 0..MOST_PIECES {
        let from = octets.len() as u64;
        let Ok(count) = store.read(name, from, &mut room) else {
            return Ok(None);
        };
        octets.extend(room.get(..count).unwrap_or(&[]))?;
        if count == 0 || octets.len() > most {
            break;
        }
    }
    Ok(Some(octets))
}
