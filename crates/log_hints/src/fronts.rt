//! Fronts of the lines of a file that is read again.

use input_hints::{MOST_PIECES, PIECE};
use lists::{List, OutOfMemory};
use outside::Store;
use std::alloc::Global;

/// The most octets of a line that are kept: more than are shown, and than a line of a log has.
const MOST_OF_LINE: usize = 256;

/// The front of a line, and whether the file ends before its line feed.
#[derive(Drop)]
pub struct LineFront {
    pub front: List<u8>,
    pub ends_file: bool,
}

/// A line that is found while a file goes by.
#[derive(Drop)]
struct LineAt {
    line: List<u8>,
    before: u64,
    ends_file: bool,
}

impl LineAt {
    /// Takes a piece, and says whether the line has ended.
    fn take_in(&mut self, piece: &[u8]) -> Result<bool, OutOfMemory> {
        for octet in piece {
            if self.before > 0 {
                if *octet == b'\n' {
                    self.before -= 1;
                }
            } else if *octet == b'\n' || self.line.len() >= MOST_OF_LINE {
                self.ends_file = false;
                return Ok(true);
            } else {
                self.line.push(*octet)?;
            }
        }
        Ok(false)
    }
}

/// The front of a line of a file, from 1; nothing where it isn't there.
pub fn read_line<S: Store>(
    alloc: Global,
    store: &mut S,
    name: &str,
    number: u64,
) -> Result<Option<LineFront>, OutOfMemory> {
    let mut found = LineAt {
        line: List::new(alloc),
        before: number.saturating_sub(1),
        ends_file: true,
    };
    let mut room = [0u8; PIECE];
    let mut from = 0u64;
    for _piece in 0..MOST_PIECES {
        let Ok(count) = store.read(name, from, &mut room) else {
            return Ok(None);
        };
        if count == 0 {
            break;
        }
        if found.take_in(room.get(..count).unwrap_or(&[]))? {
            break;
        }
        from = from.saturating_add(count as u64);
    }
    if found.before > 0 {
        return Ok(None);
    }
    Ok(Some(LineFront {
        front: found.line,
        ends_file: found.ends_file,
    }))
}
