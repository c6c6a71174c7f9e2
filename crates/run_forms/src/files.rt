//! Whole files through a store.
ghost use Rattle.std.specs.Prelude.{◌≡◌, ◌<◌, ◌≤◌, ◌+◌, ◌^◌, length, IfOk, OnOk, OnErr, IsErrOf, IfErr, option_map};
ghost use Rattle.outside.specs.Files.{Rose, RoseAtNothing, IsAbsent, appended};
ghost use Rattle.run_endings.specs.Reading.{IsFront};
ghost use Rattle.run_endings.specs.Writing.{put_file, IsBroken};

use file_pieces::read_pieces;
use lists::List;
use outside::{Store, StoreFail};
use std::alloc::Global;

/// The most octets that are read or appended at once (profile).
const PIECE: usize = 65_536;

/// The room for a piece.
fn room_of_piece(alloc: Global) -> Result<Vec<u8>, StoreFail>
    ensures room { IfOk result (λ room. length room.items ≡ PIECE) }
    ensures memory { IfErr result (λ fail. fail ≡ StoreFail.OutOfMemory) }
{
    match vec![in alloc; 0; PIECE] {
        Ok(room) => Ok(room),
        Err(_) => Err(StoreFail::OutOfMemory),
    }
}

/// Reads a file to its end, or to one octet past a limit.
pub fn read_file<S: Store>(
    alloc: Global,
    store: &mut S,
    name: &str,
    limit: usize,
) -> Result<List<u8>, StoreFail>
    requires { limit < 2 ^ 32 }
    ensures octets { IfOk result (λ octets. IsFront limit name.now (S.held store.old) octets) }
    ensures missing { IsErrOf result StoreFail.Missing → IsAbsent name.now (S.held store.old) }
    ensures failed { IsErrOf result StoreFail.Failed → Rose (S.read_faults store.old) (S.read_faults store.new) }
    ensures held { S.held store.new ≡ S.held store.old }
    ensures reads { S.read_faults store.old ≤ S.read_faults store.new }
    ensures writes { S.write_faults store.old ≤ S.write_faults store.new }
{
    let mut room = room_of_piece(alloc)?;
    let mut octets = List::new(alloc);
    read_pieces(store, name, limit, room.as_mut_slice(), &mut octets)?;
    Ok(octets)
}

/// Appends a piece of a text, or a front of that piece.
fn append_piece<S: Store>(store: &mut S, name: &str, text: &[u8]) -> Result<usize, StoreFail>
    ensures bound { IfOk result (λ n. n ≤ length text.now) }
    ensures held { S.held store.new ≡ option_map (appended name.now text.now result) (S.held store.old) }
    ensures missing { IsErrOf result StoreFail.Missing → IsAbsent name.now (S.held store.old) }
    ensures reads { S.read_faults store.old ≤ S.read_faults store.new }
    ensures writes { S.write_faults store.old ≤ S.write_faults store.new }
    ensures failed { IsErrOf result StoreFail.Failed → Rose (S.write_faults store.old) (S.write_faults store.new) }
    ensures nothing { RoseAtNothing text.now result (S.write_faults store.old) (S.write_faults store.new) }
{
    let most = text.len().min(PIECE);
    store.append(name, &text[..most])
}

/// Makes a file of a text.
pub fn write_file<S: Store>(store: &mut S, name: &str, text: &[u8]) -> Result<(), StoreFail>
    ensures ok { OnOk result (S.held store.new ≡ put_file name.now text.now (S.held store.old)) }
    ensures err { OnErr result (IsBroken name.now text.now (S.held store.old) (S.held store.new)) }
    ensures missing { IsErrOf result StoreFail.Missing → ⊥ }
    ensures failed { IsErrOf result StoreFail.Failed → Rose (S.write_faults store.old) (S.write_faults store.new) }
    ensures reads { S.read_faults store.old ≤ S.read_faults store.new }
    ensures writes { S.write_faults store.old ≤ S.write_faults store.new }
{
    store.start(name)?;
    let mut done = 0;
    while done < text.len() {
        let count = append_piece(store, name, &text[done..])?;
        if count == 0 {
            return Err(StoreFail::Failed);
        }
        done += count;
    }
    Ok(())
}
