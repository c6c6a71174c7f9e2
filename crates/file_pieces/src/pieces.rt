//! The pieces of a file.
ghost use Rattle.std.specs.Prelude.{◌≡◌, ◌<◌, ◌≤◌, ◌+◌, ◌^◌, ◌++◌, ℕ, List, [], length, IfOk, IfSome, OnOk, IsErrOf};
ghost use Rattle.outside.specs.Files.{IsAbsent, Rose};
ghost use Rattle.file_pieces.specs.GivenPieces.{EndsBefore, IsGiven, IsGivenFront};

use lists::{List, OutOfMemory};
use outside::{Store, StoreFail};

/// What takes the octets of a file, piece by piece.
pub trait Taker {
    /// It was given these octets in all, in this order.
    ghost given: { Self → List ℕ → Type 0 };

    /// Takes one more piece.
    fn take(&mut self, piece: &[u8]) -> Result<(), OutOfMemory>
        ensures { OnOk result ((octets : List ℕ) → given self.old octets → given self.new (octets ++ piece.now)) };
}

impl Taker for List<u8> {
    ghost use Rattle.std.specs.Prelude.{◌≡◌};

    ghost given = { λ list octets. list ≡ octets };

    fn take(&mut self, piece: &[u8]) -> Result<(), OutOfMemory> {
        self.extend(piece)
    }
}

/// One more piece of a file from a place on, at most so many octets and at most the room; none at the end.
fn take_piece<S: Store, T: Taker>(
    store: &mut S,
    name: &str,
    from: usize,
    most: usize,
    room: &mut [u8],
    taker: &mut T,
) -> Result<usize, StoreFail>
    requires most { 0 < most }
    requires room { 0 < length room.old }
    ensures given { IfOk result (λ n. IsGiven T.given name.now (S.held store.old) from taker.old → IsGiven T.given name.now (S.held store.old) (from + n) taker.new) }
    ensures few { IfOk result (λ n. n ≤ most) }
    ensures end { IfOk result (λ n. n ≡ 0 → EndsBefore name.now (S.held store.old) from) }
    ensures missing { IsErrOf result StoreFail.Missing → IsAbsent name.now (S.held store.old) }
    ensures failed { IsErrOf result StoreFail.Failed → Rose (S.read_faults store.old) (S.read_faults store.new) }
    ensures held { S.held store.new ≡ S.held store.old }
    ensures reads { S.read_faults store.old ≤ S.read_faults store.new }
    ensures writes { S.write_faults store.old ≤ S.write_faults store.new }
{
    let most = most.min(room.len());
    let into = &mut room[..most];
    let count = store.read(name, from as u64, into)?;
    match taker.take(&into[..count]) {
        Ok(()) => Ok(count),
        Err(OutOfMemory) => Err(StoreFail::OutOfMemory),
    }
}

/// Gives a file to a taker, to the file's end or to one octet past a limit, by pieces that fit the room, and answers
/// how many octets that were. Missing comes only where the store tells its files and has no such one, Failed only of a
/// failed read.
pub fn read_pieces<S: Store, T: Taker>(
    store: &mut S,
    name: &str,
    limit: usize,
    room: &mut [u8],
    taker: &mut T,
) -> Result<usize, StoreFail>
    requires limit { limit < 2 ^ 32 }
    requires room { 0 < length room.old }
    requires begun { T.given taker.old [] }
    ensures given { IfOk result (λ n. IsGivenFront T.given limit name.now (S.held store.old) n taker.new) }
    ensures few { IfOk result (λ n. n ≤ limit + 1) }
    ensures missing { IsErrOf result StoreFail.Missing → IsAbsent name.now (S.held store.old) }
    ensures failed { IsErrOf result StoreFail.Failed → Rose (S.read_faults store.old) (S.read_faults store.new) }
    ensures held { S.held store.new ≡ S.held store.old }
    ensures reads { S.read_faults store.old ≤ S.read_faults store.new }
    ensures writes { S.write_faults store.old ≤ S.write_faults store.new }
{
    let mut seen = 0;
    while seen <= limit {
        let count = take_piece(store, name, seen, limit + 1 - seen, room, taker)?;
        if count == 0 {
            return Ok(seen);
        }
        seen += count;
    }
    Ok(seen)
}
