//! Reads of real files. One file is open while its reads go on in order, so a pipe can be read to its end.
ghost use Rattle.std.specs.Prelude.{◌≡◌, ◌≤◌, ◌==◌, ◌&&◌, [], None, length, bytes_eq, IfOk, IsErr, IsTrue};
ghost use Rattle.outside.specs.Reads.{AreStreams, IsReadAgain, due_after, due_octet, due_of, is_name_of, streams_of};

use lists::{List, OutOfMemory, Text};
use std::alloc::Global;
use std::io::{Read, Seek, SeekFrom};
use std::rt::Files;
use std::{fs, io};

/// Why a piece of a file wasn't read.
#[derive(Drop)]
pub(crate) enum Unread {
    Failed(io::Error),
    OutOfMemory,
}

impl From<OutOfMemory> for Unread {
    fn from(_: OutOfMemory) -> Self {
        Unread::OutOfMemory
    }
}

impl From<io::Error> for Unread {
    fn from(error: io::Error) -> Self {
        Unread::Failed(error)
    }
}

/// A file that is open, and its next octet, counted from 0.
#[derive(Drop)]
pub(crate) struct OpenRead<F: Drop> {
    name: Text,
    place: u64,
    file: F,
}

impl<F: Drop> OpenRead<F> {
    /// Whether this octet of the named file is the next one.
    fn is_at(&self, name: &str, from: u64) -> bool
        ensures { result ≡ ((self.now.place == from) && bytes_eq self.now.name name.now) }
    {
        self.place == from && self.name.as_str() == name
    }
}

/// The file that is open, where one is, and the names of the streams so far: files in which no place can be taken, such
/// as pipes and terminals. Each is read once, from its first octet on.
#[derive(Drop)]
pub(crate) struct Reads<F: Drop> {
    open: Option<OpenRead<F>>,
    streams: List<Text>,
}

fn is_name_of(name: &str, names: &[Text]) -> bool
    ensures { result ≡ is_name_of name.now names.now }
{
    names.iter().any(|known| known.as_str() == name)
}

impl<F: Drop> Reads<F> {
    /// No file is open, and none was read.
    pub(crate) fn new(alloc: Global) -> Reads<F>
        ensures due { due_octet result ≡ None }
        ensures streams { streams_of result ≡ [] }
    {
        Reads {
            open: None,
            streams: List::new(alloc),
        }
    }
}

/// Goes to a place of an open file. Where none can be taken the file is one more stream, which stands at its first octet.
fn go_to<F: Seek>(
    alloc: Global,
    file: &mut F,
    streams: &mut List<Text>,
    name: &str,
    from: u64,
) -> Result<(), Unread>
    ensures streams { AreStreams name.now streams.old streams.new }
{
    match file.seek(SeekFrom::Start(from)) {
        Ok(_) => Ok(()),
        Err(error) if from > 0 || error.kind() != io::ErrorKind::NotSeekable => {
            Err(Unread::Failed(error))
        }
        Err(_) => {
            streams.push(Text::new(alloc, name)?)?;
            Ok(())
        }
    }
}

/// Opens a file at a place. A stream is opened once, at its first octet.
fn open_at<R: Files>(
    rt: &R,
    alloc: Global,
    streams: &mut List<Text>,
    name: &str,
    from: u64,
) -> Result<OpenRead<R::File>, Unread>
    ensures place { IfOk result (λ reading. due_of reading ≡ record { name = name.now; place = from }) }
    ensures once { IsTrue (is_name_of name.now streams.old) → IsErr result }
    ensures streams { AreStreams name.now streams.old streams.new }
{
    if is_name_of(name, streams.as_slice()) {
        return Err(Unread::Failed(io::Error::from(io::ErrorKind::NotSeekable)));
    }
    let mut file = fs::open(rt, name)?;
    go_to(alloc, &mut file, streams, name, from)?;
    let name = Text::new(alloc, name)?;
    Ok(OpenRead {
        name,
        place: from,
        file,
    })
}

/// Reads once from a place on. The file stays open for the octet after those that came; at its end it is closed.
pub(crate) fn read_at<R: Files>(
    rt: &R,
    alloc: Global,
    reads: &mut Reads<R::File>,
    name: &str,
    from: u64,
    into: &mut [u8],
) -> Result<usize, Unread>
    ensures bound { IfOk result (λ n. n ≤ length into.new) }
    ensures due { IfOk result (λ n. due_octet reads.new ≡ due_after name.now from n) }
    ensures closed { IsErr result → due_octet reads.new ≡ None }
    ensures once { IsReadAgain name.now from reads.old → IsErr result }
    ensures streams { AreStreams name.now (streams_of reads.old) (streams_of reads.new) }
{
    let mut reading = match reads.open.take() {
        Some(reading) if reading.is_at(name, from) => reading,
        _ => open_at(rt, alloc, &mut reads.streams, name, from)?,
    };
    let count = reading.file.read(into)?;
    if count > 0 {
        reading.place = from.saturating_add(count as u64);
        reads.open = Some(reading);
    }
    Ok(count)
}
