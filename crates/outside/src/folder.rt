//! Real files by path: the edge that no contract sees beyond.
ghost use Rattle.std.specs.Prelude.{◌≡◌, ◌≤◌, IfOk, length};
ghost use Rattle.outside.specs.Folder.{read_faults_of, write_faults_of};

use crate::failure::{Act, Failure};
use crate::reads::{Reads, Unread, read_at};
use crate::{Store, StoreFail};
use std::alloc::Global;
use std::fs::OpenOptions;
use std::io::Write;
use std::rt::Files;
use std::{fs, io};

/// The files of the system, by their paths. It tells no content, so a file that isn't there is `Failed`.
/// One call of the system reads or writes; how much went is the answer, and the caller goes on. A file stays open while
/// its reads go on in order, so that a pipe can be read, once. It keeps what failed first.
#[derive(Drop)]
pub struct FolderStore<R: Files + Drop> {
    rt: R,
    alloc: Global,
    reads: Reads<R::File>,
    read_faults: u64,
    write_faults: u64,
    first: Option<Failure>,
}

impl<R: Files + Drop> FolderStore<R> {
    /// The files that the runtime reaches, with no fault so far.
    pub fn new(rt: R, alloc: Global) -> FolderStore<R>
        ensures reads { read_faults_of result ≡ 0 }
        ensures writes { write_faults_of result ≡ 0 }
    {
        FolderStore {
            rt,
            alloc,
            reads: Reads::new(alloc),
            read_faults: 0,
            write_faults: 0,
            first: None,
        }
    }

    /// The first call that failed.
    pub fn take_failure(&mut self) -> Option<Failure>
        ensures reads { read_faults_of self.new ≡ read_faults_of self.old }
        ensures writes { write_faults_of self.new ≡ write_faults_of self.old }
    {
        self.first.take()
    }
}

/// Keeps a failure where it is the first.
fn keep(
    first: &mut Option<Failure>,
    alloc: Global,
    act: Act,
    name: &str,
    error: Option<io::Error>,
) {
    if first.is_none() {
        *first = Some(Failure::of_file(alloc, act, name, error));
    }
}

/// Writes once at the end.
fn append_to<R: Files>(rt: &R, name: &str, bytes: &[u8]) -> io::Result<usize>
    ensures { IfOk result (λ n. n ≤ length bytes.now) }
{
    let mut file = OpenOptions::new().append(true).open(rt, name)?;
    file.write(bytes)
}

impl<R: Files + Drop> Store for FolderStore<R> {
    ghost use Rattle.std.specs.Prelude.{None};

    ghost held = { λ _. None };

    ghost read_faults = { λ s. s.read_faults };

    ghost write_faults = { λ s. s.write_faults };

    fn read(&mut self, name: &str, from: u64, into: &mut [u8]) -> Result<usize, StoreFail> {
        match read_at(&self.rt, self.alloc, &mut self.reads, name, from, into) {
            Ok(count) => Ok(count),
            Err(Unread::Failed(error)) => {
                keep(&mut self.first, self.alloc, Act::Read, name, Some(error));
                self.read_faults = self.read_faults.saturating_add(1);
                Err(StoreFail::Failed)
            }
            Err(Unread::OutOfMemory) => Err(StoreFail::OutOfMemory),
        }
    }

    fn start(&mut self, name: &str) -> Result<(), StoreFail> {
        match fs::create(&self.rt, name) {
            Ok(_) => Ok(()),
            Err(error) => {
                keep(&mut self.first, self.alloc, Act::Write, name, Some(error));
                self.write_faults = self.write_faults.saturating_add(1);
                Err(StoreFail::Failed)
            }
        }
    }

    fn append(&mut self, name: &str, bytes: &[u8]) -> Result<usize, StoreFail> {
        let error = match append_to(&self.rt, name, bytes) {
            Ok(count) if count > 0 || bytes.is_empty() => return Ok(count),
            Ok(_) => None,
            Err(error) => Some(error),
        };
        keep(&mut self.first, self.alloc, Act::Write, name, error);
        self.write_faults = self.write_faults.saturating_add(1);
        Err(StoreFail::Failed)
    }
}
