//! A store in memory, some of whose numbered calls fail.
ghost use Rattle.std.specs.Prelude.{◌≡◌, ◌<◌, ◌≤◌, ◌↔◌, [], length, IfOk, OnOk, OnErr, IsErr, IsErrOf, IsTrue, None, option_map};
ghost use Rattle.memory_files.specs.Calls.{is_failing};
ghost use Rattle.outside.specs.Files.{IsPiece, IsRead, with_file, file_of, started, appended, IsPlaceOf, Rose, RoseAtNothing};
ghost use Rattle.memory_files.specs.Stores.{files_of, tally_of, no_tally, after_read, after_start, after_append};

use crate::calls::Calls;
use lists::{List, OutOfMemory, Text};
use outside::{File, Store, StoreFail};
use std::alloc::Global;

/// The calls of a store by their kinds, their faults, and the longest room or piece, in octets.
#[derive(Drop)]
pub(crate) struct CallTally {
    reads: Calls,
    starts: Calls,
    appends: Calls,
    read_faults: u64,
    write_faults: u64,
    largest: u64,
}

impl CallTally {
    /// Counts a read with a room of so many octets, and says whether it fails.
    fn read(&mut self, room: usize) -> bool
        ensures tally { self.new ≡ after_read room self.old }
        ensures fails { result ≡ is_failing self.new.reads }
        ensures faults { self.old.read_faults ≤ self.new.read_faults }
        ensures rose { IsTrue result → Rose self.old.read_faults self.new.read_faults }
    {
        self.largest = self.largest.max(room as u64);
        let fails = self.reads.next_fails();
        if fails {
            self.read_faults = self.read_faults.saturating_add(1);
        }
        fails
    }

    /// Counts a start, and says whether it fails.
    fn start(&mut self) -> bool
        ensures tally { self.new ≡ after_start self.old }
        ensures fails { result ≡ is_failing self.new.starts }
        ensures faults { self.old.write_faults ≤ self.new.write_faults }
        ensures rose { IsTrue result → Rose self.old.write_faults self.new.write_faults }
    {
        let fails = self.starts.next_fails();
        if fails {
            self.write_faults = self.write_faults.saturating_add(1);
        }
        fails
    }

    /// Counts an append of so many octets, and says whether it fails.
    fn append(&mut self, piece: usize) -> bool
        ensures tally { self.new ≡ after_append piece self.old }
        ensures fails { result ≡ is_failing self.new.appends }
        ensures faults { self.old.write_faults ≤ self.new.write_faults }
        ensures rose { IsTrue result → Rose self.old.write_faults self.new.write_faults }
    {
        self.largest = self.largest.max(piece as u64);
        let fails = self.appends.next_fails();
        if fails {
            self.write_faults = self.write_faults.saturating_add(1);
        }
        fails
    }
}

/// A store that keeps its files in memory and tells them.
#[derive(Drop)]
pub struct MemoryStore {
    alloc: Global,
    files: Vec<File>,
    tally: CallTally,
}

/// The place of the first file of this name.
fn find(files: &[File], name: &str) -> Option<usize>
    ensures { IsPlaceOf name.now files.now result }
{
    for (i, file) in files.iter().enumerate() {
        if file.name.as_str() == name {
            return Some(i);
        }
    }
    None
}

/// Sets a file, or changes nothing.
fn put_file(
    alloc: Global,
    files: &mut Vec<File>,
    name: &str,
    bytes: &[u8],
) -> Result<(), OutOfMemory>
    ensures ok { OnOk result (files.new.items ≡ with_file name.now bytes.now files.old.items) }
    ensures err { OnErr result (files.new.items ≡ files.old.items) }
{
    let mut octets = List::new(alloc);
    octets.extend(bytes)?;
    match find(files, name) {
        Some(i) => {
            files[i].octets = octets;
        }
        None => {
            let name = Text::new(alloc, name)?;
            files.push(File { name, octets })?;
        }
    }
    Ok(())
}

/// Copies octets from a place on.
fn copy_at(octets: &[u8], from: u64, into: &mut [u8]) -> usize
    requires { 0 < length into.old }
    ensures { IsPiece octets.now from result into.new }
{
    if from >= octets.len() as u64 {
        return 0;
    }
    let rest = &octets[from as usize..];
    let count = rest.len().min(into.len());
    into[..count].copy_from_slice(&rest[..count]);
    count
}

impl MemoryStore {
    /// A store without files, of whose calls none fails but for memory.
    pub fn new(alloc: Global) -> MemoryStore
        ensures files { files_of result ≡ [] }
        ensures tally { tally_of result ≡ no_tally [] [] [] }
    {
        MemoryStore {
            alloc,
            files: Vec::new(alloc),
            tally: CallTally {
                reads: Calls::new(alloc),
                starts: Calls::new(alloc),
                appends: Calls::new(alloc),
                read_faults: 0,
                write_faults: 0,
                largest: 0,
            },
        }
    }

    /// A store without files, whose reads, starts and appends of these numbers fail. Each kind is counted from 1.
    pub fn with_failing(
        alloc: Global,
        reads: &[u32],
        starts: &[u32],
        appends: &[u32],
    ) -> Result<MemoryStore, OutOfMemory>
        ensures files { IfOk result (λ store. files_of store ≡ []) }
        ensures tally { IfOk result (λ store. tally_of store ≡ no_tally reads.now starts.now appends.now) }
    {
        Ok(MemoryStore {
            alloc,
            files: Vec::new(alloc),
            tally: CallTally {
                reads: Calls::with_failing(alloc, reads)?,
                starts: Calls::with_failing(alloc, starts)?,
                appends: Calls::with_failing(alloc, appends)?,
                read_faults: 0,
                write_faults: 0,
                largest: 0,
            },
        })
    }

    /// Sets a file, or changes nothing. It counts as no call.
    pub fn put(&mut self, name: &str, bytes: &[u8]) -> Result<(), OutOfMemory>
        ensures ok { OnOk result (files_of self.new ≡ with_file name.now bytes.now (files_of self.old)) }
        ensures err { OnErr result (files_of self.new ≡ files_of self.old) }
        ensures tally { tally_of self.new ≡ tally_of self.old }
    {
        put_file(self.alloc, &mut self.files, name, bytes)
    }

    /// The octets of a file; `None` exactly where it isn't held.
    pub fn get(&self, name: &str) -> Option<&[u8]>
        ensures { option_map (λ octets. octets.now) result ≡ file_of name.now (files_of self.now) }
    {
        match find(&self.files, name) {
            Some(i) => Some(self.files[i].octets.as_slice()),
            None => None,
        }
    }

    /// The greatest length, in octets, of a read's room or of an appended piece so far; 0 before any.
    pub fn largest(&self) -> u64
        ensures { result ≡ (tally_of self.now).largest }
    {
        self.tally.largest
    }
}

impl Store for MemoryStore {
    ghost use Rattle.std.specs.Prelude.{Some};

    ghost held = { λ s. Some s.files.items };

    ghost read_faults = { λ s. s.tally.read_faults };

    ghost write_faults = { λ s. s.tally.write_faults };

    /// A read of a name that isn't held is `Missing`.
    fn read(&mut self, name: &str, from: u64, into: &mut [u8]) -> Result<usize, StoreFail>
        requires { 0 < length into.old }
        ensures bound { IfOk result (λ n. n ≤ length into.new) }
        ensures octets { IsRead name.now from (files_of self.old) result into.new }
        ensures missing { IsErrOf result StoreFail.Missing → file_of name.now (files_of self.old) ≡ None }
        ensures held { files_of self.new ≡ files_of self.old }
        ensures reads { (tally_of self.old).read_faults ≤ (tally_of self.new).read_faults }
        ensures writes { (tally_of self.old).write_faults ≤ (tally_of self.new).write_faults }
        ensures failed { IsErrOf result StoreFail.Failed → Rose (tally_of self.old).read_faults (tally_of self.new).read_faults }

        // Exactly the numbered reads fail, memory isn't wanted, and only this read is counted.
        ensures numbered { IsErrOf result StoreFail.Failed ↔ IsTrue (is_failing (tally_of self.new).reads) }
        ensures memory { IsErrOf result StoreFail.OutOfMemory → ⊥ }
        ensures tally { tally_of self.new ≡ after_read (length into.old) (tally_of self.old) }
    {
        if self.tally.read(into.len()) {
            return Err(StoreFail::Failed);
        }
        match find(&self.files, name) {
            Some(i) => Ok(copy_at(self.files[i].octets.as_slice(), from, into)),
            None => Err(StoreFail::Missing),
        }
    }

    fn start(&mut self, name: &str) -> Result<(), StoreFail>
        ensures held { files_of self.new ≡ started name.now result (files_of self.old) }
        ensures missing { IsErrOf result StoreFail.Missing → ⊥ }
        ensures reads { (tally_of self.old).read_faults ≤ (tally_of self.new).read_faults }
        ensures writes { (tally_of self.old).write_faults ≤ (tally_of self.new).write_faults }
        ensures failed { IsErrOf result StoreFail.Failed → Rose (tally_of self.old).write_faults (tally_of self.new).write_faults }

        // Exactly the numbered starts fail, and only this start is counted.
        ensures numbered { IsErrOf result StoreFail.Failed ↔ IsTrue (is_failing (tally_of self.new).starts) }
        ensures tally { tally_of self.new ≡ after_start (tally_of self.old) }
    {
        if self.tally.start() {
            return Err(StoreFail::Failed);
        }
        match put_file(self.alloc, &mut self.files, name, &[]) {
            Ok(()) => Ok(()),
            Err(OutOfMemory) => Err(StoreFail::OutOfMemory),
        }
    }

    /// Takes the whole piece or nothing. An append to a name that isn't held is `Missing`.
    fn append(&mut self, name: &str, bytes: &[u8]) -> Result<usize, StoreFail>
        ensures bound { IfOk result (λ n. n ≤ length bytes.now) }
        ensures held { files_of self.new ≡ appended name.now bytes.now result (files_of self.old) }
        ensures absent { file_of name.now (files_of self.old) ≡ None → IsErr result }
        ensures missing { IsErrOf result StoreFail.Missing → file_of name.now (files_of self.old) ≡ None }
        ensures reads { (tally_of self.old).read_faults ≤ (tally_of self.new).read_faults }
        ensures writes { (tally_of self.old).write_faults ≤ (tally_of self.new).write_faults }
        ensures failed { IsErrOf result StoreFail.Failed → Rose (tally_of self.old).write_faults (tally_of self.new).write_faults }
        ensures nothing { RoseAtNothing bytes.now result (tally_of self.old).write_faults (tally_of self.new).write_faults }

        // Exactly the numbered appends fail, and only this append is counted.
        ensures whole { IfOk result (λ n. n ≡ length bytes.now) }
        ensures numbered { IsErrOf result StoreFail.Failed ↔ IsTrue (is_failing (tally_of self.new).appends) }
        ensures memory { IsErrOf result StoreFail.OutOfMemory → file_of name.now (files_of self.old) ≡ None → ⊥ }
        ensures tally { tally_of self.new ≡ after_append (length bytes.now) (tally_of self.old) }
    {
        if self.tally.append(bytes.len()) {
            return Err(StoreFail::Failed);
        }
        match find(&self.files, name) {
            Some(i) => match self.files[i].octets.extend(bytes) {
                Ok(()) => Ok(bytes.len()),
                Err(OutOfMemory) => Err(StoreFail::OutOfMemory),
            },
            None => Err(StoreFail::Missing),
        }
    }
}
