//! The store and the sink that a call works on.
ghost use Rattle.std.specs.Prelude.{◌≡◌, ◌≤◌, ◌<◌, ◌^◌, IfOk, IfErr, OnOk, OnErr};
ghost use Rattle.run_endings.specs.Answers.{ending_of};
ghost use Rattle.run_endings.specs.Endings.{HasOnlyFiled, HasOnlyRead, IsFileEnd, IsOnlySaid, IsTextEnd, IsUnread, IsWriteFailure};
ghost use Rattle.run_endings.specs.Reading.{IsFront};
ghost use Rattle.run_endings.specs.Writing.{IsBroken, put_file};

use crate::files::{read_file, write_file};
use crate::sink_texts::write_text;
use lists::List;
use outside::{Sink, SinkFail, Store, StoreFail};
use program_texts::line_of_read_fault;
use run_endings::Ending;
use std::alloc::Global;
use std::marker::Model;

/// A store and a sink. A contract sees them as the moment at which they stand.
#[derive(Drop)]
pub struct World<S: Store, K: Sink> {
    /// The files.
    pub store: S,
    /// Where a call writes its text.
    pub out: K,
}

impl<S: Store, K: Sink> Model for World<S, K> {
    ghost use Rattle.run_endings.specs.Moments.{Moment, moment};

    ghost Value = { Moment };

    ghost view = { λ w. moment S.held S.read_faults S.write_faults K.written K.faults K.refused w.store w.out };
}

impl<S: Store, K: Sink> World<S, K> {
    /// Says a line, or a front of it where the sink refuses.
    pub fn say(&mut self, line: &[u8])
        ensures { IsOnlySaid line.now self.old self.new }
    {
        let _ = write_text(&mut self.out, line);
    }

    /// Writes the text that a call is made for, or a front of it.
    pub fn tell(&mut self, text: &[u8]) -> Result<(), Ending>
        ensures told { IsTextEnd text.now self.old self.new (ending_of result) }
        ensures failed { IfErr result IsWriteFailure }
        ensures faults { self.old.faults ≤ self.new.faults }
    {
        match write_text(&mut self.out, text) {
            Ok(()) => Ok(()),
            Err(SinkFail::Failed) => Err(Ending::Write),
            Err(SinkFail::OutOfMemory) => Err(Ending::Memory),
        }
    }

    /// Reads a file to its end, or to one octet past a limit, or says that it can't be read.
    pub fn read_or_say(
        &mut self,
        alloc: Global,
        name: &str,
        limit: usize,
    ) -> Result<List<u8>, Ending>
        requires { limit < 2 ^ 32 }
        ensures octets { IfOk result (λ octets. IsFront limit name.now self.old.held octets) }
        ensures read { OnOk result (HasOnlyRead self.old self.new) }
        ensures unread { IfErr result (λ e. IsUnread name.now self.old self.new e) }
        ensures held { self.new.held ≡ self.old.held }
    {
        match read_file(alloc, &mut self.store, name, limit) {
            Ok(octets) => Ok(octets),
            Err(StoreFail::OutOfMemory) => Err(Ending::Memory),
            Err(_) => {
                let line = line_of_read_fault(alloc, name)?;
                self.say(line.as_slice());
                Err(Ending::Read)
            }
        }
    }

    /// Makes a file of a text.
    pub fn file(&mut self, name: &str, text: &[u8]) -> Result<(), Ending>
        ensures ok { OnOk result (self.new.held ≡ put_file name.now text.now self.old.held) }
        ensures err { OnErr result (IsBroken name.now text.now self.old.held self.new.held) }
        ensures ended { IfErr result (λ e. IsFileEnd self.old self.new e) }
        ensures only { HasOnlyFiled self.old self.new }
    {
        match write_file(&mut self.store, name, text) {
            Ok(()) => Ok(()),
            Err(StoreFail::OutOfMemory) => Err(Ending::Memory),
            Err(_) => Err(Ending::Write),
        }
    }
}
