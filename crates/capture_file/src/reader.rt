//! Reads a capture, at once or in pieces.
ghost use Rattle.std.specs.Prelude.{◌≡◌, ◌≢◌, ◌+◌, ◌≤◌, ◌++◌, ℕ, List, [], length, IfOk, IfErr, OnOk, OnErr, None, Some, Ok, Err};
ghost use Rattle.capture_file.specs.declared.fault.CaptureFault.TheVariants as fault;
ghost use Rattle.capture_file.specs.Captures.{capture_fault, is_too_large, records, rest_of};
ghost use Rattle.capture_file.specs.Reading.{Reads, answer_of, fed};

use crate::entries::Records;
use crate::reading::{Reading, Stage};
use crate::{CaptureFault, OutOfMemory};
use std::alloc::Global;
use std::marker::Model;

/// The most octets that a capture may have.
const MOST_OCTETS: usize = 67_108_864;

/// Whether a stream of `seen` octets and a piece have more octets than a capture may have.
#[tactic(auto, unfolding(crate::specs::Captures::is_too_large))]
fn is_too_large(seen: usize, piece: usize) -> bool
    requires { seen ≤ 67108865 }
    ensures { result ≡ is_too_large (seen + piece) }
{
    piece > MOST_OCTETS || seen + piece > MOST_OCTETS
}

/// Reads a capture that comes in pieces. Its stream is what all the pieces so far are together, and `Reads`
/// says of which streams a reader is.
#[derive(Drop)]
pub struct CaptureReader {
    alloc: Global,
    seen: usize,
    reading: Reading,
}

impl Model for CaptureReader {
    ghost use Rattle.std.specs.Prelude.{◌≤◌, ◌+◌, ◌*◌, length};
    ghost use Rattle.capture_file.specs.Reading.{Reader};

    ghost Value = { Reader };

    ghost view = { λ s. record { seen = s.seen; reading = s.reading } };

    ghost invariant = { λ s.
        (s.seen ≤ 67108865) × (16 * length s.reading.records + length s.reading.rest ≤ s.seen)
        × (length s.reading.rest ≤ 262159) };
}

impl CaptureReader {
    /// A reader of an empty stream, which takes no memory.
    #[tactic(auto, using(crate::proofs::Stream::reads_none))]
    pub fn new(alloc: Global) -> CaptureReader
        ensures { Reads [] result }
    {
        CaptureReader {
            alloc,
            seen: 0,
            reading: Reading::new(alloc),
        }
    }

    /// One more piece.
    #[tactic(auto, unfolding(crate::specs::Reading::fed, crate::specs::Captures::is_too_large))]
    fn feed_piece(&mut self, piece: &[u8]) -> Result<(), OutOfMemory>
        ensures ok { OnOk result (self.new ≡ fed self.old piece.now) }
        ensures err { OnErr result (self.new ≡ self.old) }
    {
        if is_too_large(self.seen, piece.len()) {
            self.seen = MOST_OCTETS + 1;
            self.reading = Reading::failed(self.alloc, CaptureFault::TooLarge);
            return Ok(());
        }
        let records = self.reading.records.len();
        let rest = self.reading.rest.len();
        if self.reading.take_in(self.alloc, piece).is_err() {
            self.reading.go_back(records, rest);
            return Err(OutOfMemory);
        }
        self.seen += piece.len();
        Ok(())
    }

    /// Puts a piece at the end of the stream. On refusal the reader is as before.
    #[tactic(auto, using(crate::proofs::Stream::reads_on_ok))]
    pub fn feed(&mut self, piece: &[u8]) -> Result<(), OutOfMemory>
        ensures ok { OnOk result ((stream : List ℕ) → Reads stream self.old → Reads (stream ++ piece.now) self.new) }
        ensures err { OnErr result (self.new ≡ self.old) }
    {
        self.feed_piece(piece)
    }

    /// The stream's octets after the file's header and the last whole record, at most 262,159: all of them
    /// before the header is whole, and none once the stream has a fault other than Short or CutRecord.
    #[tactic(auto, using(crate::proofs::Stream::rest_is))]
    pub fn rest(&self) -> &[u8]
        ensures rest { (stream : List ℕ) → Reads stream self.now → result.now ≡ rest_of stream }
        ensures few { length result.now ≤ 262159 }
    {
        self.reading.rest.as_slice()
    }

    /// What a reading answers.
    fn answer(self) -> Result<Records, CaptureFault>
        ensures answer { result ≡ answer_of self.reading.stage self.reading.records self.reading.rest }
        ensures few { IfOk result (λ rs. length rs ≤ 4194304) }
    {
        let Reading {
            stage,
            records,
            rest,
        } = self.reading;
        match stage {
            Stage::Header => Err(CaptureFault::Short),
            Stage::Faulty(fault) => Err(fault),
            Stage::Entries(_) => {
                if rest.len() == 0 {
                    return Ok(records);
                }
                let number = records.len() as u32 + 1;
                Err(CaptureFault::CutRecord { number })
            }
        }
    }

    /// The records of the stream, or its first fault: what `read_capture` answers on it. It takes no memory.
    #[tactic(auto, using(crate::proofs::Stream::end_sound, crate::proofs::Stream::end_records, crate::proofs::Stream::end_fault))]
    pub fn end(self) -> Result<Records, CaptureFault>
        ensures sound { IfOk result (λ rs. (stream : List ℕ) → Reads stream self → capture_fault stream ≡ None) }
        ensures records { IfOk result (λ rs. (stream : List ℕ) → Reads stream self → rs ≡ records stream) }
        ensures fault { IfErr result (λ f. (stream : List ℕ) → Reads stream self → capture_fault stream ≡ Some f) }
        ensures few { IfOk result (λ rs. length rs ≤ 4194304) }
    {
        self.answer()
    }
}

/// The records of a capture, or its first fault: TooLarge exactly above 67,108,864 octets, then Short
/// exactly below 24, then Magic, Version and LinkType by the header, then record by record Length exactly
/// where a whole header says more than 262,144 octets, and CutRecord exactly where the header or the octets
/// aren't whole. Want of memory alone is free.
pub fn read_capture(alloc: Global, bytes: &[u8]) -> Result<Records, CaptureFault>
    ensures sound { IfOk result (λ rs. capture_fault bytes.now ≡ None) }
    ensures records { IfOk result (λ rs. rs ≡ records bytes.now) }
    ensures fault { IfErr result (λ f. f ≢ fault.OutOfMemory → capture_fault bytes.now ≡ Some f) }
    // A record has at least the 16 octets of its header.
    ensures few { IfOk result (λ rs. length rs ≤ 4194304) }
{
    let mut reader = CaptureReader::new(alloc);
    reader.feed(bytes)?;
    reader.end()
}
