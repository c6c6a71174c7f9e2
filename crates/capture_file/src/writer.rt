//! Writes a capture.
ghost use Rattle.std.specs.Prelude.{◌≡◌, ◌≤◌, ◌<◌, ◌^◌, ◌++◌, [], ◌∷◌, List, length, IfOk, IfErr, OnOk, OnErr};
ghost use Rattle.mac_parameters.specs.Parameters.{most_octets_tagged};
ghost use Rattle.capture_file.specs.declared.fault.CaptureFault.TheVariants as fault;
ghost use Rattle.capture_file.specs.declared.entries.Record.{Record};
ghost use Rattle.capture_file.specs.Writing.{capture_text, record_header, record_text, whole_record};

use crate::form::RECORD_OCTETS;
use crate::{CaptureFault, OutOfMemory};
use byteorder::{ByteOrder, LittleEndian};
use std::alloc::Global;
use std::marker::Model;

/// What a capture begins with: nanoseconds, the lowest octet of a number first, version 2.4, at most
/// 262,144 octets of a frame, Ethernet.
const HEADER: [u8; 24] = [
    0x4d, 0x3c, 0xb2, 0xa1, 2, 0, 4, 0, 0, 0, 0, 0, 0, 0, 0, 0, 0, 0, 4, 0, 1, 0, 0, 0,
];

const SECOND: u64 = 1_000_000_000;

/// The header of a record of so many octets. The seconds are taken modulo 2^32.
#[tactic(auto, unfolding(crate::specs::Writing::record_header))]
fn record_header(nanos: u64, size: u32) -> [u8; RECORD_OCTETS]
    ensures { result ≡ record_header nanos size }
{
    let mut header = [0; RECORD_OCTETS];
    LittleEndian::write_u32(&mut header, (nanos / SECOND % (1 << 32)) as u32);
    LittleEndian::write_u32(&mut header[4..], (nanos % SECOND) as u32);
    LittleEndian::write_u32(&mut header[8..], size);
    LittleEndian::write_u32(&mut header[12..], size);
    header
}

/// Writes a capture that contracts see as its octets since it was last cleared.
#[derive(Drop)]
pub struct CaptureWriter {
    octets: Vec<u8>,
}

impl Model for CaptureWriter {
    ghost use Rattle.std.specs.Prelude.{List, ℕ};

    ghost Value = { List ℕ };

    ghost view = { λ s. s.octets.items };
}

impl CaptureWriter {
    /// A capture without records, in nanoseconds. OutOfMemory is the one fault.
    #[tactic(auto, using(crate::proofs::Written::capture_text_none), unfolding(crate::specs::Writing::header_text))]
    pub fn new(alloc: Global) -> Result<CaptureWriter, CaptureFault>
        ensures header { IfOk result (λ w. w ≡ capture_text []) }
        ensures fault { IfErr result (λ f. f ≡ fault.OutOfMemory) }
    {
        let mut octets = Vec::new(alloc);
        octets
            .extend_from_slice(&HEADER)
            .map_err(OutOfMemory::from)?;
        Ok(CaptureWriter { octets })
    }

    /// Puts a record of these octets at the end, whose time is in nanoseconds. Both its lengths are that of
    /// the octets, and its seconds are taken modulo 2^32. OutOfMemory is the one fault, and leaves all as
    /// before.
    #[tactic(auto, using(crate::proofs::Written::written_on_ok))]
    pub fn add(&mut self, nanos: u64, octets: &[u8]) -> Result<(), CaptureFault>
        requires few { length octets.now ≤ most_octets_tagged }
        requires time { nanos < 2 ^ 62 }
        ensures ok { OnOk result (self.new ≡ self.old ++ record_text nanos octets.now) }
        // A capture that was never cleared gains the record.
        ensures capture { OnOk result ((rs : List Record) → self.old ≡ capture_text rs →
            self.new ≡ capture_text (rs ++ whole_record nanos octets.now ∷ [])) }
        ensures err { OnErr result (self.new ≡ self.old) }
        ensures fault { IfErr result (λ f. f ≡ fault.OutOfMemory) }
    {
        let before = self.octets.len();
        let header = record_header(nanos, octets.len() as u32);
        if self.octets.extend_from_slice(&header).is_err() {
            return Err(CaptureFault::OutOfMemory);
        }
        if self.octets.extend_from_slice(octets).is_err() {
            self.octets.truncate(before);
            return Err(CaptureFault::OutOfMemory);
        }
        Ok(())
    }

    /// The octets since the writer was last cleared, or was new.
    pub fn bytes(&self) -> &[u8]
        ensures { result.now ≡ self.now }
    {
        self.octets.as_slice()
    }

    /// Forgets the octets so far. Later records follow without a header.
    pub fn clear(&mut self)
        ensures { self.new ≡ [] }
    {
        self.octets.clear();
    }
}
