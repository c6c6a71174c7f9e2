//! The captures of a run.
ghost use Rattle.std.specs.Prelude.{◌≡◌, ◌*◌, ◌++◌, [], IfOk, OnOk};
ghost use Rattle.mac_parameters.specs.Parameters.{nanoseconds_a_half_bit};
ghost use Rattle.capture_file.specs.Writing.{capture_text, record_text};
ghost use Rattle.run_texts.specs.Captures.{AreShort, IsShort, pcap_of_taken};

use capture_file::CaptureWriter;
use lists::OutOfMemory;
use mac_parameters::NANOSECONDS_A_HALF_BIT;
use network::{Taken, TakenList};
use std::alloc::Global;

/// A capture without records.
fn new_capture(alloc: Global) -> Result<CaptureWriter, OutOfMemory>
    ensures { IfOk result (λ capture. capture ≡ capture_text []) }
{
    match CaptureWriter::new(alloc) {
        Ok(capture) => Ok(capture),
        Err(_) => Err(OutOfMemory),
    }
}

/// Puts the record of a frame that was received at the end of a capture.
fn add_taken(capture: &mut CaptureWriter, taken: &Taken) -> Result<(), OutOfMemory>
    requires { IsShort taken.now }
    ensures { OnOk result (capture.new ≡ capture.old ++ record_text (nanoseconds_a_half_bit * taken.now.t) taken.now.octets) }
{
    match capture.add(NANOSECONDS_A_HALF_BIT * taken.t, taken.octets.as_slice()) {
        Ok(()) => Ok(()),
        Err(_) => Err(OutOfMemory),
    }
}

/// The capture of the frames that a station received, in their order, whose octets are its `bytes`. Each frame has at
/// most the octets of the longest tagged frame before its check sequence (3.2.7) and came at half bit 2,000,000,000 at
/// the latest (profile).
#[tactic(auto, unfolding(crate::specs::Captures::pcap_of_taken))]
pub fn pcap_of(alloc: Global, taken: &TakenList) -> Result<CaptureWriter, OutOfMemory>
    requires { AreShort taken.now }
    ensures { IfOk result (λ capture. capture ≡ pcap_of_taken taken.now) }
{
    let mut capture = new_capture(alloc)?;
    for one in taken.as_slice() {
        add_taken(&mut capture, one)?;
    }
    Ok(capture)
}
