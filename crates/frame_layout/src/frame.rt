//! A frame as it is sent.
ghost use Rattle.std.specs.Prelude.{◌≡◌, ◌<◌, ◌≤◌, ◌↔◌, length, IfOk, OnOk, Err};
ghost use Rattle.std.specs.Arc.{arc_value};
ghost use Rattle.frame_layout.specs.Frame.{frame_of, padded, verdict_of};
ghost use Rattle.mac_parameters.specs.Parameters.{IsMost, addresses_and_type, greatest_frame, least_frame, most_octets_untagged};
ghost use Rattle.frame_layout.specs.declared.verdict.Verdict.TheVariants.{Good};

use crate::fcs;
use lists::OutOfMemory;
use mac_parameters::{ADDRESSES_AND_TYPE, CHECK_SEQUENCE, LEAST_OCTETS, MOST_OCTETS_UNTAGGED};
use std::alloc::Global;
use std::marker::Model;
use std::sync::Arc;

/// The octets that a frame has at least before its frame check sequence (3.2.8).
const LEAST: usize = LEAST_OCTETS as usize;

/// Destination, source and length or type: the octets that a frame can't do without (3.1.1).
const HEADER: usize = ADDRESSES_AND_TYPE as usize;

/// The octets of the frame check sequence (3.2.9).
const CHECK: usize = CHECK_SEQUENCE as usize;

/// A whole frame, which a contract sees as its octets in the order in which they are sent, the pad and the frame check
/// sequence among them. Its copies share them.
#[derive(Drop)]
pub struct Frame {
    octets: Arc<Vec<u8>, Global>,
}

impl Model for Frame {
    ghost use Rattle.std.specs.Prelude.{List, ℕ, ◌≤◌, length};
    ghost use Rattle.std.specs.Arc.{arc_value};
    ghost use Rattle.mac_parameters.specs.Parameters.{greatest_frame, least_frame};

    ghost Value = { List ℕ };

    ghost view = { λ f. (arc_value f.octets).items };

    ghost invariant = { λ f. (least_frame ≤ length (arc_value f.octets).items)
        × (length (arc_value f.octets).items ≤ greatest_frame) };
}

impl Frame {
    /// All the octets, with pad and frame check sequence.
    pub fn octets(&self) -> &[u8]
        ensures octets { result.now ≡ self.now }
        ensures least { least_frame ≤ length result.now }
        ensures most { length result.now ≤ greatest_frame }
    {
        self.octets.as_slice()
    }

    /// The same frame once more. It takes no memory.
    pub fn copy(&self) -> Result<Frame, OutOfMemory>
        ensures { IfOk result (λ copy. copy ≡ self.now) }
    {
        let octets = Arc::try_clone(&self.octets)?;
        Ok(Frame { octets })
    }
}

/// Why no frame was built.
#[derive(Clone, Copy, Debug, PartialEq, Eq)]
pub enum FrameFault {
    TooShort,
    TooLong,
    OutOfMemory,
}

impl From<OutOfMemory> for FrameFault {
    ghost use Rattle.std.specs.Prelude.{◌≡◌};
    ghost use Rattle.frame_layout.specs.declared.frame.FrameFault.{FrameFault};

    ghost from_gives = { λ _ f. f ≡ FrameFault.OutOfMemory };

    fn from(_: OutOfMemory) -> FrameFault {
        FrameFault::OutOfMemory
    }
}

// Puts zeros after the octets up to the least number of them, or changes nothing.
#[tactic(auto, unfolding(crate::specs::Frame::padded))]
fn pad(octets: &mut Vec<u8>) -> Result<(), OutOfMemory>
    ensures { OnOk result (octets.new.items ≡ padded octets.old.items) }
{
    if octets.len() < LEAST {
        octets.extend_from_slice(&[0; LEAST][..LEAST - octets.len()])?;
    }
    Ok(())
}

// The octets with pad and frame check sequence, copied once, into room for just them.
#[tactic(auto, unfolding(crate::specs::Frame::frame_of, crate::specs::Frame::fcs_octets))]
fn whole_octets(alloc: Global, octets: &[u8]) -> Result<Arc<Vec<u8>, Global>, OutOfMemory>
    requires { length octets.now ≤ greatest_frame }
    ensures { IfOk result (λ frame. (arc_value frame).items ≡ frame_of octets.now) }
{
    let mut frame = Vec::with_capacity(alloc, octets.len().max(LEAST) + CHECK)?;
    frame.extend_from_slice(octets)?;
    pad(&mut frame)?;
    let check = fcs(frame.as_slice()).to_le_bytes();
    frame.extend_from_slice(&check)?;
    Ok(Arc::new(alloc, frame)?)
}

/// The frame (clause 3) of these octets, counted without pad and check sequence. `TooShort` comes exactly below the
/// octets of addresses and type, and `TooLong` exactly above `most`; `OutOfMemory` is free. Received without spare
/// bits, the frame is good.
pub fn build_up_to(alloc: Global, octets: &[u8], most: u32) -> Result<Frame, FrameFault>
    requires { IsMost most }
    ensures frame { IfOk result (λ f. f ≡ frame_of octets.now) }
    ensures good { IfOk result (λ f. verdict_of f 0 most ≡ Good) }
    ensures too_short { (result ≡ Err FrameFault.TooShort) ↔ (length octets.now < addresses_and_type) }
    ensures too_long { (result ≡ Err FrameFault.TooLong) ↔ (most < length octets.now) }
{
    if octets.len() < HEADER {
        return Err(FrameFault::TooShort);
    }
    if octets.len() > most as usize {
        return Err(FrameFault::TooLong);
    }
    let octets = whole_octets(alloc, octets)?;
    Ok(Frame { octets })
}

/// `build_up_to` with the most octets of an untagged frame.
pub fn build(alloc: Global, octets: &[u8]) -> Result<Frame, FrameFault>
    ensures frame { IfOk result (λ f. f ≡ frame_of octets.now) }
    ensures good { IfOk result (λ f. verdict_of f 0 most_octets_untagged ≡ Good) }
    ensures too_short { (result ≡ Err FrameFault.TooShort) ↔ (length octets.now < addresses_and_type) }
    ensures too_long { (result ≡ Err FrameFault.TooLong) ↔ (most_octets_untagged < length octets.now) }
{
    build_up_to(alloc, octets, MOST_OCTETS_UNTAGGED)
}
