//! The judgement of received octets.
ghost use Rattle.std.specs.Prelude.{◌≡◌, ◌<◌};
ghost use Rattle.frame_layout.specs.Frame.{verdict_of};
ghost use Rattle.mac_parameters.specs.Parameters.{IsMost, most_octets_untagged};

use crate::fcs;
use mac_parameters::{CHECK_SEQUENCE, LEAST_FRAME, MOST_OCTETS_UNTAGGED};

/// The octets that a frame has at least, with its frame check sequence (4.4.2).
const LEAST_WHOLE: usize = LEAST_FRAME as usize;

/// The octets of the frame check sequence (3.2.9).
const CHECK: usize = CHECK_SEQUENCE as usize;

/// What received octets are.
#[derive(Clone, Copy, Debug, PartialEq, Eq)]
pub enum Verdict {
    Good,
    Fragment,
    TooLong,
    FcsError,
    AlignError,
}

/// Judges received octets, with up to 7 spare bits after the last whole one and `most` octets allowed
/// before the frame check sequence. The order of the tests is our profile's.
#[tactic(auto, unfolding(crate::specs::Frame::verdict_of, crate::specs::Frame::has_right_fcs, crate::specs::Frame::fcs_octets))]
pub fn judge_up_to(octets: &[u8], spare: u32, most: u32) -> Verdict
    requires spare { spare < 8 }
    requires most { IsMost most }
    ensures { result ≡ verdict_of octets.now spare most }
{
    if octets.len() < LEAST_WHOLE {
        return Verdict::Fragment;
    }
    if octets.len() > most as usize + CHECK {
        return Verdict::TooLong;
    }
    let (rest, check) = octets.split_at(octets.len() - CHECK);
    if check == fcs(rest).to_le_bytes().as_slice() {
        Verdict::Good
    } else if spare > 0 {
        Verdict::AlignError
    } else {
        Verdict::FcsError
    }
}

/// `judge_up_to` with the most octets of an untagged frame.
pub fn judge(octets: &[u8], spare: u32) -> Verdict
    requires { spare < 8 }
    ensures { result ≡ verdict_of octets.now spare most_octets_untagged }
{
    judge_up_to(octets, spare, MOST_OCTETS_UNTAGGED)
}
