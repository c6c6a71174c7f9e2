//! Makes the layout of a number.
ghost use Rattle.std.specs.Prelude.{◌≡◌, ◌≤◌, IfOk};
ghost use Rattle.layout.specs.Limits.{most_repeaters};
ghost use Rattle.layout.specs.Sound.{IsSound};
ghost use Rattle.demo_layout.specs.Demo.{demo_of};

use crate::rows::{repeaters, segments, stations};
use crate::sent_frames::sends;
use layout::Layout;
use lists::OutOfMemory;
use std::alloc::Global;

/// The bits of a run (profile).
const UNTIL_BITS: u64 = 200_000;

/// The layout of demo of that number, which is its number of repeaters. It is sound. The only error is want of memory.
#[tactic(auto, unfolding(crate::specs::Demo::demo_of))]
pub fn demo(alloc: Global, number: u32) -> Result<Layout, OutOfMemory>
    requires least { 1 ≤ number }
    requires most { number ≤ most_repeaters }
    ensures layout { IfOk result (λ l. l ≡ demo_of number) }
    ensures sound { IfOk result IsSound }
{
    Ok(Layout {
        format: 1,
        seed: number as u64,
        until_bits: UNTIL_BITS,
        segments: segments(alloc, number)?,
        stations: stations(alloc, number)?,
        repeaters: repeaters(alloc, number)?,
        sends: sends(alloc, number)?,
    })
}
