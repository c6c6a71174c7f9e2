//! Rows with the octets that came with them.
ghost use Rattle.std.specs.Prelude.{◌≡◌, ◌++◌, OnOk, IfOk, drop, map, flat_map, slice_get, slice_set};
ghost use Rattle.layout.specs.Sound.{IsSound};
ghost use Rattle.run_checkpoint.specs.Entries.{after_first, entries_of, first_octets, is_reception, lines_of_entries};

use crate::octets_line::add_octets;
use crate::row_line::add_row;
use collision_log::{Body, Row};
use layout::Layout;
use lists::{List, OutOfMemory};
use network::{Captures, Taken};
use std::alloc::Global;

/// Whether a frame was received.
pub fn is_reception(body: &Body) -> bool
    ensures { result ≡ is_reception body.now }
{
    matches!(body, Body::Received { .. })
}

/// The frames of each station that are still to be told.
fn all_waiting(alloc: Global, captures: &Captures) -> Result<Vec<&[Taken]>, OutOfMemory>
    ensures { IfOk result (λ waiting. map (λ taken. taken.now) waiting.items ≡ captures.now) }
{
    let mut waiting = Vec::new(alloc);
    for taken in captures.as_slice() {
        waiting.push(taken.as_slice())?;
    }
    Ok(waiting)
}

/// The octets of the first frame that a station has still to tell.
fn first_octets<'a>(waiting: &[&'a [Taken]], device: u32) -> &'a [u8]
    ensures { result.now ≡ first_octets (slice_get (map (λ taken. taken.now) waiting.now) device) }
{
    match waiting.get(device as usize) {
        Some(taken) => match taken.first() {
            Some(one) => one.octets.as_slice(),
            None => &[],
        },
        None => &[],
    }
}

/// Frames without the first.
fn after_first(taken: &[Taken]) -> &[Taken]
    ensures { result.now ≡ drop 1 taken.now }
{
    match taken.split_first() {
        Some((_, more)) => more,
        None => taken,
    }
}

/// Takes away the first frame that a station has still to tell.
#[tactic(auto, using(crate::proofs::FirstTaken::first_taken))]
fn take_first(waiting: &mut [&[Taken]], device: u32)
    ensures { map (λ taken. taken.now) waiting.new ≡ slice_set (map (λ taken. taken.now) waiting.old) device (after_first (slice_get (map (λ taken. taken.now) waiting.old) device)) }
{
    let device = device as usize;
    if device < waiting.len() {
        waiting[device] = after_first(waiting[device]);
    }
}

/// Puts the lines of rows, with the octets that came with them, at the end of a text.
pub fn add_entries(
    alloc: Global,
    text: &mut List<u8>,
    layout: &Layout,
    rows: &[Row],
    captures: &Captures,
) -> Result<(), OutOfMemory>
    requires { IsSound layout.now }
    ensures { OnOk result (text.new ≡ text.old ++ flat_map (λ line. line) (lines_of_entries layout.now (entries_of rows.now captures.now))) }
{
    let mut waiting = all_waiting(alloc, captures)?;
    'rows: for k in 0..rows.len() {
        let row = rows[k];
        add_row(text, layout, &row)?;
        if !is_reception(&row.body) {
            continue;
        }
        add_octets(text, first_octets(&waiting, row.device))?;
        take_first(&mut waiting, row.device);
    }
    Ok(())
}
