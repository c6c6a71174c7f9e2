//! What the stations of demo send.
ghost use Rattle.std.specs.Prelude.{◌≡◌, ◌≤◌, ◌<◌, ◌+◌, ◌*◌, ◌^◌, ◌++◌, IfOk, OnOk};
ghost use Rattle.layout.specs.Limits.{most_repeaters};
ghost use Rattle.demo_layout.specs.Demo.{demo_octets, demo_send, demo_sends_of, demo_sends};

use layout::{Octets, SendLine, SendLines};
use lists::{List, OutOfMemory};
use mac_parameters::ADDRESSES_AND_TYPE;
use std::alloc::Global;

/// How many frames each station sends (profile).
const SENDS: u32 = 20;

/// How many lengths frames have: they go from 14 octets to 1,514 (profile).
const LENGTHS: u32 = 1_501;

/// The octets of a station's send of that number, from 0.
fn octets(alloc: Global, station: u32, j: u32) -> Result<Octets, OutOfMemory>
    requires station { station < 2 ^ 16 }
    requires number { j < 2 ^ 16 }
    ensures { IfOk result (λ octets. octets ≡ demo_octets station j) }
{
    let mut octets = List::new(alloc);
    octets.extend(&[255, 255, 255, 255, 255, 255])?;
    octets.extend(&[2, 0, 0, 0, (station / 256) as u8, (station % 256) as u8])?;
    octets.extend(&[8, 0])?;
    for k in 0..(97 * station + 131 * j) % LENGTHS {
        octets.push(((ADDRESSES_AND_TYPE + k + station + j) % 256) as u8)?;
    }
    Ok(octets)
}

/// A station's send of that number, from 0.
fn send(alloc: Global, station: u32, j: u32) -> Result<SendLine, OutOfMemory>
    requires station { station < 2 ^ 16 }
    requires number { j < 2 ^ 16 }
    ensures { IfOk result (λ send. send ≡ demo_send station j) }
{
    Ok(SendLine {
        station,
        at: 37 * station as u64 + 20_000 * j as u64,
        octets: octets(alloc, station, j)?,
    })
}

/// Puts the sends of a station at the end.
#[tactic(auto, using(crate::proofs::RowsInOrder::one_more, std::proofs::lemmas::List::append_assoc))]
fn add_sends(alloc: Global, sends: &mut SendLines, station: u32) -> Result<(), OutOfMemory>
    requires { station < 2 ^ 16 }
    ensures { OnOk result (sends.new ≡ sends.old ++ demo_sends_of station) }
{
    for j in 0..SENDS {
        sends.push(send(alloc, station, j)?)?;
    }
    Ok(())
}

/// The sends of demo of that number.
#[tactic(auto, using(crate::proofs::RowsInOrder::one_piece_more))]
pub fn sends(alloc: Global, number: u32) -> Result<SendLines, OutOfMemory>
    requires { number ≤ most_repeaters }
    ensures { IfOk result (λ sends. sends ≡ demo_sends number) }
{
    let mut sends = List::new(alloc);
    for station in 0..4 * (number + 1) {
        add_sends(alloc, &mut sends, station)?;
    }
    Ok(sends)
}
