//! A segment of the network.
ghost use Rattle.std.specs.Prelude.{◌≡◌, ◌<◌, ◌≤◌, ◌^◌, All, length, IfOk};
ghost use Rattle.mac_parameters.specs.Parameters.{greatest_place};
ghost use Rattle.cable_segment.specs.Bus.{heard_at};
ghost use Rattle.cable_segment.specs.Cable.{told_at};
ghost use Rattle.net_step.specs.Wires.{symbols_of, told_from, carried, cable_places, new_wire};
ghost use Rattle.network.specs.TapsOnSegments.{numbers_on};

use cable_segment::Cable;
use layout::{PortLine, places_on};
use lists::OutOfMemory;
use manchester_line::Sym;
use std::alloc::Global;
use std::marker::Model;

/// A segment: its cable, and the number of each of its taps among all taps.
#[derive(Drop)]
pub struct SegmentCable {
    cable: Cable,
    taps: Vec<u32>,
}

impl Model for SegmentCable {
    ghost use Rattle.std.specs.Prelude.{◌<◌, ◌≤◌, ◌^◌, length};
    ghost use Rattle.net_step.specs.Wires.{Wire};

    ghost Value = { Wire };

    ghost view = { λ s. record { cable = s.cable; taps = s.taps.items } };

    ghost invariant = { λ s. (length s.taps.items ≤ length s.cable.positions) × (length s.cable.positions < 2 ^ 32) };
}

/// The numbers of the taps of a segment among all taps, from 0.
fn numbers_on(alloc: Global, taps: &[PortLine], segment: usize) -> Result<Vec<u32>, OutOfMemory>
    requires { length taps.now < 2 ^ 32 }
    ensures { IfOk result (λ numbers. numbers.items ≡ numbers_on segment 0 taps.now) }
{
    let mut numbers = Vec::new(alloc);
    for k in 0..taps.len() {
        if taps[k].segment as usize != segment {
            continue;
        }
        numbers.push(k as u32)?;
    }
    Ok(numbers)
}

/// The places of a cable's taps: a segment without a tap gets one that nobody uses.
fn cable_places(positions: Vec<u32>) -> Result<Vec<u32>, OutOfMemory>
    requires { All (λ p. p ≤ greatest_place) positions.items }
    ensures places { IfOk result (λ places. places.items ≡ cable_places positions.items) }
    ensures near { IfOk result (λ places. All (λ p. p ≤ greatest_place) places.items) }
    ensures some { IfOk result (λ places. 0 < length places.items) }
{
    let mut places = positions;
    if places.is_empty() {
        places.push(0)?;
    }
    Ok(places)
}

/// Tells the cable what each tap emits in the present half bit.
fn tell(cable: &mut Cable, taps: &[u32], emitted: &[Sym])
    requires len { length taps.now ≤ length cable.old.positions }
    requires few { length cable.old.positions < 2 ^ 32 }
    requires known { All (λ q. q < length emitted.now) taps.now }
    ensures told { cable.new ≡ told_from cable.old 0 (symbols_of emitted.now taps.now) }
    ensures places { cable.new.positions ≡ cable.old.positions }
{
    for r in 0..taps.len() {
        cable.emit(r as u32, emitted[taps[r] as usize]);
    }
}

impl SegmentCable {
    ghost use Rattle.std.specs.Prelude.{◌≡◌, ◌<◌, ◌≤◌, ◌^◌, All, length, IfOk};
    ghost use Rattle.mac_parameters.specs.Parameters.{greatest_place};
    ghost use Rattle.net_step.specs.Wires.{carried, new_wire};

    /// Segment number `segment`, from 0, of a network with these taps.
    pub fn new(
        alloc: Global,
        taps: &[PortLine],
        segment: usize,
    ) -> Result<SegmentCable, OutOfMemory>
        requires few { length taps.now < 2 ^ 32 }
        requires near { All (λ x. x.at ≤ greatest_place) taps.now }
        ensures { IfOk result (λ made. made ≡ new_wire taps.now segment) }
    {
        let places = cable_places(places_on(alloc, taps, segment)?)?;
        Ok(SegmentCable {
            cable: Cable::new(alloc, &places, 0)?,
            taps: numbers_on(alloc, taps, segment)?,
        })
    }

    /// What one of its taps hears in the present half bit, counted from 0 among them.
    pub fn heard(&self, local: u32) -> Sym
        requires { local < length self.now.cable.positions }
        ensures { result ≡ heard_at (told_at self.now.cable) self.now.cable.positions local }
    {
        self.cable.heard(local)
    }

    /// One half bit in which all taps emit these symbols.
    pub fn carry(&mut self, emitted: &[Sym])
        requires { All (λ q. q < length emitted.now) self.old.taps }
        ensures { self.new ≡ carried emitted.now self.old }
    {
        tell(&mut self.cable, &self.taps, emitted);
        self.cable.advance();
    }
}
