//! When the signals so far are over: all taps have heard them, and all ports have emitted them.
ghost use Rattle.std.specs.Prelude.{◌≡◌, ◌<◌, ◌+◌, if◌then◌else◌, max, map, IfOk};
ghost use Rattle.mac_parameters.specs.Parameters.{most_half_bits};
ghost use Rattle.manchester_line.specs.Line.{is_signal};
ghost use Rattle.net_step.specs.KeptNet.{over_from};
ghost use Rattle.quiet_state.specs.LastSignals.{reach_over};

use layout::{PortLine, RepeaterLine, delays_of};
use lists::OutOfMemory;
use manchester_line::{Sym, is_signal};
use std::alloc::Global;

/// The half bits from a tap to the farthest of these taps on its segment, and 0 where none is.
fn reach_over(here: PortLine, taps: &[PortLine]) -> u32
    ensures { result ≡ reach_over here taps.now }
{
    let mut reach = 0;
    for tap in taps {
        if tap.segment == here.segment {
            reach = reach.max(tap.at.abs_diff(here.at));
        }
    }
    reach
}

/// The same of each of these taps, over all of them.
fn reaches_of(alloc: Global, taps: &[PortLine]) -> Result<Vec<u32>, OutOfMemory>
    ensures { IfOk result (λ reaches. reaches.items ≡ map (λ x. reach_over x taps.now) taps.now) }
{
    let mut reaches = Vec::new(alloc);
    for tap in taps {
        reaches.push(reach_over(*tap, taps))?;
    }
    Ok(reaches)
}

/// The half bit from which on a symbol is over that is sent in half bit `t` and needs so many half bits; 0 where it is
/// Idle.
fn symbol_over(t: u64, need: u32, symbol: Sym) -> u64
    requires { t < most_half_bits }
    ensures { result ≡ if is_signal symbol then t + need + 1 else 0 }
{
    if is_signal(symbol) {
        t + u64::from(need) + 1
    } else {
        0
    }
}

/// The half bit from which on the signals of a row that is sent in half bit `t` are over, where each symbol needs so
/// many half bits; 0 where there is none.
fn over_from(t: u64, needs: &[u32], row: &[Sym]) -> u64
    requires { t < most_half_bits }
    ensures { result ≡ over_from t needs.now row.now }
{
    let mut from = 0;
    for k in 0..needs.len().min(row.len()) {
        from = from.max(symbol_over(t, needs[k], row[k]));
    }
    from
}

/// From when on the signals so far are over. `reaches` has for each tap the half bits to the farthest other tap,
/// `delays` the delay of each port, and from half bit `settled` on all signals so far are over.
#[derive(Drop)]
pub struct Settling {
    pub reaches: Vec<u32>,
    pub delays: Vec<u32>,
    pub settled: u64,
}

impl Settling {
    ghost use Rattle.std.specs.Prelude.{◌≡◌, ◌<◌, max, map, IfOk};
    ghost use Rattle.mac_parameters.specs.Parameters.{most_half_bits};
    ghost use Rattle.net_step.specs.KeptNet.{over_from};
    ghost use Rattle.layout.specs.Taps.{delays_of};
    ghost use Rattle.quiet_state.specs.LastSignals.{reach_over};

    /// Of these taps and repeaters before the first signal.
    pub fn new(
        alloc: Global,
        taps: &[PortLine],
        repeaters: &[RepeaterLine],
    ) -> Result<Settling, OutOfMemory>
        ensures reaches { IfOk result (λ made. made.reaches.items ≡ map (λ x. reach_over x taps.now) taps.now) }
        ensures delays { IfOk result (λ made. made.delays.items ≡ delays_of repeaters.now) }
        ensures settled { IfOk result (λ made. made.settled ≡ 0) }
    {
        Ok(Settling {
            reaches: reaches_of(alloc, taps)?,
            delays: delays_of(alloc, repeaters)?,
            settled: 0,
        })
    }

    /// Takes in the signals of half bit `t`, in which the taps emit one row and the other is decided for the ports.
    pub fn pass(&mut self, t: u64, emitted: &[Sym], decided: &[Sym])
        requires { t < most_half_bits }
        ensures reaches { self.new.reaches ≡ self.old.reaches }
        ensures delays { self.new.delays ≡ self.old.delays }
        ensures settled { self.new.settled ≡ max (max self.old.settled (over_from t self.old.reaches.items emitted.now)) (over_from t self.old.delays.items decided.now) }
    {
        let taps_over = over_from(t, &self.reaches, emitted);
        let ports_over = over_from(t, &self.delays, decided);
        self.settled = self.settled.max(taps_over).max(ports_over);
    }
}
