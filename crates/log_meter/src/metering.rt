//! Figures from a log: who got how much of the channel.
ghost use Rattle.std.specs.Prelude.{◌≡◌, ◌++◌, List, IfOk, OnOk};
ghost use Rattle.log_meter.specs.Figures.{AreFigures, collided_share};
ghost use Rattle.std.specs.List.{AllByRecursion};
ghost use Rattle.log_meter.specs.Lines.{IsLogLine};
ghost use Rattle.log_meter.specs.Tallies.{AreTalliesOf, figures_of_repeater, figures_of_station, repeater_named, station_named};
ghost use Rattle.log_meter.specs.declared.line.LogLine.{LogLine};

use crate::LogLines;
use crate::device_figures::{Figures, RepeaterFigures, RepeaterList, StationFigures, StationList};
use crate::tallies::tallies_of;
use crate::tally::{Tally, sum};
use lists::{List, OutOfMemory, Text};
use std::alloc::Global;
use std::collections::BTreeMap;

/// Of each thousand sendings, how many met a collision.
fn collided_share(sent: u64, collided: u64, given_up: u64) -> Result<u64, OutOfMemory>
    ensures { IfOk result (λ share. share ≡ collided_share sent collided given_up) }
{
    let met = sum(collided, given_up)?;
    let all = sum(sum(sent, collided)?, given_up)?;
    if all == 0 {
        return Ok(0);
    }
    let Some(thousandths) = met.checked_mul(1000) else {
        return Err(OutOfMemory);
    };
    Ok(thousandths / all)
}

/// The figures of the station of a name with this tally.
fn station(alloc: Global, name: &str, tally: &Tally) -> Result<StationFigures, OutOfMemory>
    ensures { IfOk result (λ figures. figures ≡ figures_of_station name.now tally.now) }
{
    Ok(StationFigures {
        name: Text::new(alloc, name)?,
        tally: tally.of_station,
        share: collided_share(
            tally.of_station.sent,
            tally.of_station.collided,
            tally.of_station.given_up,
        )?,
        longest: tally.longest,
    })
}

/// The figures of the repeater of a name with this tally.
fn repeater(alloc: Global, name: &str, tally: &Tally) -> Result<RepeaterFigures, OutOfMemory>
    ensures { IfOk result (λ figures. figures ≡ figures_of_repeater name.now tally.now) }
{
    Ok(RepeaterFigures {
        name: Text::new(alloc, name)?,
        tally: tally.of_repeater,
    })
}

/// Puts a station at the end, where the name is one's.
fn add_station(
    alloc: Global,
    stations: &mut StationList,
    name: &str,
    tally: &Tally,
) -> Result<(), OutOfMemory>
    ensures { OnOk result (stations.new ≡ stations.old ++ station_named (name.entry, tally.now)) }
{
    if tally.station {
        stations.push(station(alloc, name, tally)?)?;
    }
    Ok(())
}

/// Puts a repeater at the end, where the name is one's.
fn add_repeater(
    alloc: Global,
    repeaters: &mut RepeaterList,
    name: &str,
    tally: &Tally,
) -> Result<(), OutOfMemory>
    ensures { OnOk result (repeaters.new ≡ repeaters.old ++ repeater_named (name.entry, tally.now)) }
{
    if tally.repeater {
        repeaters.push(repeater(alloc, name, tally)?)?;
    }
    Ok(())
}

/// The figures of all names.
fn figures_of(alloc: Global, tallies: BTreeMap<&str, Tally>) -> Result<Figures, OutOfMemory>
    ensures { (lines : List LogLine) → AreTalliesOf lines tallies.entry → IfOk result (λ figures. AreFigures lines figures) }
{
    let mut stations = List::new(alloc);
    let mut repeaters = List::new(alloc);
    for (name, tally) in tallies {
        add_station(alloc, &mut stations, name, &tally)?;
        add_repeater(alloc, &mut repeaters, name, &tally)?;
    }
    Ok(Figures {
        stations,
        repeaters,
    })
}

/// The figures of the lines of a log, as `read_log` answers them.
pub fn figures(alloc: Global, lines: &LogLines) -> Result<Figures, OutOfMemory>
    requires { AllByRecursion IsLogLine lines.now }
    ensures { IfOk result (λ figures. AreFigures lines.now figures) }
{
    figures_of(alloc, tallies_of(alloc, lines.as_slice())?)
}
