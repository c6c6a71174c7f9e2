//! The texts of figures and of a log's fault.
ghost use Rattle.std.specs.Prelude.{◌≡◌, ◌<◌, ◌↔◌, ◌++◌, ℕ, Err, IfOk, OnOk, decimal, length, sum_by};
ghost use Rattle.log_meter.specs.FigureTexts.{AreFiguresIn, IsFiguresText, line_of_log_with, line_of_repeater, line_of_station, lines_of_repeaters, lines_of_stations, words_of_channel, words_of_frames};
ghost use Rattle.std.specs.List.{AllByRecursion};
ghost use Rattle.log_meter.specs.Lines.{IsLogLine};
ghost use Rattle.log_meter.specs.Logs.{IsBadAt, IsFallingAt, most_log_octets};
ghost use Rattle.log_meter.specs.declared.fault.LogFault.TheVariants.{BadLine, Order, TooLarge};

use crate::device_figures::{RepeaterFigures, StationFigures};
use crate::metering::figures;
use crate::tally::sum;
use crate::{LogFault, LogLines, read_log};
use lists::{List, OutOfMemory};
use std::alloc::Global;

/// Puts a word and a number at the end of a line.
fn add_field(line: &mut List<u8>, word: &[u8], number: u64) -> Result<(), OutOfMemory>
    ensures { OnOk result (line.new ≡ line.old ++ word.now ++ decimal number) }
{
    line.extend(word)?;
    line.extend(itoa::Buffer::new().format(number).as_bytes())
}

/// Puts the words of a station's frames at the end of a text.
#[tactic(auto, unfolding(crate::specs::FigureTexts::words_of_frames))]
fn add_frames(text: &mut List<u8>, station: &StationFigures) -> Result<(), OutOfMemory>
    ensures { OnOk result (text.new ≡ text.old ++ words_of_frames station.now) }
{
    add_field(text, b" sent ", station.tally.sent)?;
    add_field(text, b" collided ", station.tally.collided)?;
    add_field(text, b" given_up ", station.tally.given_up)?;
    add_field(text, b" cut ", station.tally.cut)?;
    add_field(text, b" received ", station.tally.received)?;
    add_field(text, b" dropped ", station.tally.dropped)
}

/// Puts the words of how much of the channel a station got at the end of a text.
#[tactic(auto, unfolding(crate::specs::FigureTexts::words_of_channel))]
fn add_channel(text: &mut List<u8>, station: &StationFigures) -> Result<(), OutOfMemory>
    ensures { OnOk result (text.new ≡ text.old ++ words_of_channel station.now) }
{
    add_field(text, b" half_bits ", station.tally.half_bits)?;
    add_field(text, b" share ", station.share)?;
    add_field(text, b" longest ", station.longest)
}

/// Puts the line of a station at the end of a text.
#[tactic(auto, unfolding(crate::specs::FigureTexts::line_of_station))]
fn add_station(text: &mut List<u8>, station: &StationFigures) -> Result<(), OutOfMemory>
    ensures { OnOk result (text.new ≡ text.old ++ line_of_station station.now) }
{
    text.extend(b"station ")?;
    text.extend(station.name.as_str().as_bytes())?;
    add_frames(text, station)?;
    add_channel(text, station)?;
    text.extend(b"\n")
}

/// Puts the line of a repeater at the end of a text.
#[tactic(auto, unfolding(crate::specs::FigureTexts::line_of_repeater))]
fn add_repeater(text: &mut List<u8>, repeater: &RepeaterFigures) -> Result<(), OutOfMemory>
    ensures { OnOk result (text.new ≡ text.old ++ line_of_repeater repeater.now) }
{
    text.extend(b"repeater ")?;
    text.extend(repeater.name.as_str().as_bytes())?;
    add_field(text, b" clash ", repeater.tally.clash)?;
    add_field(text, b" closed ", repeater.tally.closed)?;
    add_field(text, b" opened ", repeater.tally.opened)?;
    add_field(text, b" halted ", repeater.tally.halted)?;
    text.extend(b"\n")
}

/// Puts the lines of stations at the end of a text.
fn add_stations(text: &mut List<u8>, stations: &[StationFigures]) -> Result<(), OutOfMemory>
    ensures { OnOk result (text.new ≡ text.old ++ lines_of_stations stations.now) }
{
    for station in stations {
        add_station(text, station)?;
    }
    Ok(())
}

/// Puts the lines of repeaters at the end of a text.
fn add_repeaters(text: &mut List<u8>, repeaters: &[RepeaterFigures]) -> Result<(), OutOfMemory>
    ensures { OnOk result (text.new ≡ text.old ++ lines_of_repeaters repeaters.now) }
{
    for repeater in repeaters {
        add_repeater(text, repeater)?;
    }
    Ok(())
}

/// For how many half bits these stations sent.
fn sending(stations: &[StationFigures]) -> Result<u64, OutOfMemory>
    ensures { IfOk result (λ all. all ≡ sum_by (λ f. f.tally.half_bits) stations.now) }
{
    let mut all = 0;
    for station in stations {
        all = sum(all, station.tally.half_bits)?;
    }
    Ok(all)
}

/// The text of the figures of these lines.
fn text_of(alloc: Global, lines: &LogLines) -> Result<List<u8>, OutOfMemory>
    requires { AllByRecursion IsLogLine lines.now }
    ensures { IfOk result (λ text. AreFiguresIn lines.now text) }
{
    let figures = figures(alloc, lines)?;
    let mut text = List::new(alloc);
    add_field(&mut text, b"rows ", lines.len() as u64)?;
    add_field(
        &mut text,
        b" sending ",
        sending(figures.stations.as_slice())?,
    )?;
    text.extend(b"\n")?;
    add_stations(&mut text, figures.stations.as_slice())?;
    add_repeaters(&mut text, figures.repeaters.as_slice())?;
    Ok(text)
}

/// The text of the figures of the log that these octets are, or the log's first fault.
pub fn figures_text(alloc: Global, bytes: &[u8]) -> Result<List<u8>, LogFault>
    ensures text { IfOk result (λ text. IsFiguresText bytes.now text) }
    ensures too_large { (result ≡ Err TooLarge) ↔ (most_log_octets < length bytes.now) }
    ensures bad_line { (n : ℕ) → result ≡ Err (BadLine n) → IsBadAt n bytes.now }
    ensures order { (n : ℕ) → result ≡ Err (Order n) → IsFallingAt n bytes.now }
{
    let lines = read_log(alloc, bytes)?;
    Ok(text_of(alloc, &lines)?)
}

/// What is said of a log with this fault.
pub fn log_fault_text(alloc: Global, fault: &LogFault) -> Result<List<u8>, OutOfMemory>
    ensures { IfOk result (λ line. line ≡ line_of_log_with fault.now) }
{
    let mut line = List::new(alloc);
    add_field(&mut line, b"log fault ", u64::from(fault.code()))?;
    line.extend(b" ")?;
    line.extend(fault.name().as_bytes())?;
    add_field(&mut line, b" line ", u64::from(fault.line()))?;
    line.extend(b"\n")?;
    Ok(line)
}
