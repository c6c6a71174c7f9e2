//! The fixed texts, the lines of faults, and the names of the files that are written.
ghost use Rattle.std.specs.Prelude.{◌≡◌, ◌++◌, IfOk, OnOk, decimal, string_bytes};
ghost use Rattle.program_texts.specs.Texts.{line_of_fault, line_of_load_fault, line_of_output_fault, line_of_range_fault, line_of_read_fault, line_of_stranger, line_of_tap_fault, line_of_unplanned, name_of_capture, name_of_counters, name_of_log, name_of_state, line_of_stopped, text_of_place};

use capture_file::CaptureFault;
use layout_file::{LayoutFault, Place};
use lists::{List, OutOfMemory, Text};
use program_words::Report;
use std::alloc::Global;

/// What is said of words that are none of the forms.
pub const WORDS_FAULT: &str = "words fault\n";

/// What is said of a run that has no quiet half bit at or after the one that was asked for.
pub const NO_QUIET: &str = "no quiet\n";

/// What the program is called with, and its statuses; no line has more than 80 columns.
pub const HELP: &str =
    "netsim simulates shared 10 Mb/s Ethernet, exact to the half bit of 50 ns.\n\nnetsim check LAYOUT                 whether its round trips fit the slot time\nnetsim slack LAYOUT                 that, and how far cables and delays can grow\nnetsim plain LAYOUT PREFIX          run on one thread: log, counters, captures\nnetsim run LAYOUT PREFIX WORKERS    the same on 1 to 64 threads\nnetsim stop LAYOUT PREFIX FROM      run it to a quiet half bit: PREFIX.state\nnetsim resume LAYOUT PREFIX         go on from PREFIX.state to the end\nnetsim demo NUMBER WORKERS          run a made network of 1 to 128 repeaters\nnetsim probe LAYOUT FROM TO TAP ..  what 1 to 16 taps hear, as runs and bursts\nnetsim waves LAYOUT FROM TO TAP ..  the same, as a value change dump\nnetsim page LAYOUT FROM TO          the run as a page for a browser (HTML)\nnetsim meter LOG                    figures of a log, by station and repeater\nnetsim picture LAYOUT LOG FROM TO   what a log tells, as a picture (SVG)\nnetsim frames LAYOUT LOG            what became of each frame, as a table (CSV)\nnetsim --help                       this text\nnetsim --version                    the name and the version\n\nFROM and TO are half bits, from 0; a TAP is STATION or REPEATER:PORT.\nThe `share` of meter: how many of 1000 sendings that ended met a collision.\n\nStatuses:\n  0   done\n  1   the words are none of these forms\n  2   the layout has a fault\n  3   a load has a fault\n  4   a file can't be read\n  5   a write failed\n  6   there was no memory\n  7   a TAP isn't in the layout, or the run ends before TO\n  8   the log has a fault\n  9   no half bit of the run from FROM on is quiet\n  10  PREFIX.state has a fault\n  11  a line of the log names what the layout lacks\n  12  a file to be written has the name of LAYOUT or of a load\n\nMore: `man netsim`, and README.md and docs/ where the program comes from.\n";

/// The program's name and version.
pub const VERSION: &str = "netsim 0.1.0\n";

/// Puts a number in decimal at the end of a line.
pub fn add_number(line: &mut List<u8>, number: u32) -> Result<(), OutOfMemory>
    ensures ok { OnOk result (line.new ≡ line.old ++ decimal number) }
{
    line.extend(itoa::Buffer::new().format(number).as_bytes())
}

/// Puts a count in decimal at the end of a line.
pub fn add_count(line: &mut List<u8>, count: usize) -> Result<(), OutOfMemory>
    ensures ok { OnOk result (line.new ≡ line.old ++ decimal count) }
{
    line.extend(itoa::Buffer::new().format(count).as_bytes())
}

/// Puts a number of half bits in decimal at the end of a line.
pub fn add_half_bits(line: &mut List<u8>, number: u64) -> Result<(), OutOfMemory>
    ensures ok { OnOk result (line.new ≡ line.old ++ decimal number) }
{
    line.extend(itoa::Buffer::new().format(number).as_bytes())
}

/// Puts the place of a fault at the end of its line.
fn add_place(line: &mut List<u8>, place: &Place) -> Result<(), OutOfMemory>
    ensures ok { OnOk result (line.new ≡ line.old ++ text_of_place place.now) }
{
    line.extend(b"table ")?;
    line.extend(place.table.name().as_bytes())?;
    line.extend(b" row ")?;
    add_number(line, place.row)?;
    line.extend(b" port ")?;
    add_number(line, place.port)?;
    line.extend(b" key ")?;
    line.extend(place.key.name().as_bytes())?;
    Ok(())
}

/// What is said of a layout with a fault.
#[tactic(auto, unfolding(crate::specs::Texts::line_of_fault))]
pub fn line_of_fault(alloc: Global, fault: &LayoutFault) -> Result<List<u8>, OutOfMemory>
    ensures { IfOk result (λ line. line ≡ line_of_fault fault.now) }
{
    let mut line = List::new(alloc);
    line.extend(b"layout fault ")?;
    add_number(&mut line, fault.code.number())?;
    line.extend(b" ")?;
    line.extend(fault.code.name().as_bytes())?;
    line.extend(b" ")?;
    add_place(&mut line, &fault.place)?;
    line.extend(b"\n")?;
    Ok(line)
}

/// What is said of a file that can't be read.
#[tactic(auto, unfolding(crate::specs::Texts::line_of_read_fault))]
pub fn line_of_read_fault(alloc: Global, name: &str) -> Result<List<u8>, OutOfMemory>
    ensures { IfOk result (λ line. line ≡ line_of_read_fault name.now) }
{
    let mut line = List::new(alloc);
    line.extend(b"read fault ")?;
    line.extend(name.as_bytes())?;
    line.extend(b"\n")?;
    Ok(line)
}

/// What is said of a file to be written that has the name of a file that is read.
#[tactic(auto, unfolding(crate::specs::Texts::line_of_output_fault))]
pub fn line_of_output_fault(alloc: Global, name: &str) -> Result<List<u8>, OutOfMemory>
    ensures { IfOk result (λ line. line ≡ line_of_output_fault name.now) }
{
    let mut line = List::new(alloc);
    line.extend(b"output fault ")?;
    line.extend(name.as_bytes())?;
    line.extend(b"\n")?;
    Ok(line)
}

/// What is said of a load with a fault, of the station with this name.
#[tactic(auto, unfolding(crate::specs::Texts::line_of_load_fault))]
pub fn line_of_load_fault(
    alloc: Global,
    name: &str,
    fault: &CaptureFault,
) -> Result<List<u8>, OutOfMemory>
    ensures { IfOk result (λ line. line ≡ line_of_load_fault name.now fault.now) }
{
    let mut line = List::new(alloc);
    line.extend(b"capture fault ")?;
    add_number(&mut line, fault.code())?;
    line.extend(b" ")?;
    line.extend(fault.name().as_bytes())?;
    line.extend(b" station ")?;
    line.extend(name.as_bytes())?;
    line.extend(b" record ")?;
    add_number(&mut line, fault.number())?;
    line.extend(b"\n")?;
    Ok(line)
}

/// What is said of a word of a probe that names no tap.
#[tactic(auto, unfolding(crate::specs::Texts::line_of_tap_fault))]
pub fn line_of_tap_fault(alloc: Global, word: &str) -> Result<List<u8>, OutOfMemory>
    ensures { IfOk result (λ line. line ≡ line_of_tap_fault word.now) }
{
    let mut line = List::new(alloc);
    line.extend(b"probe fault tap ")?;
    line.extend(word.as_bytes())?;
    line.extend(b"\n")?;
    Ok(line)
}

/// What is said of a probe with this report that ends after the run.
pub fn line_of_range_fault(report: Report) -> &'static str
    ensures { result.now ≡ line_of_range_fault report }
{
    match report {
        Report::Runs | Report::Waves => "probe fault range\n",
        Report::Page => "page fault range\n",
    }
}

/// What is said of a log whose line with this number, from 1, names what the layout lacks.
#[tactic(auto, unfolding(crate::specs::Texts::line_of_stranger))]
pub fn line_of_stranger(alloc: Global, line: u32) -> Result<List<u8>, OutOfMemory>
    ensures { IfOk result (λ text. text ≡ line_of_stranger line) }
{
    let mut text = List::new(alloc);
    text.extend(b"picture fault line ")?;
    add_number(&mut text, line)?;
    text.extend(b"\n")?;
    Ok(text)
}

/// What is said of a log whose line with this number, from 1, names what the layout and its loads lack.
#[tactic(auto, unfolding(crate::specs::Texts::line_of_unplanned))]
pub fn line_of_unplanned(alloc: Global, line: u32) -> Result<List<u8>, OutOfMemory>
    ensures { IfOk result (λ text. text ≡ line_of_unplanned line) }
{
    let mut text = List::new(alloc);
    text.extend(b"frames fault line ")?;
    add_number(&mut text, line)?;
    text.extend(b"\n")?;
    Ok(text)
}

/// What is said of a run that stopped before a half bit.
#[tactic(auto, unfolding(crate::specs::Texts::line_of_stopped))]
pub fn line_of_stopped(alloc: Global, t: u64) -> Result<List<u8>, OutOfMemory>
    ensures { IfOk result (λ line. line ≡ line_of_stopped t) }
{
    let mut line = List::new(alloc);
    line.extend(b"stopped ")?;
    add_half_bits(&mut line, t)?;
    line.extend(b"\n")?;
    Ok(line)
}

/// The name of the log of a prefix.
#[tactic(auto, unfolding(crate::specs::Texts::name_of_log))]
pub fn name_of_log(alloc: Global, prefix: &str) -> Result<String, OutOfMemory>
    ensures { IfOk result (λ name. string_bytes name ≡ name_of_log prefix.now) }
{
    let mut name = String::from_str(alloc, prefix)?;
    name.push_str(".log")?;
    Ok(name)
}

/// The name of the counters of a prefix.
#[tactic(auto, unfolding(crate::specs::Texts::name_of_counters))]
pub fn name_of_counters(alloc: Global, prefix: &str) -> Result<String, OutOfMemory>
    ensures { IfOk result (λ name. string_bytes name ≡ name_of_counters prefix.now) }
{
    let mut name = String::from_str(alloc, prefix)?;
    name.push_str(".counters")?;
    Ok(name)
}

/// The name of the capture of a prefix and a station.
#[tactic(auto, unfolding(crate::specs::Texts::name_of_capture))]
pub fn name_of_capture(alloc: Global, prefix: &str, station: &str) -> Result<String, OutOfMemory>
    ensures { IfOk result (λ name. string_bytes name ≡ name_of_capture prefix.now station.now) }
{
    let mut name = String::from_str(alloc, prefix)?;
    name.push_str(".")?;
    name.push_str(station)?;
    name.push_str(".pcap")?;
    Ok(name)
}

/// The name of the state of a prefix.
#[tactic(auto, unfolding(crate::specs::Texts::name_of_state))]
pub fn name_of_state(alloc: Global, prefix: &str) -> Result<String, OutOfMemory>
    ensures { IfOk result (λ name. string_bytes name ≡ name_of_state prefix.now) }
{
    let mut name = String::from_str(alloc, prefix)?;
    name.push_str(".state")?;
    Ok(name)
}
