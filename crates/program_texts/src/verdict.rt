//! The line of a path verdict.
ghost use Rattle.std.specs.Prelude.{◌≡◌, ◌++◌, IfOk, OnOk};
ghost use Rattle.layout.specs.Sound.{IsSound};
ghost use Rattle.program_texts.specs.Verdicts.{IsVerdictLine, line_of_verdict, name_of_station, text_of_pair};

use crate::texts::add_number;
use layout::Layout;
use lists::{List, OutOfMemory};
use path_checker::{PathVerdict, check_paths};
use std::alloc::Global;

/// Puts the name of a station at the end of a line.
pub fn add_station(line: &mut List<u8>, layout: &Layout, station: u32) -> Result<(), OutOfMemory>
    ensures ok { OnOk result (line.new ≡ line.old ++ name_of_station layout.now station) }
{
    match layout.stations.as_slice().get(station as usize) {
        Some(station) => line.extend(station.name.as_str().as_bytes()),
        None => Ok(()),
    }
}

/// Puts the worst round trip and its two stations at the end of a line.
fn add_pair(
    line: &mut List<u8>,
    layout: &Layout,
    worst: u32,
    a: u32,
    b: u32,
) -> Result<(), OutOfMemory>
    ensures ok { OnOk result (line.new ≡ line.old ++ text_of_pair layout.now worst a b) }
{
    add_number(line, worst)?;
    line.extend(b" ")?;
    add_station(line, layout, a)?;
    line.extend(b" ")?;
    add_station(line, layout, b)?;
    line.extend(b"\n")
}

/// The line of a verdict.
fn line_of_verdict(
    alloc: Global,
    layout: &Layout,
    verdict: &PathVerdict,
) -> Result<List<u8>, OutOfMemory>
    ensures { IfOk result (λ line. line ≡ line_of_verdict layout.now verdict.now) }
{
    let mut line = List::new(alloc);
    match *verdict {
        PathVerdict::Within { worst, a, b } => {
            line.extend(b"within ")?;
            add_pair(&mut line, layout, worst, a, b)?;
        }
        PathVerdict::Over { worst, a, b } => {
            line.extend(b"over ")?;
            add_pair(&mut line, layout, worst, a, b)?;
        }
        PathVerdict::NoPair => line.extend(b"no pair\n")?,
    }
    Ok(line)
}

/// The line of a layout's verdict.
pub fn verdict_line(alloc: Global, layout: &Layout) -> Result<List<u8>, OutOfMemory>
    requires { IsSound layout.now }
    ensures { IfOk result (λ line. IsVerdictLine layout.now line) }
{
    let verdict = check_paths(alloc, layout)?;
    line_of_verdict(alloc, layout, &verdict)
}
