//! The line of a row.
ghost use Rattle.std.specs.Prelude.{◌≡◌, ◌<◌, ◌+◌, ◌^◌, ◌++◌, [], None, OnOk, IfOk, length, slice_get, unwrap_or};
ghost use Rattle.layout.specs.Sound.{IsSound, device_names};
ghost use Rattle.run_checkpoint.specs.LineForms.{is_end_line, log_line_form, row_form};
ghost use Rattle.run_checkpoint.specs.LineTexts.{line_of_row_kept};
ghost use Rattle.log_meter.specs.declared.fault.LineFault.TheVariants.{Bad};
ghost use Rattle.run_texts.specs.Texts.{line_of_row};

use crate::places::device_of;
use collision_log::{Row, row_text};
use layout::Layout;
use lists::{List, OutOfMemory};
use log_meter::{LineFault, LogLine, read_line};
use std::alloc::Global;
use text_fields::after_word;

/// The greatest length of a row's line, in octets (profile).
const MOST_LINE: usize = 200;

/// The name of a device, or an empty one where there is no such device.
fn name_of<'a>(layout: &'a Layout, device: u32) -> &'a str
    ensures { result.now ≡ unwrap_or (slice_get (device_names layout.now) device) [] }
{
    let device = device as usize;
    let stations = layout.stations.as_slice();
    if device < stations.len() {
        return stations[device].name.as_str();
    }
    match layout.repeaters.as_slice().get(device - stations.len()) {
        Some(repeater) => repeater.name.as_str(),
        None => "",
    }
}

/// Puts the line of a row of a layout's device at the end of a text.
#[tactic(auto, unfolding(crate::specs::LineTexts::line_of_row_kept, run_texts::specs::Texts::line_of_row))]
pub fn add_row(text: &mut List<u8>, layout: &Layout, row: &Row) -> Result<(), OutOfMemory>
    requires { IsSound layout.now }
    ensures { OnOk result (text.new ≡ text.old ++ line_of_row_kept layout.now row.now) }
{
    text.extend(b"row ")?;
    let mut line = [0; MOST_LINE];
    let name = name_of(layout, row.device);
    let repeater = row.device as usize >= layout.stations.len();
    let count = row_text(row, repeater, name, &mut line);
    text.extend(&line[..count.min(MOST_LINE)])
}

/// No line, unless memory ran out.
fn no_line(fault: LineFault) -> Result<Option<LogLine>, OutOfMemory>
    ensures { IfOk result (λ l. (l ≡ None) × (fault ≡ Bad)) }
{
    match fault {
        LineFault::Bad => Ok(None),
        LineFault::OutOfMemory => Err(OutOfMemory),
    }
}

/// The line of a log, with its line feed.
fn log_line(alloc: Global, line: &[u8]) -> Result<Option<LogLine>, OutOfMemory>
    ensures { IfOk result (λ l. l ≡ log_line_form line.now) }
{
    let Some(front) = line.strip_suffix(b"\n") else {
        return Ok(None);
    };
    match read_line(alloc, front) {
        Ok(l) => Ok(Some(l)),
        Err(fault) => no_line(fault),
    }
}

/// The row whose line this is.
#[tactic(auto, unfolding(crate::specs::LineForms::row_form))]
pub fn row_of(alloc: Global, layout: &Layout, line: &[u8]) -> Result<Option<Row>, OutOfMemory>
    requires { length layout.now.stations + length layout.now.repeaters < 2 ^ 32 }
    ensures { IfOk result (λ row. row ≡ row_form layout.now line.now) }
{
    let Some(rest) = after_word(b"row ", line) else {
        return Ok(None);
    };
    let Some(l) = log_line(alloc, rest)? else {
        return Ok(None);
    };
    let Some(device) = device_of(layout, &l) else {
        return Ok(None);
    };
    Ok(Some(Row {
        t: l.t,
        device,
        body: l.body,
    }))
}

/// Whether a line is the last one.
pub fn is_end_line(line: &[u8]) -> bool
    ensures { result ≡ is_end_line line.now }
{
    line == b"end\n".as_slice()
}
