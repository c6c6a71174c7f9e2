//! The text of a layout's slacks.
ghost use Rattle.std.specs.Prelude.{◌≡◌, ◌++◌, IfOk, OnOk};
ghost use Rattle.layout.specs.Sound.{IsSound};
ghost use Rattle.report_texts.specs.SlackTexts.{IsSlackText, delay_of_repeater, line_of_delay, line_of_gap, lines_of_delays, lines_of_gaps, name_of_repeater, name_of_segment, text_of_limit, text_of_slack};

use layout::Layout;
use lists::{List, OutOfMemory};
use path_slack::{DelaySlack, GapSlack, Limit, path_slack};
use program_texts::{add_number, add_station, verdict_line};
use std::alloc::Global;

/// Puts the name of a segment at the end of a line.
fn add_segment(line: &mut List<u8>, layout: &Layout, segment: u32) -> Result<(), OutOfMemory>
    ensures ok { OnOk result (line.new ≡ line.old ++ name_of_segment layout.now segment) }
{
    match layout.segments.as_slice().get(segment as usize) {
        Some(segment) => line.extend(segment.name.as_str().as_bytes()),
        None => Ok(()),
    }
}

/// Puts the name of a repeater at the end of a line.
fn add_repeater(line: &mut List<u8>, layout: &Layout, repeater: u32) -> Result<(), OutOfMemory>
    ensures ok { OnOk result (line.new ≡ line.old ++ name_of_repeater layout.now repeater) }
{
    match layout.repeaters.as_slice().get(repeater as usize) {
        Some(repeater) => line.extend(repeater.name.as_str().as_bytes()),
        None => Ok(()),
    }
}

/// The delay of a repeater.
fn delay_of_repeater(layout: &Layout, repeater: u32) -> u32
    ensures { result ≡ delay_of_repeater layout.now repeater }
{
    match layout.repeaters.as_slice().get(repeater as usize) {
        Some(repeater) => repeater.delay,
        None => 0,
    }
}

/// Puts what stops a lengthening at the end of a line.
fn add_limit(line: &mut List<u8>, layout: &Layout, limit: Limit) -> Result<(), OutOfMemory>
    ensures ok { OnOk result (line.new ≡ line.old ++ text_of_limit layout.now limit) }
{
    match limit {
        Limit::Pair { a, b } => {
            line.extend(b" pair ")?;
            add_station(line, layout, a)?;
            line.extend(b" ")?;
            add_station(line, layout, b)?;
            line.extend(b"\n")
        }
        Limit::Bound => line.extend(b" bound\n"),
    }
}

/// Puts a slack at the end of a line, or that the layout itself is over.
fn add_slack(
    line: &mut List<u8>,
    layout: &Layout,
    slack: Option<(u32, Limit)>,
) -> Result<(), OutOfMemory>
    ensures ok { OnOk result (line.new ≡ line.old ++ text_of_slack layout.now slack) }
{
    match slack {
        Some((most, limit)) => {
            line.extend(b" slack ")?;
            add_number(line, most)?;
            add_limit(line, layout, limit)
        }
        None => line.extend(b" over\n"),
    }
}

/// Puts the line of a gap at the end of a text.
fn add_gap(text: &mut List<u8>, layout: &Layout, gap: &GapSlack) -> Result<(), OutOfMemory>
    ensures { OnOk result (text.new ≡ text.old ++ line_of_gap layout.now gap.now) }
{
    text.extend(b"segment ")?;
    add_segment(text, layout, gap.segment)?;
    text.extend(b" ")?;
    add_number(text, gap.low)?;
    text.extend(b" ")?;
    add_number(text, gap.high)?;
    add_slack(text, layout, gap.slack)
}

/// Puts the line of a repeater's delay at the end of a text.
fn add_delay(text: &mut List<u8>, layout: &Layout, delay: &DelaySlack) -> Result<(), OutOfMemory>
    ensures { OnOk result (text.new ≡ text.old ++ line_of_delay layout.now delay.now) }
{
    text.extend(b"repeater ")?;
    add_repeater(text, layout, delay.repeater)?;
    text.extend(b" ")?;
    add_number(text, delay_of_repeater(layout, delay.repeater))?;
    add_slack(text, layout, delay.slack)
}

/// The lines of these gaps.
fn lines_of_gaps(alloc: Global, layout: &Layout, gaps: &[GapSlack]) -> Result<List<u8>, OutOfMemory>
    ensures { IfOk result (λ text. text ≡ lines_of_gaps layout.now gaps.now) }
{
    let mut text = List::new(alloc);
    for gap in gaps {
        add_gap(&mut text, layout, gap)?;
    }
    Ok(text)
}

/// The lines of these delays.
fn lines_of_delays(
    alloc: Global,
    layout: &Layout,
    delays: &[DelaySlack],
) -> Result<List<u8>, OutOfMemory>
    ensures { IfOk result (λ text. text ≡ lines_of_delays layout.now delays.now) }
{
    let mut text = List::new(alloc);
    for delay in delays {
        add_delay(&mut text, layout, delay)?;
    }
    Ok(text)
}

/// The line of a layout's verdict, and then a line for each of its gaps and for each of its repeaters' delays.
pub fn slack_text(alloc: Global, layout: &Layout) -> Result<List<u8>, OutOfMemory>
    requires { IsSound layout.now }
    ensures { IfOk result (λ text. IsSlackText layout.now text) }
{
    let mut text = verdict_line(alloc, layout)?;
    let slacks = path_slack(alloc, layout)?;
    let gaps = lines_of_gaps(alloc, layout, slacks.gaps.as_slice())?;
    text.extend(gaps.as_slice())?;
    let delays = lines_of_delays(alloc, layout, slacks.delays.as_slice())?;
    text.extend(delays.as_slice())?;
    Ok(text)
}
