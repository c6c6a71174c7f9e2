//! The form that draws what a log tells of some half bits.
ghost use Rattle.std.specs.Prelude.{◌≡◌, ◌≤◌, ◌<◌, ◌+◌, ◌^◌, IfOk, IfErr, OnOk, length};
ghost use Rattle.std.specs.List.{AllByRecursion};
ghost use Rattle.mac_parameters.specs.Parameters.{most_half_bits};
ghost use Rattle.layout.specs.Sound.{IsSound};
ghost use Rattle.log_meter.specs.Lines.{IsLogLine};
ghost use Rattle.program_words.specs.WordLimits.{most_probed};
ghost use Rattle.run_endings.specs.Answers.{ending_of};
ghost use Rattle.run_endings.specs.Endings.{HasOnlyRead};
ghost use Rattle.program_endings.specs.Endings.{IsDrawnEnd, IsPictureEnd, IsUnmetered};
ghost use Rattle.program_endings.specs.Meters.{HasLog};

use layout::Layout;
use log_meter::{LogFault, LogLines, MOST_LOG_OCTETS, log_fault_text, read_log};
use outside::{Sink, Store};
use program_texts::line_of_stranger;
use run_endings::Ending;
use run_forms::{World, read_network};
use run_picture::{find_stranger, picture as picture_of_lines};
use std::alloc::Global;

/// Reads the lines of a log, or says why there are none.
pub(crate) fn read_lines<S: Store, K: Sink>(
    alloc: Global,
    log: &str,
    world: &mut World<S, K>,
) -> Result<LogLines, Ending>
    ensures lines { IfOk result (λ lines. HasLog log.now world.old.held lines) }
    ensures read { OnOk result (HasOnlyRead world.old world.new) }
    ensures unmetered { IfErr result (λ e. IsUnmetered log.now world.old world.new e) }
    ensures held { world.new.held ≡ world.old.held }
{
    let octets = world.read_or_say(alloc, log, MOST_LOG_OCTETS)?;
    match read_log(alloc, octets.as_slice()) {
        Ok(lines) => Ok(lines),
        Err(LogFault::OutOfMemory) => Err(Ending::Memory),
        Err(fault) => {
            let line = log_fault_text(alloc, &fault)?;
            world.say(line.as_slice());
            Err(Ending::Log)
        }
    }
}

/// Draws what these lines of a log tell of the half bits from `from` on and before `to`, or says which line is the
/// first that names what the layout lacks.
fn draw<S: Store, K: Sink>(
    alloc: Global,
    network: &Layout,
    lines: &LogLines,
    from: u32,
    to: u32,
    world: &mut World<S, K>,
) -> Result<(), Ending>
    requires sound { IsSound network.now }
    requires grammar { AllByRecursion IsLogLine lines.now }
    requires few { length lines.now < 2 ^ 32 }
    requires order { from < to }
    requires short { to ≤ from + most_probed }
    requires late { to ≤ most_half_bits }
    ensures drawn { IsDrawnEnd network.now lines.now from to world.old world.new (ending_of result) }
    ensures held { world.new.held ≡ world.old.held }
{
    if let Some(number) = find_stranger(network, lines) {
        let line = line_of_stranger(alloc, number)?;
        world.say(line.as_slice());
        return Err(Ending::Stranger);
    }
    let text = picture_of_lines(alloc, network, lines, u64::from(from), u64::from(to))?;
    world.tell(text.as_slice())
}

/// Draws what a log tells of the half bits from `from` on and before `to` in the network of a layout file.
pub(crate) fn picture<S: Store, K: Sink>(
    alloc: Global,
    layout: &str,
    log: &str,
    from: u32,
    to: u32,
    world: &mut World<S, K>,
) -> Result<(), Ending>
    requires order { from < to }
    requires short { to ≤ from + most_probed }
    requires late { to ≤ most_half_bits }
    ensures { IsPictureEnd layout.now log.now from to world.old world.new (ending_of result) }
{
    let network = read_network(alloc, layout, world)?;
    let lines = read_lines(alloc, log, world)?;
    draw(alloc, &network, &lines, from, to, world)
}
