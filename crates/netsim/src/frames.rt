//! The form that says what became of each frame.
ghost use Rattle.std.specs.Prelude.{◌≡◌};
ghost use Rattle.log_meter.specs.Logs.{IsLog};
ghost use Rattle.run_endings.specs.Answers.{ending_of};
ghost use Rattle.program_endings.specs.Endings.{IsFramesEnd, IsTableEnd};

use crate::picture::read_lines;
use frame_table::{find_unplanned, frames as table_of_frames};
use load_plan::Plan;
use log_meter::LogLines;
use outside::{Sink, Store};
use program_texts::line_of_unplanned;
use run_endings::Ending;
use run_forms::{World, plan_network, read_network};
use std::alloc::Global;

/// Says by these lines of a log what became of each frame of a plan, or which line is the first that names what the
/// plan lacks.
fn tabulate<S: Store, K: Sink>(
    alloc: Global,
    plan: &Plan,
    lines: &LogLines,
    world: &mut World<S, K>,
) -> Result<(), Ending>
    requires { IsLog lines.now }
    ensures told { IsTableEnd plan.now lines.now world.old world.new (ending_of result) }
    ensures held { world.new.held ≡ world.old.held }
{
    if let Some(number) = find_unplanned(alloc, plan, lines)? {
        let line = line_of_unplanned(alloc, number)?;
        world.say(line.as_slice());
        return Err(Ending::Stranger);
    }
    let text = table_of_frames(alloc, plan, lines)?;
    world.tell(text.as_slice())
}

/// Says by a log what became of each frame that the stations of a layout file have to send.
pub(crate) fn frames<S: Store, K: Sink>(
    alloc: Global,
    layout: &str,
    log: &str,
    world: &mut World<S, K>,
) -> Result<(), Ending>
    ensures { IsFramesEnd layout.now log.now world.old world.new (ending_of result) }
{
    let network = read_network(alloc, layout, world)?;
    let plan = plan_network(alloc, network, world)?;
    let lines = read_lines(alloc, log, world)?;
    tabulate(alloc, &plan, &lines, world)
}
