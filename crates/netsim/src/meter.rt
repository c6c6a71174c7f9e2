//! The form that says figures of a log.
ghost use Rattle.run_endings.specs.Answers.{ending_of};
ghost use Rattle.program_endings.specs.Endings.{IsMeterEnd};

use log_meter::{LogFault, MOST_LOG_OCTETS, figures_text, log_fault_text};
use outside::{Sink, Store};
use run_endings::Ending;
use run_forms::World;
use std::alloc::Global;

/// Says the figures of a log, or its first fault.
pub(crate) fn meter<S: Store, K: Sink>(
    alloc: Global,
    log: &str,
    world: &mut World<S, K>,
) -> Result<(), Ending>
    ensures { IsMeterEnd log.now world.old world.new (ending_of result) }
{
    let octets = world.read_or_say(alloc, log, MOST_LOG_OCTETS)?;
    match figures_text(alloc, octets.as_slice()) {
        Ok(text) => world.tell(text.as_slice()),
        Err(LogFault::OutOfMemory) => Err(Ending::Memory),
        Err(fault) => {
            let line = log_fault_text(alloc, &fault)?;
            world.say(line.as_slice());
            Err(Ending::Log)
        }
    }
}
