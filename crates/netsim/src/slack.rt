//! The form that tells how far a layout can grow.
ghost use Rattle.program_endings.specs.Endings.{IsSlackEnd};
ghost use Rattle.run_endings.specs.Answers.{ending_of};

use outside::{Sink, Store};
use report_texts::slack_text;
use run_endings::Ending;
use run_forms::{World, read_network};
use std::alloc::Global;

/// Tells the path verdict of a layout file, and how far each gap and each repeater's delay can grow.
pub(crate) fn slack<S: Store, K: Sink>(
    alloc: Global,
    layout: &str,
    world: &mut World<S, K>,
) -> Result<(), Ending>
    ensures { IsSlackEnd layout.now world.old world.new (ending_of result) }
{
    let network = read_network(alloc, layout, world)?;
    let text = slack_text(alloc, &network)?;
    world.tell(text.as_slice())
}
