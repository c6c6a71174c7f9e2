//! The form that judges the round trips of a layout.
ghost use Rattle.run_endings.specs.Answers.{ending_of};
ghost use Rattle.run_endings.specs.Endings.{IsCheckEnd};

use crate::judge::read_network;
use crate::world::World;
use outside::{Sink, Store};
use program_texts::verdict_line;
use run_endings::Ending;
use std::alloc::Global;

/// Tells the path verdict of a layout file.
pub fn check<S: Store, K: Sink>(
    alloc: Global,
    layout: &str,
    world: &mut World<S, K>,
) -> Result<(), Ending>
    ensures { IsCheckEnd layout.now world.old world.new (ending_of result) }
{
    let network = read_network(alloc, layout, world)?;
    let text = verdict_line(alloc, &network)?;
    world.tell(text.as_slice())
}
