//! A layout file, read and judged.
ghost use Rattle.std.specs.Prelude.{◌≡◌, Ok, IfOk, IfErr, OnOk};
ghost use Rattle.layout.specs.Sound.{IsSound};
ghost use Rattle.run_endings.specs.Endings.{HasOnlyRead, IsEarly, IsJudged};

use crate::world::World;
use layout::Layout;
use layout_file::{LayoutCode, read_layout};
use outside::{Sink, Store};
use program_texts::line_of_fault;
use run_endings::Ending;
use std::alloc::Global;

/// The most octets of a layout file without a fault (profile).
const MOST_LAYOUT: usize = 1_048_576;

/// Reads and judges a layout file, or says why there is no layout.
pub fn read_network<S: Store, K: Sink>(
    alloc: Global,
    name: &str,
    world: &mut World<S, K>,
) -> Result<Layout, Ending>
    ensures judged { IfOk result (λ layout. IsJudged name.now world.old.held (Ok layout)) }
    ensures sound { IfOk result (λ layout. IsSound layout) }
    ensures read { OnOk result (HasOnlyRead world.old world.new) }
    ensures early { IfErr result (λ e. IsEarly name.now world.old world.new e) }
    ensures held { world.new.held ≡ world.old.held }
{
    let octets = world.read_or_say(alloc, name, MOST_LAYOUT)?;
    match read_layout(alloc, octets.as_slice()) {
        Ok(layout) => Ok(layout),
        Err(fault) if fault.code == LayoutCode::OutOfMemory => Err(Ending::Memory),
        Err(fault) => {
            let line = line_of_fault(alloc, &fault)?;
            world.say(line.as_slice());
            Err(Ending::Layout)
        }
    }
}
