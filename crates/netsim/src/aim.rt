//! What a probe aims at: taps by their words, and an end within the run.
ghost use Rattle.std.specs.Prelude.{◌≡◌, ◌≤◌, All, IfOk, IfErr, OnOk};
ghost use Rattle.layout.specs.Sound.{IsSound};
ghost use Rattle.line_probe.specs.Taps.{HasTap};
ghost use Rattle.run_endings.specs.Endings.{HasOnlyRead};
ghost use Rattle.program_endings.specs.ProbeEnds.{IsAimEnd};
ghost use Rattle.netsim.specs.TapStops.{IsTapStop};
ghost use Rattle.program_endings.specs.Probes.{AreTapsOf, half_bits_of};

use layout::Layout;
use line_probe::{Tap, find_tap};
use lists::{List, Text};
use outside::{Sink, Store};
use program_texts::{line_of_range_fault, line_of_tap_fault};
use program_words::Report;
use run_endings::Ending;
use run_forms::World;
use std::alloc::Global;

/// Why there are no taps of these words.
#[derive(Clone, Copy)]
pub(crate) enum TapStop<'a> {
    /// The first word that names no tap.
    Unknown { word: &'a str },
    /// An allocation was refused.
    OutOfMemory,
}

/// The taps that these words name, or the first word that names none.
fn taps_of<'a>(alloc: Global, network: &Layout, words: &'a [Text]) -> Result<List<Tap>, TapStop<'a>>
    requires { IsSound network.now }
    ensures taps { IfOk result (λ taps. AreTapsOf network.now words.now taps) }
    ensures there { IfOk result (λ taps. All (HasTap network.now) taps) }
    ensures stop { IfErr result (λ stop. IsTapStop network.now words.now stop) }
{
    let mut taps = List::new(alloc);
    for word in words {
        let Some(tap) = find_tap(network, word.as_str().as_bytes()) else {
            return Err(TapStop::Unknown {
                word: word.as_str(),
            });
        };
        let Ok(()) = taps.push(tap) else {
            return Err(TapStop::OutOfMemory);
        };
    }
    Ok(taps)
}

/// The taps that these words name in a network whose run has the half bits before `to`, or says for this report what
/// isn't there: the first word that names no tap, or else those half bits.
pub(crate) fn aim<S: Store, K: Sink>(
    alloc: Global,
    report: Report,
    network: &Layout,
    to: u32,
    words: &[Text],
    world: &mut World<S, K>,
) -> Result<List<Tap>, Ending>
    requires { IsSound network.now }
    ensures taps { IfOk result (λ taps. AreTapsOf network.now words.now taps) }
    ensures there { IfOk result (λ taps. All (HasTap network.now) taps) }
    ensures within { OnOk result (to ≤ half_bits_of network.now) }
    ensures read { OnOk result (HasOnlyRead world.old world.new) }
    ensures missed { IfErr result (λ e. IsAimEnd report network.now to words.now world.old world.new e) }
    ensures held { world.new.held ≡ world.old.held }
{
    let taps = match taps_of(alloc, network, words) {
        Ok(taps) => taps,
        Err(TapStop::OutOfMemory) => return Err(Ending::Memory),
        Err(TapStop::Unknown { word }) => {
            let line = line_of_tap_fault(alloc, word)?;
            world.say(line.as_slice());
            return Err(Ending::Probe);
        }
    };
    if u64::from(to) > network.half_bits() {
        world.say(line_of_range_fault(report).as_bytes());
        return Err(Ending::Probe);
    }
    Ok(taps)
}
