//! A window of all repeaters.
ghost use Rattle.std.specs.Prelude.{◌≡◌, ◌<◌, ◌+◌, OnOk, false, length, true};
ghost use Rattle.net_parts.specs.Parcels.{arrived, refilled};
ghost use Rattle.net_parts.specs.Windows.{windows};
ghost use Rattle.turn_run.specs.ParcelsInTurn.{all_parcels};
ghost use Rattle.turn_run.specs.PartsInTurn.{AreAtWindow};

use lists::OutOfMemory;
use load_plan::Plan;
use net_parts::{Parcel, Part};
use outside::Gate;

/// All repeaters make a window, in turn. The parcels of all edges, each at the place of its edge, come to the
/// repeaters, and go to the segments.
pub fn run_repeaters<R: Part, G: Gate>(
    plan: &Plan,
    window: u64,
    gate: &G,
    repeaters: &mut [R],
    parcels: &mut [Parcel],
) -> Result<(), OutOfMemory>
    requires window { window < windows plan.now }
    requires repeaters { AreAtWindow R.plan R.number R.at plan.now (length plan.now.layout.segments) (length plan.now.layout.repeaters) window repeaters.old }
    requires parcels { parcels.old ≡ all_parcels plan.now true window }
    ensures repeaters { OnOk result (AreAtWindow R.plan R.number R.at plan.now (length plan.now.layout.segments) (length plan.now.layout.repeaters) (window + 1) repeaters.new) }
    ensures parcels { OnOk result (parcels.new ≡ all_parcels plan.now false (window + 1)) }
{
    let mut first = 0;
    for i in 0..repeaters.len() {
        let behind = first + repeaters[i].edges().len();
        run_repeater(gate, &mut repeaters[i], &mut parcels[first..behind])?;
        first = behind;
    }
    Ok(())
}

/// A repeater makes a window, on the parcels of its edges.
fn run_repeater<R: Part, G: Gate>(
    gate: &G,
    repeater: &mut R,
    parcels: &mut [Parcel],
) -> Result<(), OutOfMemory>
    requires window { R.at repeater.old < windows (R.plan repeater.old) }
    requires parcels { parcels.old ≡ arrived (R.plan repeater.old) (R.number repeater.old) (R.at repeater.old) }
    ensures plan { R.plan repeater.new ≡ R.plan repeater.old }
    ensures number { R.number repeater.new ≡ R.number repeater.old }
    ensures at { OnOk result (R.at repeater.new ≡ R.at repeater.old + 1) }
    ensures parcels { OnOk result (parcels.new ≡ refilled (R.plan repeater.old) (R.number repeater.old) (R.at repeater.old)) }
{
    gate.enter(repeater.part(), repeater.window());
    repeater.reserve_window()?;
    repeater.run_window(parcels);
    Ok(())
}
