//! The parcels of a segment's edges over a window.
ghost use Rattle.std.specs.Prelude.{◌≡◌, map};
ghost use Rattle.segment_engine.specs.PartStates.{turned_to_repeater};

use net_parts::Parcel;

/// The parcels are turned, with the window's first `count` symbols.
pub fn turn(parcels: &mut [Parcel], count: usize)
    ensures { parcels.new ≡ map (turned_to_repeater count) parcels.old }
{
    for parcel in parcels.iter_mut() {
        parcel.symbols.cut(count);
        parcel.to_repeater = true;
    }
}
