//! Laws of the definitions.
ghost use Rattle.tap_signals.specs.Laws.{RestIsIdle, StretchesAreApart, StretchesAreDetermined};

/// Where a tap emits no signal of any kind, it emits Idle.
pub fn rest_is_idle()
    ensures { RestIsIdle }
{}

/// The stretches of a tap don't overlap, and each is as long as it can be.
pub fn stretches_are_apart()
    ensures { StretchesAreApart }
{}

/// There is only one list of the stretches of a tap in some half bits.
pub fn stretches_are_determined()
    ensures { StretchesAreDetermined }
{}
