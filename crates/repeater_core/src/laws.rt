//! The laws by which a signal goes on through a repeater, and by which steady half bits stay steady.
ghost use Rattle.repeater_core.specs.Classes.{SteadinessLasts};
ghost use Rattle.repeater_core.specs.Step.{SignalsAreRepeated};

/// For each open port that hears a signal, what is decided in that half bit for every other port that doesn't rest in
/// it is a signal too (clause 9).
pub fn signals_are_repeated()
    ensures { SignalsAreRepeated }
{}

/// Once some of the steady half bits that lie ahead are over, in which each port heard Idle, a signal or Clash as in
/// the first, the others are steady still, also where the signals are of other levels.
pub fn steadiness_lasts()
    ensures { SteadinessLasts }
{}
