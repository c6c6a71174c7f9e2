//! Why both stations of a collision notice it in time: a call without a body for each law.
ghost use Rattle.path_checker.specs.Propagation.{WavesArrive, EarlyStart, LateStart};

/// Wave: what a station emits comes to another after the path between them, where each repeater on it is met with an
/// open port to enter and a port to leave that doesn't rest.
pub fn waves_arrive()
    ensures { WavesArrive }
{}

/// Early start: a station that starts before the other's signal has passed it has a hit within the path's length d, and
/// the other within twice that.
pub fn early_start()
    ensures { EarlyStart }
{}

/// Late start: a station that starts while it hears the other starts less than an interframe gap after the signal came
/// and has a hit at once, and the other has one less than an interframe gap after twice the path's length.
pub fn late_start()
    ensures { LateStart }
{}
