//! Laws of quiet half bits: a call without a body for each.
ghost use Rattle.quiet_state.specs.Laws.{LastSignalsGoOn, QuietIsAsKept, QuietStatesAreResumable, ResumedCapturesAreWhole, ResumedQuietIsTheSame, ResumedRowsAreWhole, ResumedStatesAreTheSame, RunsBeginQuiet, RunsGoOn, StatesAreKept, StatesHaveTheirRows, StillAfterSilence, StillAsKept};

/// Each run begins in a quiet half bit.
pub fn runs_begin_quiet()
    ensures { RunsBeginQuiet }
{}

/// A run that stops in a quiet half bit and goes on later from its state has the rows and the captures of the whole
/// run.
pub fn resumed_runs_are_whole()
    ensures rows { ResumedRowsAreWhole }
    ensures captures { ResumedCapturesAreWhole }
{}

/// From each of its half bits on the network of a plan comes to the rows and captures of the run.
pub fn runs_go_on()
    ensures { RunsGoOn }
{}

/// A half bit is quiet exactly where the devices, and the last signals of taps and ports, tell so. Both go on half bit
/// by half bit.
pub fn quiet_is_as_kept()
    ensures quiet { QuietIsAsKept }
    ensures signals { LastSignalsGoOn }
    ensures receivers { StillAfterSilence }
    ensures kept { StillAsKept }
{}

/// The network of a plan can go on from the state of each quiet half bit.
pub fn quiet_states_are_resumable()
    ensures { QuietStatesAreResumable }
{}

/// The state of each half bit has the rows of the devices so far, in their order, and these rows tell the places of its
/// senders and the sizes of its captures.
pub fn states_have_their_rows()
    ensures { StatesHaveTheirRows }
{}

/// A network begins with the state from which it goes on.
pub fn states_are_kept()
    ensures { StatesAreKept }
{}

/// A network that went on from a quiet half bit can be stopped again in the same half bits, with the same states, as
/// the network that never stopped.
pub fn resumed_runs_stop_alike()
    ensures states { ResumedStatesAreTheSame }
    ensures quiet { ResumedQuietIsTheSame }
{}
