//! Laws of dumps: calls without a body, whose contracts are the laws.
ghost use Rattle.wave_dump.specs.WaveLaws.{DumpsAreRead, DumpsOfPlansAreRead, OnlyChangesAreTold, TapWordsAreNames, TimesRise, ValuesLast};

/// The times that a dump tells rise strictly, and after the first and before the last it tells only half bits in which
/// something changes.
pub fn times_rise()
    ensures rise { TimesRise }
    ensures change { OnlyChangesAreTold }
{}

/// What a dump doesn't tell anew stays: a tap of which no change is told from one half bit to another hears the same in
/// both.
pub fn values_last()
    ensures { ValuesLast }
{}

/// A reader that goes over a dump word by word gets back the names of the taps, for each of them the symbols that it
/// hears, and the half bit after the last of these. The words that name taps of a layout are names that it reads.
pub fn dumps_are_read()
    ensures heard { DumpsAreRead }
    ensures plan { DumpsOfPlansAreRead }
    ensures words { TapWordsAreNames }
{}
