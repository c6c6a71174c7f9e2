//! The laws of a station's starts, of its attempts, and of what it emits where it is calm.
ghost use Rattle.mac_transmit.specs.Attempts.{AttemptsAreLawful};
ghost use Rattle.mac_transmit.specs.Emissions.{CalmSendersEmit, CalmSendingsLast};
ghost use Rattle.mac_transmit.specs.Starts.{GapsAreKept, DeafGapsAreKept};

/// A start of a station comes at least 192 half bits after the end of each of its sendings before it.
pub fn gaps_are_kept()
    ensures { GapsAreKept }
{}

/// A station that hears something in each half bit from one on up to its start starts less than 192 half bits after
/// that one.
pub fn deaf_gaps_are_kept()
    ensures { DeafGapsAreKept }
{}

/// Over half bits without an end: each attempt has at least 192 half bits, and 1,152 without a hit; it emits something
/// in each of them; it has a hit by each of them in which the station hears something; and it keeps the deaf gap.
pub fn attempts_are_lawful()
    ensures { AttemptsAreLawful }
{}

/// A sender that is calm emits in each half bit what it would if nothing happened to it: its sending goes on, or it
/// emits Idle.
pub fn calm_senders_emit()
    ensures { CalmSendersEmit }
{}

/// A sending lasts for the half bits that are calm, so that `piece` may be asked for as many.
pub fn calm_sendings_last()
    ensures { CalmSendingsLast }
{}
