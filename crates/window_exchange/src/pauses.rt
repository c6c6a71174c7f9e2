//! How a thread waits for what others do.
ghost use Rattle.std.specs.Prelude.{◌≡◌, ◌≤◌};

use crossbeam_utils::Backoff;
use std::sync::Wait;
use std::thread::Parker;
use std::time::Duration;

/// The longest sleep, in microseconds.
const LONGEST: u64 = 100;

/// The pauses of a thread between its looks at what another one may have changed. At first it only spins, then it yields
/// the processor, and then it sleeps, each time twice as long, up to a tenth of a millisecond.
#[derive(Drop)]
pub struct Pauses {
    backoff: Backoff,
    parker: Parker,
    micros: u64,
    ghost short: { micros ≤ 100 },
}

impl Pauses {
    /// No pause so far. The first sleep is to take a microsecond.
    pub fn new() -> Pauses
        ensures { result.micros ≡ 1 }
    {
        Pauses {
            backoff: Backoff::new(),
            parker: Parker::new(),
            micros: 1,
        }
    }

    /// Makes the next pause. Nobody else has the parker, so a sleep ends by its time.
    pub fn pause<R: Wait>(&mut self, rt: &R)
        ensures { self.old.micros ≤ self.new.micros }
    {
        if !self.backoff.is_completed() {
            self.backoff.snooze();
            return;
        }
        self.parker
            .park_timeout(rt, Duration::from_micros(self.micros));
        self.micros = (2 * self.micros).min(LONGEST);
    }
}
