//! A port's guard: its partition and its reconnection (our profile, in the manner of clause 9).
ghost use Rattle.std.specs.Prelude.{◌≡◌, ◌≢◌, ◌<◌, IsTrue};
ghost use Rattle.port_partition.specs.Alike.{HasNoEvent, forever, guard_calm, guard_later};
ghost use Rattle.port_partition.specs.declared.guard.GuardEvent.TheVariants.{None};
ghost use Rattle.port_partition.specs.Guard.{event_of, guard_after, new_guard, row_with};

use mac_parameters::{PARTITION_COLLISION, PARTITION_IN_A_ROW, RECONNECTION};
use std::marker::Model;

/// The number of half bits that stands for all to come.
pub const FOREVER: u32 = u32::MAX;

/// What a half bit did to a port: nothing, or it was partitioned, or connected again.
#[derive(Clone, Copy, Debug)]
pub enum GuardEvent {
    None,
    Closed,
    Opened,
}

/// The guard of a port: whether it is closed (partitioned), whether it opens (is connected again) once nothing is
/// heard, whether the activity under way had a collision, the collisions in a row, and the half bits of the collision
/// and of the clean run under way. Each is counted as far as it takes to partition the port or to connect it again, and
/// only a closed port may open.
#[derive(Clone, Copy)]
pub struct PortGuard {
    pub closed: bool,
    pub mend: bool,
    pub struck: bool,
    pub in_row: u32,
    pub clash_run: u32,
    pub clean_run: u32,
}

impl Model for PortGuard {
    ghost use Rattle.port_partition.specs.Guard.{Guard, IsGuard};

    ghost Value = { Guard };

    ghost view = { λ g. record {
      closed = g.closed;
      mend = g.mend;
      struck = g.struck;
      in_row = g.in_row;
      clash_run = g.clash_run;
      clean_run = g.clean_run;
    } };

    ghost invariant = { λ g. IsGuard (record {
      closed = g.closed;
      mend = g.mend;
      struck = g.struck;
      in_row = g.in_row;
      clash_run = g.clash_run;
      clean_run = g.clean_run;
    }) };

    ghost inverse = { λ g. record {
      closed = g.closed;
      mend = g.mend;
      struck = g.struck;
      in_row = g.in_row;
      clash_run = g.clash_run;
      clean_run = g.clean_run;
    } };
}

impl PortGuard {
    /// The guard of an open port with all counts 0.
    pub fn new() -> PortGuard
        ensures { result ≡ new_guard }
    {
        PortGuard {
            closed: false,
            mend: false,
            struck: false,
            in_row: 0,
            clash_run: 0,
            clean_run: 0,
        }
    }

    /// One half bit, in which the port hears something or not, has a collision or not, and emits something
    /// or not.
    pub fn step(&mut self, hears: bool, clash: bool, emits: bool) -> GuardEvent
        requires { IsTrue clash → IsTrue hears }
        ensures state { self.new ≡ guard_after self.old hears clash emits }
        ensures event { result ≡ event_of self.old hears clash }
    {
        let mut event = GuardEvent::None;
        if self.closed && self.mend && !hears {
            self.closed = false;
            self.mend = false;
            self.in_row = 0;
            event = GuardEvent::Opened;
        }
        if clash {
            self.clash_run = (self.clash_run + 1).min(PARTITION_COLLISION);
            self.clean_run = 0;
            self.mend = false;
            if !self.struck {
                self.struck = true;
                self.in_row = (self.in_row + 1).min(PARTITION_IN_A_ROW);
            }
            if !self.closed
                && (self.in_row == PARTITION_IN_A_ROW || self.clash_run == PARTITION_COLLISION)
            {
                self.closed = true;
                event = GuardEvent::Closed;
            }
        } else {
            self.clash_run = 0;
            if hears || emits {
                self.clean_run = (self.clean_run + 1).min(RECONNECTION);
                if self.clean_run == RECONNECTION {
                    self.in_row = 0;
                    self.mend = self.closed;
                }
            } else {
                self.clean_run = 0;
                self.struck = false;
            }
        }
        event
    }

    /// For how many half bits alike nothing happens to the port, or `FOREVER` where nothing ever does.
    pub fn calm(&self, hears: bool, clash: bool, emits: bool) -> u32
        requires { IsTrue clash → IsTrue hears }
        ensures calm { HasNoEvent hears clash emits result self.now }
        ensures greatest { result < forever → event_of (guard_later hears clash emits result self.now) hears clash ≢ None }
    {
        let _closed = self.closed;
        self.count_calm(hears, clash, emits)
    }

    fn count_calm(&self, hears: bool, clash: bool, emits: bool) -> u32
        ensures { result ≡ guard_calm hears clash emits self.now }
    {
        if clash {
            if self.closed {
                FOREVER
            } else if self.row_with_this() == PARTITION_IN_A_ROW {
                0
            } else {
                (PARTITION_COLLISION - 1).saturating_sub(self.clash_run)
            }
        } else if hears || !self.closed {
            FOREVER
        } else if self.mend {
            0
        } else if emits {
            (RECONNECTION - self.clean_run).max(1)
        } else {
            FOREVER
        }
    }

    /// The collisions in a row, counted with the one under way.
    fn row_with_this(&self) -> u32
        ensures { result ≡ row_with self.now }
    {
        if self.struck {
            self.in_row
        } else {
            (self.in_row + 1).min(PARTITION_IN_A_ROW)
        }
    }

    /// The guard after `n` half bits alike, in which nothing happens to the port. Its time does not grow with `n`.
    #[tactic(auto, using(crate::proofs::GuardsLater::later_is))]
    pub fn leap(&mut self, n: u32, hears: bool, clash: bool, emits: bool)
        requires clash { IsTrue clash → IsTrue hears }
        requires calm { HasNoEvent hears clash emits n self.old }
        ensures { self.new ≡ guard_later hears clash emits n self.old }
    {
        if n == 0 {
            return;
        }
        if clash {
            self.in_row = self.row_with_this();
            self.clash_run = self.clash_run.saturating_add(n).min(PARTITION_COLLISION);
            self.clean_run = 0;
            self.mend = false;
            self.struck = true;
        } else if hears || emits {
            self.clash_run = 0;
            let clean = self.clean_run.saturating_add(n);
            if clean >= RECONNECTION {
                self.in_row = 0;
                self.mend = self.closed;
            }
            self.clean_run = clean.min(RECONNECTION);
        } else {
            self.clash_run = 0;
            self.clean_run = 0;
            self.struck = false;
        }
    }
}
