//! What a port makes of the wishes for it.
ghost use Rattle.std.specs.Prelude.{◌≡◌, ◌<◌, map, IfOk};
ghost use Rattle.std.specs.List.{All};
ghost use Rattle.std.specs.Fn.{iterate};
ghost use Rattle.mac_parameters.specs.Parameters.{jabber_rest};
ghost use Rattle.repeater_core.specs.Counts.{choice, resting_count};
ghost use Rattle.repeater_core.specs.SilentParts.{silent_count};
ghost use Rattle.repeater_core.specs.Steady.{count_by, IsSentFor};

use lists::OutOfMemory;
use mac_parameters::{JABBER_LIMIT, JABBER_REST};
use manchester_line::Sym;
use std::alloc::Global;
use std::marker::Model;

/// The half bits of rest that follow the one in which a port is halted (profile, jabber lockup protection).
const REST_LEFT: u32 = JABBER_REST - 1;

/// A port's counts: the half bits of its unbroken output, as far as the limit at which it is halted, the half bits of
/// rest that are left, 0 to 191, and whether the output comes right after a rest.
#[derive(Clone, Copy)]
pub struct PortCount {
    pub run: u32,
    pub rest: u32,
    pub after_rest: bool,
}

/// What is decided for a port in a half bit.
#[derive(Clone, Copy)]
pub struct Decision {
    pub symbol: Sym,
    pub halted: bool,
}

impl Model for PortCount {
    ghost use Rattle.repeater_core.specs.Counts.{Count, IsCount};

    ghost Value = { Count };

    ghost view = { λ c. record { run = c.run; rest = c.rest; after_rest = c.after_rest } };

    ghost invariant = { λ c. IsCount (record { run = c.run; rest = c.rest; after_rest = c.after_rest }) };

    ghost inverse = { λ c. record { run = c.run; rest = c.rest; after_rest = c.after_rest } };
}

impl PortCount {
    /// The counts of a port without output, with that many half bits of rest left.
    pub fn resting(rest: u32) -> PortCount
        requires { rest < jabber_rest }
        ensures { result ≡ resting_count rest }
    {
        PortCount {
            run: 0,
            rest,
            after_rest: false,
        }
    }

    /// One half bit, in which this symbol is wished for the port.
    pub fn decide(&mut self, wished: Sym) -> Decision
        ensures count { self.new ≡ (choice wished self.old).count }
        ensures symbol { result.symbol ≡ (choice wished self.old).symbol }
        ensures halted { result.halted ≡ (choice wished self.old).halted }
    {
        let mut symbol = Sym::Idle;
        let mut halted = false;
        if self.rest > 0 {
            self.rest -= 1;
            self.run = 0;
            self.after_rest = true;
        } else if wished == Sym::Idle {
            self.run = 0;
            self.after_rest = false;
        } else if self.run == JABBER_LIMIT {
            self.rest = REST_LEFT;
            self.run = 0;
            self.after_rest = true;
            halted = true;
        } else {
            self.run += 1;
            symbol = wished;
        }
        Decision { symbol, halted }
    }

    /// What would be decided in a half bit in which this symbol is wished for the port.
    pub fn would_decide(&self, wished: Sym) -> Sym
        ensures { result ≡ (choice wished self.now).symbol }
    {
        if self.rest > 0 || self.run == JABBER_LIMIT {
            Sym::Idle
        } else {
            wished
        }
    }

    /// So many half bits in each of which the port is sent a signal, or else rests or nothing is wished for it.
    #[tactic(auto, using(crate::proofs::SteadyLeap::run_for, crate::proofs::SteadyLeap::not_sent_for, crate::proofs::SteadyLeap::run_fits))]
    pub fn leap(&mut self, sent: bool, n: u32)
        requires { IsSentFor n sent self.old }
        ensures { self.new ≡ iterate (count_by sent) n self.old }
    {
        if sent {
            self.run += n;
        } else {
            self.be_silent(u64::from(n));
        }
    }

    /// So many half bits in each of which the port rests or nothing is wished for it.
    #[tactic(auto, using(crate::proofs::SilentModes::rested_for))]
    pub fn be_silent(&mut self, n: u64)
        ensures { self.new ≡ iterate silent_count n self.old }
    {
        if n == 0 {
            return;
        }
        let rests = n <= u64::from(self.rest);
        self.rest = if rests { self.rest - n as u32 } else { 0 };
        self.run = 0;
        self.after_rest = rests;
    }
}

/// The counts of ports without output that rest for so many half bits more, each.
pub fn resting_counts(alloc: Global, rests: &[u32]) -> Result<Vec<PortCount>, OutOfMemory>
    requires { All (λ rest. rest < jabber_rest) rests.now }
    ensures { IfOk result (λ counts. counts.items ≡ map resting_count rests.now) }
{
    let mut counts = Vec::with_capacity(alloc, rests.len())?;
    for rest in rests {
        counts.push(PortCount::resting(*rest))?;
    }
    Ok(counts)
}
