//! A repeater of the network.
ghost use Rattle.std.specs.Prelude.{◌≡◌, ◌<◌, ◌≤◌, ◌++◌, length, map, All, IfOk, OnOk, IsTrue, ◌↔◌};
ghost use Rattle.mac_parameters.specs.Parameters.{jabber_rest};
ghost use Rattle.repeater_core.specs.declared.modes.Mode.TheVariants.{Idle};
ghost use Rattle.repeater_core.specs.Step.{RepeaterDevice, new_state, resumed_state, after, decided_by, emitted_by};
ghost use Rattle.network.specs.Rows.{repeater_bodies, told_bodies};

use lists::OutOfMemory;
use manchester_line::Sym;
use port_partition::PortGuard;
use quiet_state::{GuardList, NumberList};
use repeater_core::{Mode, Repeater, RepeaterEvents};
use std::alloc::Global;
use std::marker::Model;

/// A repeater, and the number of its ports.
#[derive(Drop)]
pub struct Relay {
    repeater: Repeater,
    ports: u32,
}

impl Model for Relay {
    ghost use Rattle.std.specs.Prelude.{◌≡◌, ◌≤◌, length};
    ghost use Rattle.repeater_core.specs.Step.{RepeaterDevice};

    ghost Value = { RepeaterDevice };

    ghost view = { λ r. r.repeater };

    ghost invariant = { λ r. (r.ports ≡ length r.repeater.guards) × (r.ports ≤ 32) × (length r.repeater.counts ≡ length r.repeater.guards) };
}

impl Relay {
    ghost use Rattle.std.specs.Prelude.{◌≡◌, ◌<◌, ◌≤◌, ◌++◌, length, map, slice_index_or, All, IfOk, OnOk, IsTrue, ◌↔◌};
    ghost use Rattle.mac_parameters.specs.Parameters.{jabber_rest};
    ghost use Rattle.repeater_core.specs.Counts.{resting_count};
    ghost use Rattle.repeater_core.specs.declared.modes.Mode.TheVariants.{Idle};
    ghost use Rattle.repeater_core.specs.Step.{new_state, resumed_state, after, decided_by, emitted_by};
    ghost use Rattle.repeater_core.specs.Calm.{IsCalm, silent_step};
    ghost use Rattle.std.specs.Fn.{iterate};
    ghost use Rattle.network.specs.Rows.{repeater_bodies};
    ghost use Rattle.network.specs.Rows.{told_bodies};

    /// A new repeater of 2 to 32 ports and a delay of 1 to 200 half bits.
    pub fn new(alloc: Global, ports: u32, delay: u32) -> Result<Relay, OutOfMemory>
        requires two_ports { 2 ≤ ports }
        requires ports_at_most { ports ≤ 32 }
        requires some_delay { 1 ≤ delay }
        requires delay_at_most { delay ≤ 200 }
        ensures { IfOk result (λ r. r ≡ new_state ports delay) }
    {
        Ok(Relay {
            repeater: Repeater::new(alloc, ports, delay)?,
            ports,
        })
    }

    /// A repeater of 2 to 32 ports and a delay of 1 to 200 half bits that goes on with these guards and rests of its
    /// ports. All that it decided so far was Idle.
    pub fn resume(
        alloc: Global,
        delay: u32,
        guards: &[PortGuard],
        rests: &[u32],
    ) -> Result<Relay, OutOfMemory>
        requires two_ports { 2 ≤ length guards.now }
        requires ports_at_most { length guards.now ≤ 32 }
        requires as_many { length rests.now ≡ length guards.now }
        requires some_delay { 1 ≤ delay }
        requires delay_at_most { delay ≤ 200 }
        requires rests { All (λ rest. rest < jabber_rest) rests.now }
        ensures { IfOk result (λ r. r ≡ resumed_state delay guards.now rests.now) }
    {
        Ok(Relay {
            repeater: Repeater::resume(alloc, delay, guards, rests)?,
            ports: guards.len() as u32,
        })
    }

    /// The number of its ports.
    pub fn ports(&self) -> usize
        ensures count { result ≡ length self.now.guards }
        ensures few { result ≤ 32 }
    {
        self.ports as usize
    }

    /// Whether it is in mode Idle.
    pub fn is_idle(&self) -> bool
        ensures { IsTrue result ↔ (self.now.mode ≡ Idle) }
    {
        self.repeater.mode() == Mode::Idle
    }

    /// Its mode.
    pub fn mode(&self) -> Mode
        ensures { result ≡ self.now.mode }
    {
        self.repeater.mode()
    }

    /// The half bits of rest that a port, counted from 0, has left.
    pub fn rest(&self, port: u32) -> u32
        requires { port < length self.now.guards }
        ensures { result ≡ (slice_index_or self.now.counts port (resting_count 0)).rest }
    {
        self.repeater.rest(port)
    }

    /// Puts the guards of its ports at the end of a list.
    pub fn list_guards(&self, guards: &mut GuardList) -> Result<(), OutOfMemory>
        ensures { OnOk result (guards.new ≡ guards.old ++ self.now.guards) }
    {
        for port in 0..self.ports {
            guards.push(*self.repeater.guard(port))?;
        }
        Ok(())
    }

    /// Puts how many half bits each of its ports still rests at the end of a list.
    pub fn list_rests(&self, rests: &mut NumberList) -> Result<(), OutOfMemory>
        ensures { OnOk result (rests.new ≡ rests.old ++ map (λ c. c.rest) self.now.counts) }
    {
        for port in 0..self.ports {
            rests.push(self.repeater.rest(port))?;
        }
        Ok(())
    }

    /// The greatest number up to 4,096 of half bits in which every port hears Idle and nothing happens.
    pub fn calm(&self) -> u64
        ensures { IsCalm self.now result }
    {
        self.repeater.calm()
    }

    /// Goes over so many half bits in which every port hears Idle and nothing happens.
    pub fn leap(&mut self, count: u64)
        requires { IsCalm self.old count }
        ensures state { self.new ≡ iterate silent_step count self.old }
        ensures ports { length self.new.guards ≡ length self.old.guards }
    {
        self.repeater.leap(count);
    }

    /// One half bit, in which its ports hear these symbols: what each emits, what is decided for it, and what happens.
    pub fn step(
        &mut self,
        heard: &[Sym],
        emitted: &mut [Sym],
        decided: &mut [Sym],
    ) -> RepeaterEvents
        requires heard_len { length heard.now ≡ length self.old.guards }
        requires emitted_len { length emitted.old ≡ length self.old.guards }
        requires decided_len { length decided.old ≡ length self.old.guards }
        ensures ports { length self.new.guards ≡ length self.old.guards }
        ensures state { self.new ≡ after heard.now self.old }
        ensures emitted { emitted.new ≡ emitted_by self.old }
        ensures decided { decided.new ≡ decided_by heard.now self.old }
        ensures bodies { told_bodies (length self.new.guards) result ≡ repeater_bodies heard.now self.old }
    {
        self.repeater.step(heard, emitted, decided)
    }
}
