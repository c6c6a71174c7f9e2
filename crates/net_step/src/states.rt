//! What the devices of a network tell: whether they are quiet, and what they go on from.
ghost use Rattle.std.specs.Prelude.{◌≡◌, false, All, map, flat_map, IfOk, IsTrue, ◌↔◌};
ghost use Rattle.mac_transmit.specs.Resuming.{state_of};
ghost use Rattle.mac_transmit.specs.Sender.{is_sending};
ghost use Rattle.repeater_core.specs.declared.modes.Mode.TheVariants.{Idle};

use crate::relay::Relay;
use lists::OutOfMemory;
use mac_receive::Receiver;
use mac_transmit::{Phase, Transmitter};
use quiet_state::{GuardList, NumberList, SenderList};
use std::alloc::Global;

/// Whether none of these is sending.
pub fn none_sends(senders: &[Transmitter]) -> bool
    ensures { IsTrue result ↔ All (λ s. is_sending s.phase ≡ false) senders.now }
{
    senders
        .iter()
        .all(|sender| !matches!(sender.phase(), Phase::Sending { .. }))
}

/// Whether none of these is deaf or has a reception under way.
pub fn all_still(receivers: &[Receiver]) -> bool
    ensures { IsTrue result ↔ All (λ k. (k.deaf ≡ false) × (k.halves ≡ 0)) receivers.now }
{
    receivers
        .iter()
        .all(|receiver| !receiver.is_deaf() && !receiver.is_receiving())
}

/// Whether each of these is in mode Idle.
pub fn all_idle(relays: &[Relay]) -> bool
    ensures { IsTrue result ↔ All (λ r. r.mode ≡ Idle) relays.now }
{
    relays.iter().all(|relay| relay.is_idle())
}

/// The states of these senders.
pub fn states_of(alloc: Global, senders: &[Transmitter]) -> Result<SenderList, OutOfMemory>
    ensures { IfOk result (λ states. states ≡ map state_of senders.now) }
{
    let mut states = SenderList::new(alloc);
    for sender in senders {
        states.push(sender.state())?;
    }
    Ok(states)
}

/// The guards of the ports of these repeaters.
pub fn guards_of(alloc: Global, relays: &[Relay]) -> Result<GuardList, OutOfMemory>
    ensures { IfOk result (λ guards. guards ≡ flat_map (λ r. r.guards) relays.now) }
{
    let mut guards = GuardList::new(alloc);
    for relay in relays {
        relay.list_guards(&mut guards)?;
    }
    Ok(guards)
}

/// How many half bits each port of these repeaters still rests.
pub fn rests_of(alloc: Global, relays: &[Relay]) -> Result<NumberList, OutOfMemory>
    ensures { IfOk result (λ rests. rests ≡ flat_map (λ r. map (λ c. c.rest) r.counts) relays.now) }
{
    let mut rests = NumberList::new(alloc);
    for relay in relays {
        relay.list_rests(&mut rests)?;
    }
    Ok(rests)
}
