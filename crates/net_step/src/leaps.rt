//! Half bits in which nothing happens at the devices of a network, many at once.
ghost use Rattle.std.specs.Prelude.{◌≡◌, ◌<◌, ◌≤◌, ◌+◌, ℕ, false, All, IsTrue, ◌↔◌, length, map, replicate, slice_index_or};
ghost use Rattle.std.specs.Fn.{iterate};
ghost use Rattle.mac_parameters.specs.Parameters.{most_half_bits};
ghost use Rattle.manchester_line.specs.declared.Sym.TheVariants.{Idle};
ghost use Rattle.mac_receive.specs.KeptReceiver.{KeptReception, Hears};
ghost use Rattle.mac_receive.specs.Receiver.{Receiving, receiver_after};
ghost use Rattle.mac_transmit.specs.Calm.{after_all};
ghost use Rattle.mac_transmit.specs.Sender.{Sender, is_sending as is_sending_in};
ghost use Rattle.repeater_core.specs.Calm.{IsCalm, silent_step};
ghost use Rattle.net_step.specs.CalmNets.{WaitsFor};

use crate::relay::Relay;
use mac_receive::Receiver;
use mac_transmit::{Phase, Transmitter};

/// Whether none of these has a reception under way.
pub fn none_receives(receivers: &[Receiver]) -> bool
    ensures { IsTrue result ↔ All (λ k. k.halves ≡ 0) receivers.now }
{
    receivers.iter().all(|receiver| !receiver.is_receiving())
}

/// Whether a sending is under way.
fn is_sending(sender: &Transmitter) -> bool
    ensures { result ≡ is_sending_in sender.now.phase }
{
    match sender.phase() {
        Phase::Sending { .. } => true,
        _ => false,
    }
}

/// For how many half bits from `t` on, at most `most`, none of these sends or begins to, where all of them hear Idle;
/// 0 says nothing.
pub fn calm_senders(t: u64, senders: &[Transmitter], most: u64) -> u64
    requires times { All (λ s. s.t ≡ t) senders.now }
    requires in_time { t < most_half_bits }
    ensures within { result ≤ most }
    ensures calm { 0 < result → All (WaitsFor result) senders.now }
{
    let mut calm = most;
    for sender in senders {
        if is_sending(sender) {
            return 0;
        }
        calm = calm.min(sender.calm(t, false));
    }
    calm
}

/// For how many half bits, at most `most`, nothing happens at any of these, where all their ports hear Idle.
pub fn calm_relays(relays: &[Relay], most: u64) -> u64
    ensures within { result ≤ most }
    ensures calm { All (λ r. IsCalm r result) relays.now }
{
    let mut calm = most;
    for relay in relays {
        calm = calm.min(relay.calm());
    }
    calm
}

/// So many half bits from `t` on of senders to which nothing happens in them.
pub fn leap_senders(t: u64, count: u64, senders: &mut [Transmitter])
    requires times { All (λ s. s.t ≡ t) senders.old }
    requires in_time { t + count ≤ most_half_bits }
    requires calm { All (WaitsFor count) senders.old }
    ensures states { senders.new ≡ map (λ s. after_all s (replicate count Idle)) senders.old }
    ensures times { All (λ s. s.t ≡ t + count) senders.new }
{
    for sender in senders.iter_mut() {
        sender.leap(t, count, false);
    }
}

/// So many half bits from `t` on of receivers that have no reception under way and hear Idle.
pub fn leap_receivers(t: u64, count: u64, receivers: &mut [Receiver])
    requires steps { All (λ r. r.steps ≡ t) receivers.old }
    requires in_time { t + count ≤ most_half_bits }
    requires rest { All (λ k. k.halves ≡ 0) receivers.old }
    ensures states { (i : ℕ) (d : KeptReception) (r : Receiving) → i < length receivers.new → Hears r (slice_index_or receivers.old i d) →
        Hears (receiver_after r (replicate count Idle) false) (slice_index_or receivers.new i d) }
    ensures steps { All (λ r. r.steps ≡ t + count) receivers.new }
{
    for receiver in receivers.iter_mut() {
        receiver.leap_quiet(count);
    }
}

/// So many half bits of repeaters at which nothing happens in them.
pub fn leap_relays(count: u64, relays: &mut [Relay])
    requires { All (λ r. IsCalm r count) relays.old }
    ensures states { relays.new ≡ map (iterate silent_step count) relays.old }
    ensures ports { map (λ r. length r.guards) relays.new ≡ map (λ r. length r.guards) relays.old }
{
    for relay in relays.iter_mut() {
        relay.leap(count);
    }
}
