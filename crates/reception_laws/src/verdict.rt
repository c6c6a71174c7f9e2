//! The verdict of a text, for all receivers that hear it whole.
ghost use Rattle.std.specs.Prelude.{◌≡◌, ◌<◌, ◌≤◌, ℕ, false, List, Some, length};
ghost use Rattle.manchester_line.specs.declared.Sym.{Sym};
ghost use Rattle.mac_parameters.specs.Parameters.{IsMost, most_half_bits};
ghost use Rattle.collision_log.specs.declared.row.Body.TheVariants.{Received};
ghost use Rattle.mac_receive.specs.KeptReceiver.{Hears};
ghost use Rattle.mac_receive.specs.Receiver.{Receiving, receiver_after};
ghost use Rattle.reception_laws.specs.LateReceptions.{IsVerdictFor};
ghost use Rattle.reception_laws.specs.WholeReceptions.{AwaitsReception, IsAllSignal, row_alone, spoiled_row, verdict_of_text};

use collision_log::{Body, Why};
use mac_parameters::SHORTEST_LINE_TEXT;
use mac_receive::Receiver;
use manchester_line::Sym;
use std::marker::Model;

/// What becomes of a reception: the row that is written of it, and the octets of a frame that is received.
#[derive(Drop)]
pub struct ReceptionVerdict {
    event: Option<Body>,
    receiver: Receiver,
}

impl Model for ReceptionVerdict {
    ghost use Rattle.mac_receive.specs.KeptReceiver.{kept_octets};
    ghost use Rattle.reception_laws.specs.LateReceptions.{IsVerdictFor};
    ghost use Rattle.reception_laws.specs.WholeReceptions.{TextVerdict, octets_with};

    ghost Value = { TextVerdict };

    ghost view = { λ s. record {
      event = s.event;
      octets = octets_with s.event (kept_octets s.receiver);
    } };
}

impl ReceptionVerdict {
    /// The row that is written of the reception: Received or Dropped, and none of an empty text.
    pub fn event(&self) -> Option<Body>
        ensures { result ≡ self.now.event }
    {
        self.event
    }

    /// The octets of a frame that is received, with its check sequence, and none of anything else.
    pub fn octets(&self) -> &[u8]
        ensures { result.now ≡ self.now.octets }
    {
        match self.event {
            Some(Body::Received { .. }) => self.receiver.octets(),
            _ => &[],
        }
    }
}

/// A receiver that awaited a reception and then heard this text, one symbol a half bit, without sending. It
/// loses the first `lose` bits of each reception, at most 48 (profile), and takes frames of at most `most`
/// octets before the check sequence, 1,514 or 1,518 (3.2.7).
pub fn hear(lose: u32, most: u32, text: &[Sym]) -> Receiver
    requires lose { lose ≤ 48 }
    requires most { IsMost most }
    requires signal { IsAllSignal text.now }
    requires few { length text.now ≤ most_half_bits }
    ensures hears { (r : Receiving) → AwaitsReception r → r.lose ≡ lose → r.most ≡ most →
        Hears (receiver_after r text.now false) result }
    ensures steps { result.steps ≡ length text.now }
{
    let mut receiver = Receiver::new_for(lose, most);
    receiver.take(text);
    receiver
}

/// The verdict of a text, one symbol a half bit, for receivers that lose the first `lose` bits of each
/// reception, at most 48 (profile), and take frames of at most `most` octets before the check sequence, 1,514
/// or 1,518 (3.2.7). It takes no memory.
pub fn tell(lose: u32, most: u32, text: &[Sym]) -> ReceptionVerdict
    requires lose { lose ≤ 48 }
    requires most { IsMost most }
    requires signal { IsAllSignal text.now }
    requires few { length text.now < most_half_bits }
    ensures told { result ≡ verdict_of_text lose most text.now }
    ensures count { (n : ℕ) → result.event ≡ Some (Received n) → length result.octets ≡ n }
    ensures each { IsVerdictFor lose most text.now result }
{
    let mut receiver = hear(lose, most, text);
    let event = receiver.step(Sym::Idle, false);
    ReceptionVerdict { event, receiver }
}

/// The row of a reception of so many half bits that a Clash spoiled: a fragment below the shortest line text,
/// 1,152 half bits, and else damaged (profile).
pub fn spoiled(halves: u32) -> Body
    ensures { result ≡ spoiled_row halves }
{
    let why = if halves < SHORTEST_LINE_TEXT {
        Why::Fragment
    } else {
        Why::Damaged
    };
    Body::Dropped { why, halves }
}

/// The verdict of a reception of so many half bits that a Clash spoiled, for receivers that lose no bits of it. It
/// takes no memory.
pub fn tell_spoiled(most: u32, halves: u32) -> ReceptionVerdict
    requires most { IsMost most }
    ensures { result ≡ row_alone (spoiled_row halves) }
{
    ReceptionVerdict {
        event: Some(spoiled(halves)),
        receiver: Receiver::new_for(0, most),
    }
}
