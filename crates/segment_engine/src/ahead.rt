//! What stations emit in the half bits ahead, if nothing happens to them.
ghost use Rattle.std.specs.Prelude.{◌≡◌, ◌≤◌, ◌<◌, ◌+◌, ◌^◌, ℕ, true, length};
ghost use Rattle.mac_parameters.specs.Parameters.{most_half_bits};
ghost use Rattle.manchester_line.specs.Line.{is_signal as is_signal_of};
ghost use Rattle.mac_transmit.specs.Emissions.{IsSendingFor, emission_by};
ghost use Rattle.mac_transmit.specs.Sender.{symbol_of, is_sending as is_sending_in};
ghost use Rattle.net_parts.specs.Machines.{span};
ghost use Rattle.segment_engine.specs.SteadyPieces.{sent_ahead};
ghost use Rattle.tap_lines.specs.TapLines.{line_extended};

use crate::quiet::is_sending;
use crate::sendings::write_ahead;
use mac_transmit::{Phase, Transmitter};
use manchester_line::Sym;
use tap_lines::Line;

/// Puts the symbols of a sending from position `p` on behind a line's, as long as they are a signal and at most so
/// many. It answers how many, and writes them at the front of a piece first.
fn send_ahead(
    octets: &[u8],
    hit: Option<u32>,
    p: u64,
    count: u32,
    line: &mut Line,
    piece: &mut [Sym],
) -> u32
    requires length { length octets.now ≤ 1600 }
    requires place { p + count < 2 ^ 32 }
    requires room { count ≤ line.old.room }
    requires piece { count ≤ length piece.old }
    ensures within { result ≤ count }
    ensures line { line.new ≡ line_extended line.old (span (λ j. symbol_of octets.now hit (p + j)) 0 result) }
    ensures signal { (j : ℕ) → j < result → is_signal_of (symbol_of octets.now hit (p + j)) ≡ true }
{
    let part = &mut piece[..count as usize];
    let told = write_ahead(octets, hit, p, part);
    line.extend(&part[..told]);
    told as u32
}

/// Puts on a station's line what its sending has for the half bits from `t` on, as long as that is a signal and at most
/// so many. It answers how many.
fn send_on(t: u64, count: u32, sender: &Transmitter, line: &mut Line, piece: &mut [Sym]) -> u32
    requires time { t ≡ sender.now.t }
    requires in_time { t + count ≤ most_half_bits }
    requires room { count ≤ line.old.room }
    requires piece { count ≤ length piece.old }
    ensures within { result ≤ count }
    ensures line { line.new ≡ line_extended line.old (sent_ahead sender.now result) }
    ensures signal { (j : ℕ) → j < result → is_signal_of (emission_by sender.now j sender.now.phase) ≡ true }
{
    let Phase::Sending { start, hit } = sender.phase() else {
        return 0;
    };
    if t < start || count == 0 {
        return 0;
    }
    let Some(frame) = sender.frame() else {
        return 0;
    };
    let left = count.min(sender.calm(t, false) as u32);
    send_ahead(frame.octets(), hit, t - start, left, line, piece)
}

/// Puts on a station's line what it emits in the half bits from `t` on, at most so many and no further than the end of
/// its sending, if nothing happens to its sender. It answers for how many.
pub fn go_on_ahead(
    t: u64,
    count: u32,
    sender: &Transmitter,
    line: &mut Line,
    piece: &mut [Sym],
) -> u32
    requires time { t ≡ sender.now.t }
    requires in_time { t + count ≤ most_half_bits }
    requires room { count ≤ line.old.room }
    requires piece { count ≤ length piece.old }
    ensures within { result ≤ count }
    ensures line { line.new ≡ line_extended line.old (sent_ahead sender.now result) }
    ensures signal { (j : ℕ) → j < result → is_signal_of (emission_by sender.now j sender.now.phase) ≡ is_sending_in sender.now.phase }
    ensures lasts { is_sending_in sender.now.phase ≡ true → IsSendingFor sender.now result sender.now.phase }
{
    if !is_sending(sender) || count == 0 {
        line.rest(count as usize);
        return count;
    }
    let most = sender.calm(t, false).min(u64::from(count)) as u32;
    send_on(t, most, sender, line, piece)
}
