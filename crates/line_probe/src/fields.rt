//! The lines of runs at the front of octets.
ghost use Rattle.std.specs.Prelude.{◌≡◌, ◌<◌, ◌++◌, IfSome, IfNone, length};
ghost use Rattle.text_fields.specs.Reading.{IsReading};
ghost use Rattle.line_probe.specs.ReadBack.{HasNoRunLine, IsToldRun};
ghost use Rattle.line_probe.specs.Reading.{run_at, symbol_at};
ghost use Rattle.line_probe.specs.RunTexts.{line_of_run};

use crate::Run;
use mac_parameters::MOST_HALF_BITS;
use manchester_line::Sym;
use text_fields::{after_word, half_bit};

/// A symbol, by its word after a blank.
#[tactic(auto, unfolding(crate::specs::Reading::symbol_at))]
fn symbol(octets: &[u8]) -> Option<(Sym, &[u8])>
    ensures { IsReading (λ s. (s.0, s.1.now)) result (symbol_at octets.now) }
{
    if let Some(rest) = after_word(b" idle", octets) {
        return Some((Sym::Idle, rest));
    }
    if let Some(rest) = after_word(b" hi", octets) {
        return Some((Sym::Hi, rest));
    }
    if let Some(rest) = after_word(b" lo", octets) {
        return Some((Sym::Lo, rest));
    }
    let rest = after_word(b" clash", octets)?;
    Some((Sym::Clash, rest))
}

/// The run whose line stands in front, and the octets after its line feed.
#[tactic(auto, unfolding(crate::specs::Reading::run_at))]
fn run_at(octets: &[u8]) -> Option<(Run, &[u8])>
    ensures { IsReading (λ r. (r.0, r.1.now)) result (run_at octets.now) }
{
    let (start, rest) = half_bit(MOST_HALF_BITS, b"", octets)?;
    let (count, rest) = half_bit(MOST_HALF_BITS, b" ", rest)?;
    let (symbol, rest) = symbol(rest)?;
    let rest = after_word(b"\n", rest)?;
    if count < 1 {
        return None;
    }
    let run = Run {
        start,
        count,
        symbol,
    };
    Some((run, rest))
}

/// The run whose line stands in front, and the octets after its line feed.
pub fn line_of(octets: &[u8]) -> Option<(Run, &[u8])>
    ensures told { IfSome result (λ r. IsToldRun r.0) }
    ensures text { IfSome result (λ r. octets.now ≡ line_of_run r.0 ++ r.1.now) }
    ensures shorter { IfSome result (λ r. length r.1.now < length octets.now) }
    ensures none { IfNone result (HasNoRunLine octets.now) }
{
    run_at(octets)
}
