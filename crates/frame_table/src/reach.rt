//! Which stations a frame reached that was sent.
ghost use Rattle.std.specs.Prelude.{◌≡◌, ◌+◌, ℕ, List, IfOk, length};
ghost use Rattle.std.specs.List.{list_all};
ghost use Rattle.layout.specs.Paths.{Path};
ghost use Rattle.layout.specs.declared.lines.Layout.{Layout};
ghost use Rattle.log_meter.specs.declared.line.LogLine.{LogLine};
ghost use Rattle.frame_table.specs.Reached.{reach_among, reach_of, was_sent};
ghost use Rattle.frame_table.specs.Told.{AreKnown, AreOrdered, is_entered_by, is_reached_by, with_station};

use crate::history::{End, Outcome};
use crate::ports::is_open;
use crate::receptions::has_received;
use crate::routes::{Led, WayIn};
use crate::told::ToldByLog;
use lists::OutOfMemory;

/// How many stations a frame reached, and how many it missed.
#[derive(Clone, Copy)]
pub struct Reach {
    pub reached: u64,
    pub missed: u64,
}

/// A sum that passes 64 bits is answered as want of memory.
fn sum(a: u64, b: u64) -> Result<u64, OutOfMemory>
    ensures { IfOk result (λ sum. sum ≡ a + b) }
{
    a.checked_add(b).ok_or(OutOfMemory)
}

/// Whether a port is open when the end of a frame comes to it that ended in half bit `t` where the way began.
fn is_entered(told: &ToldByLog, t: u64, entry: &WayIn) -> Result<bool, OutOfMemory>
    requires { AreOrdered told.now }
    ensures { IfOk result (λ yes. yes ≡ is_entered_by told.now t entry.now) }
{
    let at = sum(t, u64::from(entry.at))?;
    Ok(is_open(at, told.changes(entry.repeater, entry.port)))
}

/// Whether all these ports are.
fn are_entered(told: &ToldByLog, t: u64, entries: &[WayIn]) -> Result<bool, OutOfMemory>
    requires { AreOrdered told.now }
    ensures { IfOk result (λ yes. yes ≡ list_all (is_entered_by told.now t) entries.now) }
{
    for entry in entries {
        if !is_entered(told, t, entry)? {
            return Ok(false);
        }
    }
    Ok(true)
}

/// Whether a frame of so many octets that ended in half bit `t` reached station `b` by this way.
fn is_reached(
    told: &ToldByLog,
    octets: u32,
    t: u64,
    b: usize,
    route: &Led,
) -> Result<bool, OutOfMemory>
    requires { AreOrdered told.now }
    ensures { IfOk result (λ yes. yes ≡ is_reached_by told.now octets t b route.now) }
{
    let at = sum(t, u64::from(route.length))?;
    if !has_received(told.receptions(b), at, octets) {
        return Ok(false);
    }
    are_entered(told, t, route.entries.as_slice())
}

/// One more station: it was reached or, if the frame's end came to it within the run, missed.
fn with_station(
    told: &ToldByLog,
    half_bits: u64,
    octets: u32,
    t: u64,
    b: usize,
    route: &Led,
    before: Reach,
) -> Result<Reach, OutOfMemory>
    requires { AreOrdered told.now }
    ensures { IfOk result (λ reach. reach ≡ with_station told.now half_bits octets t b route.now before) }
{
    let mut reach = before;
    if is_reached(told, octets, t, b, route)? {
        reach.reached = sum(before.reached, 1)?;
        return Ok(reach);
    }
    if sum(t, u64::from(route.length))? < half_bits {
        reach.missed = sum(before.missed, 1)?;
    }
    Ok(reach)
}

/// How many other stations a frame of station `a` reached and missed, by the ways from there.
fn reach_among(
    told: &ToldByLog,
    half_bits: u64,
    octets: u32,
    t: u64,
    a: usize,
    routes: &[Option<Led>],
) -> Result<Reach, OutOfMemory>
    requires { AreOrdered told.now }
    ensures { IfOk result (λ reach. (l : Layout) (lines : List LogLine) (paths : ℕ → ℕ → Path) → AreKnown l lines paths told.now a routes.now →
        reach ≡ reach_among half_bits l paths lines octets t a (length routes.now)) }
{
    let mut reach = Reach {
        reached: 0,
        missed: 0,
    };
    for b in 0..routes.len() {
        if b == a {
            continue;
        }
        let Some(route) = &routes[b] else {
            return Err(OutOfMemory);
        };
        reach = with_station(told, half_bits, octets, t, b, route, reach)?;
    }
    Ok(reach)
}

/// Whether a frame was sent.
fn was_sent(outcome: Outcome) -> bool
    ensures { result ≡ was_sent outcome }
{
    matches!(outcome, Outcome::Sent)
}

/// Whom a frame of station `a` reached and missed, by its end.
pub fn reach_of(
    told: &ToldByLog,
    half_bits: u64,
    octets: u32,
    a: usize,
    routes: &[Option<Led>],
    end: Option<End>,
) -> Result<Option<Reach>, OutOfMemory>
    requires { AreOrdered told.now }
    ensures { IfOk result (λ reach. (l : Layout) (lines : List LogLine) (paths : ℕ → ℕ → Path) → AreKnown l lines paths told.now a routes.now →
        reach ≡ reach_of half_bits l paths lines octets a end) }
{
    let Some(end) = end else {
        return Ok(None);
    };
    if !was_sent(end.outcome) {
        return Ok(None);
    }
    Ok(Some(reach_among(told, half_bits, octets, end.t, a, routes)?))
}
