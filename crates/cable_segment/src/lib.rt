//! A cable segment: a bus of taps with delays (clause 8). Each tap is told what it emits, and answers what it hears.
#![tactic(auto)]

mod rows;

ghost use Rattle.std.specs.Prelude.{◌≡◌, ◌<◌, ◌≤◌, ◌+◌, length, All, IfOk, ℕ, slice_index};
ghost use Rattle.cable_segment.specs.Bus.{heard_at};
ghost use Rattle.mac_parameters.specs.Distances.{distance};
ghost use Rattle.mac_parameters.specs.Parameters.{greatest_place};
ghost use Rattle.cable_segment.specs.Cable.{silent, told, told_at, advanced, most_ahead, rows_back};

use lists::OutOfMemory;
use mac_parameters::GREATEST_PLACE;
use manchester_line::Sym;
use rows::{heard_in, relist, slide, wake};
use std::alloc::Global;
use std::marker::Model;

/// The rows of the present half bit and of those before it, back to what the farthest tap of the longest cable emitted.
const ROWS_BACK: u32 = GREATEST_PLACE + 1;

/// A segment of cable. It keeps what each tap emitted in the last half bits, as many as a signal takes along the
/// longest cable: a window of rows, one symbol a tap, that slides down a buffer of twice its size, with `ahead` rows of
/// half bits to come before it. `next` skips taps that were silent all the time.
#[derive(Drop)]
pub struct Cable {
    positions: Vec<u32>,
    ahead: u32,
    past: u32,
    start: usize,
    span: usize,
    slots: Vec<Sym>,
    next: Vec<usize>,
}

impl Model for Cable {
    ghost use Rattle.std.specs.Prelude.{◌≡◌, ◌≤◌, ◌<◌, ◌+◌, ◌*◌, length, take, drop, All, ℕ};
    ghost use Rattle.mac_parameters.specs.Parameters.{greatest_place};
    ghost use Rattle.cable_segment.specs.Cable.{CableHistory, most_ahead, rows_back};
    ghost use Rattle.cable_segment.specs.Skips.{Skips};

    ghost Value = { CableHistory };

    ghost view = { λ c. record { positions = c.positions.items; ahead = c.ahead; past = c.past; rows = take c.span (drop c.start c.slots.items) } };

    ghost invariant = { λ c. (0 < length c.positions.items) × (All (λ p. p ≤ greatest_place) c.positions.items) × (c.ahead ≤ most_ahead) × (c.past ≤ greatest_place)
        × (c.span ≡ (c.ahead + rows_back) * length c.positions.items) × (c.start + c.span ≤ length c.slots.items) × (c.span + c.span ≤ length c.slots.items)
        × Skips c.next.items (take c.span (drop c.start c.slots.items)) (length c.positions.items) };
}

impl Cable {
    /// A cable with taps at these places, in half bits from one end, at time 0, where every tap has
    /// emitted Idle. It keeps `ahead` rows of half bits to come.
    pub fn new(alloc: Global, positions: &[u32], ahead: u32) -> Result<Cable, OutOfMemory>
        requires some { 0 < length positions.now }
        requires near { All (λ p. p ≤ greatest_place) positions.now }
        requires window { ahead ≤ most_ahead }
        ensures { IfOk result (λ cable. cable ≡ silent positions.now ahead) }
    {
        let rows = (ahead + ROWS_BACK) as usize;
        let span = rows.checked_mul(positions.len()).ok_or(OutOfMemory)?;
        let room = span.checked_add(span).ok_or(OutOfMemory)?;
        let slots = vec![in alloc; Sym::Idle; room]?;
        let next = vec![in alloc; positions.len(); positions.len() + 1]?;
        Ok(Cable {
            positions: positions.to_vec(alloc)?,
            ahead,
            past: 0,
            start: span,
            span,
            slots,
            next,
        })
    }

    /// The half bits between two taps.
    pub fn distance(&self, p: u32, q: u32) -> u32
        requires p_in { p < length self.now.positions }
        requires q_in { q < length self.now.positions }
        ensures { result ≡ distance (slice_index self.now.positions p) (slice_index self.now.positions q) }
    {
        self.positions[p as usize].abs_diff(self.positions[q as usize])
    }

    /// What a tap hears in the present half bit: what the other taps emitted, each as many half bits ago
    /// as it is away, mixed. A tap doesn't hear itself (profile).
    pub fn heard(&self, tap: u32) -> Sym
        requires { tap < length self.now.positions }
        ensures { result ≡ heard_at (told_at self.now) self.now.positions tap }
    {
        heard_in(
            &self.positions,
            &self.slots[self.start..self.start + self.span],
            self.ahead,
            tap,
            &self.next,
        )
    }

    /// Sets the symbol of a tap in one row.
    fn put(&mut self, row: u32, tap: u32, s: Sym)
        requires in_row { row < self.old.ahead + rows_back }
        requires tap_in { tap < length self.old.positions }
        ensures { self.new ≡ told self.old row tap s }
    {
        let at = self.start + row as usize * self.positions.len() + tap as usize;
        self.slots[at] = s;
        wake(&mut self.next, tap, s);
    }

    /// Tells the tap's symbol in the present half bit.
    pub fn emit(&mut self, tap: u32, s: Sym)
        requires { tap < length self.old.positions }
        ensures { self.new ≡ told self.old self.old.ahead tap s }
    {
        self.put(self.ahead, tap, s);
    }

    /// Goes on to the next half bit.
    pub fn advance(&mut self)
        ensures { self.new ≡ advanced self.old }
    {
        let taps = self.positions.len();
        let before = self.start;
        self.start = slide(&mut self.slots, self.start, self.span, taps);
        self.past = (self.past + 1).min(GREATEST_PLACE);
        relist(
            before < self.start,
            &self.slots[self.start..self.start + self.span],
            taps,
            (self.ahead + ROWS_BACK) as usize,
            &mut self.next,
        );
    }
}
