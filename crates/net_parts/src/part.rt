//! A part of the network.
ghost use Rattle.std.specs.Prelude.{◌≡◌, ℕ, Bool, true, false, ◌+◌, ◌<◌, OnOk};
ghost use Rattle.load_plan.specs.declared.plan.Plan.{Plan};
ghost use Rattle.net_parts.specs.Parts.{PartState, part_at, edges_of_part, parts};
ghost use Rattle.net_parts.specs.Windows.{windows};
ghost use Rattle.net_parts.specs.Parcels.{arrived, refilled};

use crate::parcel::Parcel;
use collision_log::Rows;
use lists::OutOfMemory;
use network::Captures;

/// A segment with its stations, or a repeater, that goes on a window at a time.
pub trait Part: Send + Drop {
    /// The plan that it was made from.
    ghost plan: { Self → Plan };

    /// Its number, from 0: segments come before repeaters.
    ghost number: { Self → ℕ };

    /// Its present window, from 0.
    ghost at: { Self → ℕ };

    /// There is room for a window.
    ghost reserved: { Self → Bool };

    /// What it keeps stands for this state.
    ghost keeps: { Self → PartState → Type 0 };

    /// Its number, from 0: segments come before repeaters.
    fn part(&self) -> u32
        ensures { result ≡ number self.now };

    /// Its present window, from 0.
    fn window(&self) -> u64
        ensures { result ≡ at self.now };

    /// How many windows the run has.
    fn windows(&self) -> u64
        ensures { result ≡ windows (plan self.now) };

    /// Its edges, ascending.
    fn edges(&self) -> &[u32]
        ensures { result.now ≡ edges_of_part (plan self.now) (number self.now) };

    /// Takes the memory that a window needs. Nothing changes but the room, whether there is memory or not.
    fn reserve_window(&mut self) -> Result<(), OutOfMemory>
        ensures plan { plan self.new ≡ plan self.old }
        ensures number { number self.new ≡ number self.old }
        ensures at { at self.new ≡ at self.old }
        ensures room { OnOk result (reserved self.new ≡ true) };

    /// Makes its present window. The parcels are those of its edges, in their order, unspoiled, with the window's stamp
    /// and the network's symbols; it refills, turns and stamps them. It takes no memory.
    fn run_window(&mut self, parcels: &mut [Parcel])
        requires room { reserved self.old ≡ true }
        requires window { at self.old < windows (plan self.old) }
        requires parcels { parcels.old ≡ arrived (plan self.old) (number self.old) (at self.old) }
        ensures plan { plan self.new ≡ plan self.old }
        ensures number { number self.new ≡ number self.old }
        ensures at { at self.new ≡ at self.old + 1 }
        ensures room { reserved self.new ≡ false }
        ensures parcels { parcels.new ≡ refilled (plan self.old) (number self.old) (at self.old) };

    /// It is one of the plan's parts.
    ghost within: { (s : Self) → number s < parts (plan s) };

    /// It always stands at its window's time.
    ghost stands: { (s : Self) → keeps s (part_at (plan s) (number s) (at s)) };
}

/// What a part hands out when it has made all windows: its rows, and what each of its stations captured.
#[derive(Drop)]
pub struct PartOutputs {
    pub part: u32,
    pub rows: Rows,
    pub captures: Captures,
}
