//! A part in memory for tests. Where it has no edges it makes its windows; where it has some, its room is always
//! refused.
ghost use Rattle.std.specs.Prelude.{◌≡◌, ◌<◌, ◌+◌, IfOk, [], true};
ghost use Rattle.net_parts.specs.Parts.{edges_of_part, parts};
ghost use Rattle.net_parts.specs.Windows.{windows};

use lists::{List, OutOfMemory};
use load_plan::Plan;
use net_parts::{Parcel, Part, edges_of, windows};
use std::alloc::Global;
use std::snapshot::Snapshot;

#[derive(Drop)]
pub struct FakePart {
    plan: Snapshot<Plan>,
    number: u32,
    window: u64,
    last: u64,
    room: bool,
    edges: List<u32>,
    ghost within: { number < parts plan.value },
    ghost edges_are: { edges ≡ edges_of_part plan.value number },
    ghost alone: { room ≡ true → edges ≡ [] },
    ghost count: { last ≡ windows plan.value },
}

impl FakePart {
    pub fn new(alloc: Global, plan: &Plan, number: u32) -> Result<FakePart, OutOfMemory>
        requires { number < parts plan.now }
        ensures plan { IfOk result (λ part. part.plan.value ≡ plan.now) }
        ensures number { IfOk result (λ part. part.number ≡ number) }
        ensures window { IfOk result (λ part. part.window ≡ 0) }
    {
        Ok(FakePart {
            plan: Snapshot::of(plan),
            number,
            window: 0,
            last: windows(plan),
            room: false,
            edges: edges_of(alloc, plan, number)?,
        })
    }
}

impl Part for FakePart {
    ghost use Rattle.std.specs.Prelude.{◌≡◌};

    ghost plan = { λ s. s.plan.value };

    ghost number = { λ s. s.number };

    ghost at = { λ s. s.window };

    ghost reserved = { λ s. s.room };

    ghost keeps = { λ s state. s.number ≡ s.number };

    fn part(&self) -> u32 {
        self.number
    }

    fn window(&self) -> u64 {
        self.window
    }

    fn windows(&self) -> u64 {
        self.last
    }

    fn edges(&self) -> &[u32] {
        self.edges.as_slice()
    }

    fn reserve_window(&mut self) -> Result<(), OutOfMemory> {
        if self.edges.len() != 0 {
            return Err(OutOfMemory);
        }
        self.room = true;
        Ok(())
    }

    fn run_window(&mut self, parcels: &mut [Parcel]) {
        let _ = parcels;
        self.window += 1;
        self.room = false;
    }

    ghost within = { λ s. s.within };

    ghost stands = { λ s i. s.number };
}
