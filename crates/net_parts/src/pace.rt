//! The pace of a run.
ghost use Rattle.std.specs.Prelude.{◌≡◌};
ghost use Rattle.load_plan.specs.declared.plan.Plan.{Plan};
ghost use Rattle.net_parts.specs.Windows.{lookahead as lookahead_of, windows as windows_of};

use crate::timing::{count_windows, lookahead};
use load_plan::Plan;
use std::snapshot::Snapshot;

/// The half bits of a window of a plan's run, and how many windows that has: they are the same for all parts, and
/// reckoned once.
#[derive(Drop)]
pub struct Pace {
    pub plan: Snapshot<Plan>,
    pub lookahead: u32,
    pub windows: u64,
    ghost window_length: { lookahead ≡ lookahead_of plan.value.layout },
    ghost window_count: { windows ≡ windows_of plan.value },
}

impl Pace {
    /// The pace of a plan's run.
    pub fn of(plan: &Plan) -> Pace
        ensures { result.plan.value ≡ plan.now }
    {
        let lookahead = lookahead(&plan.layout);
        let windows = count_windows(plan, lookahead);
        Pace {
            plan: Snapshot::of(plan),
            lookahead,
            windows,
        }
    }
}
