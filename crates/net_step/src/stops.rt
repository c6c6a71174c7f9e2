//! Runs that stop in a quiet half bit and go on later.
ghost use Rattle.std.specs.Prelude.{◌≡◌, IfOk, IfSome, None};
ghost use Rattle.net_step.specs.Stops.{IsFirstQuiet, HasNoQuiet};
ghost use Rattle.quiet_state.specs.PlanStates.{IsResumable};
ghost use Rattle.quiet_state.specs.Resumed.{state_at, rows_from, captures_from};

use crate::plain::PlainNet;
use lists::OutOfMemory;
use load_plan::Plan;
use network::Outputs;
use quiet_state::NetState;
use std::alloc::Global;

/// Runs a plan up to its first quiet half bit at or after half bit `from`, counted from 0: the state then, and none
/// where no such half bit of the run is quiet.
#[tactic(auto, using(network::proofs::RunnablePlans::runnable_plan))]
pub fn stop_run(alloc: Global, plan: &Plan, from: u64) -> Result<Option<NetState>, OutOfMemory>
    ensures stopped { IfOk result (λ found. IfSome found (λ s. IsFirstQuiet plan.now from s.t × (s ≡ state_at plan.now s.t))) }
    ensures never { IfOk result (λ found. found ≡ None → HasNoQuiet plan.now from) }
{
    let half_bits = plan.layout.half_bits();
    let begin = from.min(half_bits);
    let mut whole = PlainNet::new(alloc, plan)?;
    whole.go_to(begin)?;
    for _t in begin..half_bits {
        if whole.quiet() {
            return Ok(Some(whole.state()?));
        }
        whole.step()?;
    }
    Ok(None)
}

/// Goes on with a run from a state to its end. The rows and captures begin with those of the state.
#[tactic(auto, unfolding(quiet_state::specs::Resumed::rows_from, quiet_state::specs::Resumed::captures_from), using(network::proofs::RunnablePlans::runnable_plan))]
pub fn resume_run(alloc: Global, plan: &Plan, state: NetState) -> Result<Outputs, OutOfMemory>
    requires { IsResumable plan.now state }
    ensures rows { IfOk result (λ outputs. outputs.rows ≡ rows_from plan.now state) }
    ensures captures { IfOk result (λ outputs. outputs.captures ≡ captures_from plan.now state) }
{
    let half_bits = plan.layout.half_bits();
    PlainNet::resume(alloc, plan, state)?.finish(half_bits)
}
