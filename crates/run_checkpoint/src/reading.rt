//! The state whose text this is.
ghost use Rattle.std.specs.Prelude.{◌≡◌, ◌<◌, ◌≤◌, ◌↔◌, ℕ, Ok, Err, IfOk, length};
ghost use Rattle.quiet_state.specs.PlanStates.{IsResumable};
ghost use Rattle.quiet_state.specs.Quiet.{IsQuiet};
ghost use Rattle.quiet_state.specs.Resumed.{state_at};
ghost use Rattle.quiet_state.specs.declared.state.NetState.{NetState};
ghost use Rattle.run_checkpoint.specs.Judging.{IsJudgement, IsTextOfState, judged_lines, judged_state, most_state_octets};
ghost use Rattle.run_checkpoint.specs.States.{text_of_state};
ghost use Rattle.run_checkpoint.specs.TextLines.{text_lines};
ghost use Rattle.run_checkpoint.specs.declared.fault.StateFault.TheVariants.{TooLarge};

use crate::StateFault;
use crate::entries_read::judged_entries;
use crate::places::all_ports;
use crate::states_read::{judged_guards, judged_senders, judged_time};
use crate::text_line::line_in_front;
use load_plan::Plan;
use quiet_state::NetState;
use std::alloc::Global;

/// The most octets that the text of a state may have.
pub const MOST_STATE_OCTETS: usize = 268_435_456;

/// The state of this plan that octets which aren't too many tell, or their first fault.
fn state_read(alloc: Global, plan: &Plan, octets: &[u8]) -> Result<NetState, StateFault>
    requires { length octets.now ≤ most_state_octets }
    ensures { IsJudgement (judged_lines plan.now (text_lines octets.now)) result }
{
    let Some((line, rest)) = line_in_front(octets) else {
        return Err(StateFault::BadLine { line: 1 });
    };
    let t = judged_time(plan.layout.half_bits(), line)?;
    let stations = plan.layout.stations.as_slice();
    let (senders, rest) = judged_senders(alloc, stations, plan.queues.as_slice(), rest)?;
    let ports = all_ports(alloc, &plan.layout)?;
    let named = ports.as_slice();
    let first_port = stations.len() as u32 + 2;
    let (guards, rests, rest) = judged_guards(alloc, named, first_port, rest)?;
    let first_row = first_port + named.len() as u32;
    match judged_entries(alloc, plan, t, senders.as_slice(), first_row, rest) {
        Ok((rows, captures)) => Ok(NetState {
            t,
            senders,
            guards,
            rests,
            rows,
            captures,
        }),
        Err(fault) => Err(fault),
    }
}

/// The state of this plan whose text the octets are, at most 268,435,456 of them, or the text's first fault.
pub fn read_state(alloc: Global, plan: &Plan, bytes: &[u8]) -> Result<NetState, StateFault>
    ensures judged { IsJudgement (judged_state plan.now bytes.now) result }
    ensures too_large { (result ≡ Err TooLarge) ↔ (most_state_octets < length bytes.now) }
    ensures state { IfOk result (λ s. IsTextOfState plan.now s bytes.now) }
    ensures states { (s : NetState) → IsTextOfState plan.now s bytes.now → length bytes.now ≤ most_state_octets →
        IsJudgement (Ok s) result }
    ensures quiet { (t : ℕ) → IsQuiet plan.now t → bytes.now ≡ text_of_state plan.now (state_at plan.now t) →
        length bytes.now ≤ most_state_octets → IsJudgement (Ok (state_at plan.now t)) result }
    ensures resumable { IfOk result (λ s. IsResumable plan.now s) }
{
    if bytes.len() > MOST_STATE_OCTETS {
        return Err(StateFault::TooLarge);
    }
    state_read(alloc, plan, bytes)
}
