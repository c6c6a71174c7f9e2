//! The form that goes on with a run that stopped in a quiet half bit.
ghost use Rattle.std.specs.Prelude.{◌≡◌, IfOk, IfErr, OnOk};
ghost use Rattle.layout.specs.Sound.{IsSound};
ghost use Rattle.quiet_state.specs.PlanStates.{IsResumable};
ghost use Rattle.run_checkpoint.specs.States.{IsStateOfPlan};
ghost use Rattle.run_endings.specs.Answers.{ending_of};
ghost use Rattle.program_endings.specs.CheckpointFiles.{HasState};
ghost use Rattle.run_endings.specs.Endings.{HasOnlyRead, IsRunEnd};
ghost use Rattle.program_endings.specs.Endings.{IsResumeEnd, IsUnstated};
ghost use Rattle.program_endings.specs.StoppedRuns.{IsResumedSummary, resumed_files};

use load_plan::Plan;
use net_step::resume_run;
use outside::{Sink, Store};
use program_texts::name_of_state;
use quiet_state::NetState;
use resumed_runs::laws::{resumed_captures_are_short, resumed_frames_are_left};
use run_checkpoint::{MOST_STATE_OCTETS, StateFault, read_state, state_fault_text};
use run_endings::Ending;
use run_forms::{World, Written, file_run, read_plan};
use std::alloc::Global;

/// Reads the state of a plan's run from a file, or says why there is none.
fn load_state<S: Store, K: Sink>(
    alloc: Global,
    plan: &Plan,
    name: &str,
    world: &mut World<S, K>,
) -> Result<NetState, Ending>
    ensures state { IfOk result (λ state. HasState plan.now name.now world.old.held state) }
    ensures resumable { IfOk result (λ state. IsResumable plan.now state) }
    ensures of_plan { IfOk result (λ state. IsStateOfPlan plan.now state) }
    ensures read { OnOk result (HasOnlyRead world.old world.new) }
    ensures unstated { IfErr result (λ e. IsUnstated plan.now name.now world.old world.new e) }
    ensures held { world.new.held ≡ world.old.held }
{
    let octets = world.read_or_say(alloc, name, MOST_STATE_OCTETS)?;
    match read_state(alloc, plan, octets.as_slice()) {
        Ok(state) => Ok(state),
        Err(StateFault::OutOfMemory) => Err(Ending::Memory),
        Err(fault) => {
            let line = state_fault_text(alloc, &fault)?;
            world.say(line.as_slice());
            Err(Ending::State)
        }
    }
}

/// Goes on with a plan's run from a state, writes the files of a prefix, and says the summary.
fn go_on<S: Store, K: Sink>(
    alloc: Global,
    plan: &Plan,
    state: NetState,
    prefix: &str,
    world: &mut World<S, K>,
) -> Result<(), Ending>
    requires sound { IsSound plan.now.layout }
    requires resumable { IsResumable plan.now state }
    requires of_plan { IsStateOfPlan plan.now state }
    ensures { IsRunEnd (resumed_files prefix.now plan.now state) (IsResumedSummary plan.now state)
        world.old world.new (ending_of result) }
{
    resumed_frames_are_left(plan, &state);
    resumed_captures_are_short(plan, &state);
    let outputs = resume_run(alloc, plan, state)?;
    file_run(alloc, plan, &outputs, prefix, world)
}

/// Goes on with the run of a layout file and its loads from the state of a prefix, writes the files of the prefix, and
/// says the summary of the whole run.
pub(crate) fn resume<S: Store, K: Sink>(
    alloc: Global,
    layout: &str,
    prefix: &str,
    world: &mut World<S, K>,
) -> Result<(), Ending>
    ensures { IsResumeEnd layout.now prefix.now world.old world.new (ending_of result) }
{
    let plan = read_plan(alloc, layout, Written::Run, prefix, world)?;
    let name = name_of_state(alloc, prefix)?;
    let state = load_state(alloc, &plan, name.as_str(), world)?;
    go_on(alloc, &plan, state, prefix, world)
}
