//! The form that stops the run of a layout file in a quiet half bit.
ghost use Rattle.std.specs.Prelude.{◌≡◌, OnOk, OnErr, IfErr};
ghost use Rattle.quiet_state.specs.Quiet.{IsQuiet};
ghost use Rattle.quiet_state.specs.Resumed.{state_at};
ghost use Rattle.run_checkpoint.specs.States.{text_of_state};
ghost use Rattle.program_texts.specs.Texts.{name_of_state};
ghost use Rattle.run_endings.specs.Answers.{ending_of};
ghost use Rattle.run_endings.specs.Endings.{HasOnlyFiled, IsFileEnd, IsRunEnd};
ghost use Rattle.program_endings.specs.Endings.{IsStopEnd};
ghost use Rattle.program_endings.specs.StoppedRuns.{IsStopLine, state_files};
ghost use Rattle.run_endings.specs.Writing.{IsBroken, put_file};

use load_plan::Plan;
use net_step::stop_run;
use outside::{Sink, Store};
use program_texts::{NO_QUIET, line_of_stopped, name_of_state};
use quiet_state::NetState;
use run_checkpoint::state_text;
use run_endings::Ending;
use run_forms::{World, Written, read_plan};
use std::alloc::Global;

/// Writes the text of a state.
fn file_state<S: Store, K: Sink>(
    alloc: Global,
    plan: &Plan,
    state: &NetState,
    prefix: &str,
    world: &mut World<S, K>,
) -> Result<(), Ending>
    requires quiet { IsQuiet plan.now state.now.t }
    requires at { state.now ≡ state_at plan.now state.now.t }
    ensures ok { OnOk result (world.new.held ≡ put_file (name_of_state prefix.now) (text_of_state plan.now state.now) world.old.held) }
    ensures err { OnErr result (IsBroken (name_of_state prefix.now) (text_of_state plan.now state.now) world.old.held world.new.held) }
    ensures ended { IfErr result (λ e. IsFileEnd world.old world.new e) }
    ensures only { HasOnlyFiled world.old world.new }
{
    let name = name_of_state(alloc, prefix)?;
    let text = state_text(alloc, plan, state)?;
    world.file(name.as_str(), text.as_slice())
}

/// Writes the state of a prefix, and then the line of its half bit.
fn file_stop<S: Store, K: Sink>(
    alloc: Global,
    plan: &Plan,
    state: &NetState,
    prefix: &str,
    world: &mut World<S, K>,
) -> Result<(), Ending>
    requires quiet { IsQuiet plan.now state.now.t }
    requires at { state.now ≡ state_at plan.now state.now.t }
    ensures { IsRunEnd (state_files prefix.now plan.now state.now.t) (IsStopLine state.now.t)
        world.old world.new (ending_of result) }
{
    let line = line_of_stopped(alloc, state.t)?;
    file_state(alloc, plan, state, prefix, world)?;
    world.tell(line.as_slice())
}

/// Runs the network of a layout file and its loads by half bits to the first quiet one at or after `from`, and writes
/// the state of a prefix and the line of the half bit, or says that there is none.
pub(crate) fn stop<S: Store, K: Sink>(
    alloc: Global,
    layout: &str,
    prefix: &str,
    from: u32,
    world: &mut World<S, K>,
) -> Result<(), Ending>
    ensures { IsStopEnd layout.now prefix.now from world.old world.new (ending_of result) }
{
    let plan = read_plan(alloc, layout, Written::State, prefix, world)?;
    let found = stop_run(alloc, &plan, u64::from(from))?;
    let Some(state) = found else {
        world.say(NO_QUIET.as_bytes());
        return Err(Ending::Unquiet);
    };
    file_stop(alloc, &plan, &state, prefix, world)
}
