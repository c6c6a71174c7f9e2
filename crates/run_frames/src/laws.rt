//! Laws of the log of a run: calls without a body, whose contracts are the laws.
ghost use Rattle.std.specs.Prelude.{◌≡◌, None};
ghost use Rattle.frame_table.specs.TableLaws.{EndOnce};
ghost use Rattle.frame_table.specs.Unplanned.{first_unplanned};
ghost use Rattle.run_frames.specs.RunLogs.{run_lines, summary_sent, table_sent};

use load_plan::Plan;

/// In the log of the run of a plan no frame of a station ends twice: it is sent, or given up, or cut off by the end of
/// the run, and no two of these.
pub fn frames_end_once(plan: &Plan)
    ensures { EndOnce plan.now.layout (run_lines plan.now) }
{}

/// The log of the run of a plan names nothing that the plan lacks: no device of another name or kind, no frame beyond
/// its station's queue, no port beyond those of its repeater.
pub fn run_logs_are_planned(plan: &Plan)
    ensures { first_unplanned plan.now (run_lines plan.now) ≡ None }
{}

/// In the table of a plan, by the log of its run, the frames of outcome `sent` are as many as the summary of the run
/// has as sent.
pub fn sent_frames_are_counted(plan: &Plan)
    ensures { table_sent plan.now ≡ summary_sent plan.now }
{}
