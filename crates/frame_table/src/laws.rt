//! Laws of tables: calls without a body, whose contracts are the laws.
ghost use Rattle.std.specs.Prelude.{List};
ghost use Rattle.load_plan.specs.declared.plan.Plan.{Plan};
ghost use Rattle.log_meter.specs.declared.line.LogLine.{LogLine};
ghost use Rattle.frame_table.specs.TableLaws.{HaveOneTable, SentFramesAreRows};

/// A plan and a log have a table, and only one.
pub fn one_table()
    ensures { (plan : Plan) (lines : List LogLine) → HaveOneTable plan lines }
{}

/// Where no frame ends twice, the table has as many frames of outcome `sent` as the log has rows `sent`.
pub fn sent_frames_are_rows()
    ensures { SentFramesAreRows }
{}
