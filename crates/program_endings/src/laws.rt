//! What each status says beyond the clauses of the top call: laws of every answer, each a call without a body.
ghost use Rattle.run_endings.specs.LoggedCollisions.{AreRunCollisionsDetected};
ghost use Rattle.program_endings.specs.LogLaws.{IsEmptyLogRefused, IsInfixRefused, IsLateHitRefused};
ghost use Rattle.program_endings.specs.MeterLaws.{AreLogFaultsSaid, AreMetersComplete, AreMetersCutShort, AreMetersRefused, DoAbsentLogsDecide, DoLogFaultsDecide, DoMetersKeepFiles};
ghost use Rattle.program_endings.specs.OutputLaws.{AreInputsKept, AreOutputFaultsSaid, DoOutputFaultsDecide};
ghost use Rattle.program_endings.specs.FrameLaws.{AreTablesComplete, AreTablesCutShort, AreTablesRefused, DoTabledAbsentLogsDecide, DoTabledLogFaultsDecide, DoTablesKeepFiles, DoUnplannedDecide};
ghost use Rattle.program_endings.specs.PictureLaws.{ArePicturesComplete, ArePicturesCutShort, ArePicturesRefused, AreStrangersSaid, DoPicturedAbsentLogsDecide, DoPicturedLogFaultsDecide, DoPicturesKeepFiles, DoStrangersDecide};
ghost use Rattle.program_endings.specs.ProbeLaws.{AreMissesSaid, AreProbesComplete, AreProbesCutShort, AreProbesRefused, DoMissesDecide, DoProbedAbsentLoadsDecide, DoProbedLoadFaultsDecide, DoProbesKeepFiles};
ghost use Rattle.program_endings.specs.StopLaws.{AreStateFaultsSaid, AreStopFilesWhole, AreStoppedRunsWhole, AreStopsBroken, AreStopsComplete, AreStopsRefused, AreStopsSilent, AreUnquietSaid, DoAbsentStatesDecide, DoStateFaultsDecide, DoUnquietDecide};
ghost use Rattle.program_endings.specs.SoundInputs.{AreAnswersReliable};
ghost use Rattle.program_endings.specs.StatusLaws.{AreDemosComplete, AreDemosCutShort, AreDemosRefused, AreFailuresSilent, AreFilesWhole, AreLayoutFaultsSaid, AreLoadFaultsSaid, AreReadFaultsSaid, AreTellingsComplete, AreTellingsCutShort, AreTellingsRefused, AreTextsComplete, AreTextsCutShort, AreTextsFailed, AreWordsSaid, DoAbsentLayoutsDecide, DoAbsentLoadsDecide, DoDemosKeepFiles, DoLayoutFaultsDecide, DoLoadFaultsDecide, DoTellingsKeepFiles, DoTextsKeepFiles, HaveDemosStatuses, AreSmallerAnswers};

/// What the smaller program answers is an answer of this one, so all that is proved of these holds of it, too.
pub fn smaller_answers()
    ensures { AreSmallerAnswers }
{}

/// Words of no form have their line on the sink, or a front of it where the sink refuses.
pub fn words_are_said()
    ensures { AreWordsSaid }
{}

/// Status 2 comes exactly of a layout with a fault, but for a failed read and want of memory, and its line is on the
/// sink.
pub fn layout_faults_decide()
    ensures said { AreLayoutFaultsSaid }
    ensures only { DoLayoutFaultsDecide }
{}

/// Status 12 comes exactly of a layout without fault where a file to be written has its name or that of a load, but for
/// a failed read and want of memory, and the first such name is on the sink.
pub fn output_faults_decide()
    ensures said { AreOutputFaultsSaid }
    ensures only { DoOutputFaultsDecide }
{}

/// Whatever the status of a form that writes files, the layout, if it has no fault, and its loads are as at entry.
pub fn inputs_are_kept()
    ensures { AreInputsKept }
{}

/// Status 3 comes exactly of a load that is the first with a fault where no file to be written has the name of an input,
/// but for a failed read and want of memory, and its line is on the sink.
pub fn load_faults_decide()
    ensures said { AreLoadFaultsSaid }
    ensures only { DoLoadFaultsDecide }
{}

/// Status 4 comes of a file to be read that isn't held, where no file to be written has the name of an input, but for
/// want of memory, and else only of a failed read; its name is on the sink.
pub fn absent_files_decide()
    ensures said { AreReadFaultsSaid }
    ensures layout { DoAbsentLayoutsDecide }
    ensures load { DoAbsentLoadsDecide }
{}

/// With status 5 of a run all its files are whole where no write to the store failed, and the sink is as at entry where
/// no write to it did.
pub fn failed_runs_are_told()
    ensures whole { AreFilesWhole }
    ensures silent { AreFailuresSilent }
{}

/// A form that only tells of a layout, `check` or `slack`, leaves a front of its text on the sink with status 5 or 6,
/// and every file as at entry; with 5 a write to the sink failed. One that nothing hinders has the status 0 or 6.
pub fn layouts_are_told()
    ensures failed { AreTellingsCutShort }
    ensures refused { AreTellingsRefused }
    ensures held { DoTellingsKeepFiles }
    ensures complete { AreTellingsComplete }
{}

/// `demo` has the status 0, 5 or 6; where it isn't done it leaves a front of its text on the sink; with 5 a write to
/// the sink failed, and without such a failure the status is 0 or 6. It leaves every file as at entry.
pub fn demos_are_told()
    ensures statuses { HaveDemosStatuses }
    ensures failed { AreDemosCutShort }
    ensures refused { AreDemosRefused }
    ensures held { DoDemosKeepFiles }
    ensures complete { AreDemosComplete }
{}

/// Status 7 comes exactly of a probe of a layout without fault that hasn't one of the taps, or else ends before the
/// probe does, but for a failed read and want of memory, and its line is on the sink.
pub fn misses_decide()
    ensures said { AreMissesSaid }
    ensures only { DoMissesDecide }
{}

/// The statuses 3 and 4 of a probe that finds what it aims at come of its loads as those of a run do.
pub fn probed_loads_decide()
    ensures fault { DoProbedLoadFaultsDecide }
    ensures absent { DoProbedAbsentLoadsDecide }
{}

/// `probe`, `waves` and `page` leave a front of their text on the sink with status 5 or 6, and every file as at entry;
/// with 5 a write to the sink failed. One that nothing hinders has the status 0 or 6.
pub fn probes_are_told()
    ensures failed { AreProbesCutShort }
    ensures refused { AreProbesRefused }
    ensures held { DoProbesKeepFiles }
    ensures complete { AreProbesComplete }
{}

/// Status 8 comes exactly of a log with a fault, but for a failed read and want of memory, and its line is on the sink;
/// status 4 of `meter` comes of a log that isn't held, but for want of memory.
pub fn log_faults_decide()
    ensures said { AreLogFaultsSaid }
    ensures only { DoLogFaultsDecide }
    ensures absent { DoAbsentLogsDecide }
{}

/// `meter` leaves a front of its text on the sink with status 5 or 6, and every file as at entry; with 5 a write to the
/// sink failed. One that nothing hinders has the status 0 or 6.
pub fn meters_are_told()
    ensures failed { AreMetersCutShort }
    ensures refused { AreMetersRefused }
    ensures held { DoMetersKeepFiles }
    ensures complete { AreMetersComplete }
{}

/// Status 11 comes exactly of a picture of a layout and a log without fault where a line of the log names what the
/// layout lacks, and of a table of a layout, loads and a log without fault where a line names what their plan lacks, but
/// for a failed read and want of memory, and the first such line is on the sink.
pub fn strangers_decide()
    ensures said { AreStrangersSaid }
    ensures only { DoStrangersDecide }
    ensures unplanned { DoUnplannedDecide }
{}

/// Statuses 8 and 4 of a picture whose layout has no fault come of its log as those of `meter` do.
pub fn pictured_logs_decide()
    ensures fault { DoPicturedLogFaultsDecide }
    ensures absent { DoPicturedAbsentLogsDecide }
{}

/// `picture` leaves a front of its text on the sink with status 5 or 6, and every file as at entry; with 5 a write to
/// the sink failed. One that nothing hinders has the status 0 or 6.
pub fn pictures_are_told()
    ensures failed { ArePicturesCutShort }
    ensures refused { ArePicturesRefused }
    ensures held { DoPicturesKeepFiles }
    ensures complete { ArePicturesComplete }
{}

/// Statuses 8 and 4 of a table whose layout and loads have no fault come of its log as those of `meter` do.
pub fn tabled_logs_decide()
    ensures fault { DoTabledLogFaultsDecide }
    ensures absent { DoTabledAbsentLogsDecide }
{}

/// `frames` leaves a front of its table on the sink with status 5 or 6, and every file as at entry; with 5 a write to
/// the sink failed. One that nothing hinders has the status 0 or 6.
pub fn tables_are_told()
    ensures failed { AreTablesCutShort }
    ensures refused { AreTablesRefused }
    ensures held { DoTablesKeepFiles }
    ensures complete { AreTablesComplete }
{}

/// Status 9 comes exactly of a stop of a layout and loads without fault, the name of none of which is that of the state,
/// whose run has no quiet half bit at or after FROM, but for a failed read and want of memory, and that is on the sink.
pub fn unquiet_runs_decide()
    ensures said { AreUnquietSaid }
    ensures only { DoUnquietDecide }
{}

/// Status 10 comes exactly of a resume of a layout and loads without fault, the name of none of which is that of a file
/// to be written, whose state has a fault, but for a failed read and want of memory, and its line is on the sink; status
/// 4 then comes of a state that isn't held, but for want of memory.
pub fn state_faults_decide()
    ensures said { AreStateFaultsSaid }
    ensures only { DoStateFaultsDecide }
    ensures absent { DoAbsentStatesDecide }
{}

/// With status 5 or 6 of `stop` or `resume`, of its files those before one are whole, that one is as it was or a front
/// of its text, later ones are as at entry, and the sink got nothing; or all are whole, and the sink got a front of its
/// text. With 5 all files are whole where no write to the store failed, and the sink is as at entry where no write to
/// it did. One that nothing hinders has the status 0 or 6.
pub fn stops_are_told()
    ensures failed { AreStopsBroken }
    ensures refused { AreStopsRefused }
    ensures silent { AreStopsSilent }
    ensures whole { AreStopFilesWhole }
    ensures complete { AreStopsComplete }
{}

/// `stop`, and then `resume` from what it left, both done and with the same layout and loads, leave what `plain`
/// leaves.
pub fn stopped_runs_are_whole()
    ensures { AreStoppedRunsWhole }
{}

/// A form with a fixed text leaves a front of it on the sink where it isn't done, and every file as at entry; with 5 a
/// write to the sink failed. One that nothing hinders has the status 0 or 6.
pub fn texts_are_told()
    ensures failed { AreTextsFailed }
    ensures cut { AreTextsCutShort }
    ensures held { DoTextsKeepFiles }
    ensures complete { AreTextsComplete }
{}

/// Where no read or write failed, the words are a form, what it reads is held without a fault, and no file to be written
/// has the name of an input, the status is 0 or 6; or it is 7, 9 or 11, and a tap or the half bits of a probe, a quiet
/// half bit, or what a line of a log names isn't there.
pub fn answers_are_reliable()
    ensures { AreAnswersReliable }
{}

/// Where a layout is within, of two attempts of different stations that overlap over an open path each that ends within
/// the run has a row, with a hit before the 512th bit, and its line is a whole line of the run's log.
pub fn run_collisions_are_detected()
    ensures { AreRunCollisionsDetected }
{}

/// Where there are such attempts, no log meets the clause `detected` that is empty, or has a late hit alone, or has a
/// row's line that is no whole line.
pub fn logs_that_tell_nothing()
    ensures empty { IsEmptyLogRefused }
    ensures late { IsLateHitRefused }
    ensures inner { IsInfixRefused }
{}
