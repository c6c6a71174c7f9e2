//! The top call.
ghost use Rattle.std.specs.Prelude.{◌≡◌, ◌⊎◌, ◌↔◌, None, Some};
ghost use Rattle.outside.specs.Files.{Rose};
ghost use Rattle.run_endings.specs.LoggedCollisions.{AreCollisionsLogged};
ghost use Rattle.program_endings.specs.Answers.{IsAnswer, IsEnd, IsEndOf};
ghost use Rattle.run_endings.specs.Answers.{ending_of};
ghost use Rattle.program_words.specs.Requests.{HasNumbersInRange, asked, asked_of};
ghost use Rattle.run_endings.specs.Done.{IfFiles};
ghost use Rattle.program_endings.specs.Statuses.{IsDone, IsDoneOrMemory, IsRefusal, IsRunBroken, IsRunRefused, IsUnhindered};

use crate::demos::demo;
use crate::frames::frames;
use crate::meter::meter;
use crate::picture::picture;
use crate::probe::probe;
use crate::resumes::resume;
use crate::runs::run;
use crate::slack::slack;
use crate::stops::stop;
use outside::{Gate, Sink, Store};
use program_texts::{HELP, VERSION, WORDS_FAULT};
use program_words::{Request, Words, read_words};
use run_endings::Ending;
use run_forms::{World, check, plain};
use std::alloc::Global;
use std::sync::Wait;
use std::thread::Threads;

/// Does what is asked for.
fn serve<X: Threads + Wait + Sync, S: Store, K: Sink, G: Gate>(
    rt: &X,
    alloc: Global,
    request: Request<'_>,
    world: &mut World<S, K>,
    gate: &G,
) -> Result<(), Ending>
    requires { HasNumbersInRange request }
    ensures { IsEndOf (Some (asked_of request.entry)) world.old world.new (ending_of result) }
{
    match request {
        Request::Check { layout } => check(alloc, layout, world),
        Request::Slack { layout } => slack(alloc, layout, world),
        Request::Plain { layout, prefix } => plain(alloc, layout, prefix, gate, world),
        Request::Run {
            layout,
            prefix,
            workers,
        } => run(rt, alloc, layout, prefix, workers, gate, world),
        Request::Stop {
            layout,
            prefix,
            from,
        } => stop(alloc, layout, prefix, from, world),
        Request::Resume { layout, prefix } => resume(alloc, layout, prefix, world),
        Request::Demo { number, workers } => demo(rt, alloc, number, workers, gate, world),
        Request::Probe {
            report,
            layout,
            from,
            to,
            taps,
        } => probe(alloc, report, layout, from, to, taps, world),
        Request::Meter { log } => meter(alloc, log, world),
        Request::Picture {
            layout,
            log,
            from,
            to,
        } => picture(alloc, layout, log, from, to, world),
        Request::Frames { layout, log } => frames(alloc, layout, log, world),
        Request::Help => world.tell(HELP.as_bytes()),
        Request::Version => world.tell(VERSION.as_bytes()),
    }
}

/// Does what the words ask for. The forms `run` and `demo` may wait for other workers. The others are done by calls
/// that take no runtime, and so return; words of no form too.
pub fn run_words<X: Threads + Wait + Sync, S: Store, K: Sink, G: Gate>(
    rt: &X,
    alloc: Global,
    words: &Words,
    world: &mut World<S, K>,
    gate: &G,
) -> Ending
    ensures { IsEnd words.now world.old world.new result }
{
    let Some(request) = read_words(words) else {
        world.say(WORDS_FAULT.as_bytes());
        return Ending::Words;
    };
    Ending::of(serve(rt, alloc, request, world, gate))
}

/// The top call: does what the words ask for, and answers the program's status.
///
/// `check LAYOUT` writes the path verdict of the layout to the sink, and `slack LAYOUT` that and how far each gap
/// between neighbouring taps and each repeater's delay can grow. `plain LAYOUT PREFIX` runs the network of the layout
/// with its loads on one thread, writes PREFIX.log, PREFIX.counters and a capture PREFIX.STATION.pcap for each station,
/// and then the summary to the sink. `run LAYOUT PREFIX WORKERS` does the same on 1 to 64 workers. `stop LAYOUT PREFIX
/// FROM` runs it by half bits to its first quiet half bit at or after FROM and writes the state there to PREFIX.state,
/// and `resume LAYOUT PREFIX` goes on from that state and does as `plain`. `demo NUMBER WORKERS` runs the layout of
/// demo of 1 to 128 on workers, and writes its size and the summary to the sink. `probe LAYOUT FROM TO TAP ..` runs
/// the network by half bits and writes to the sink what 1 to 16 taps hear from half bit FROM on and before TO, as runs
/// of one symbol and bursts, and `waves LAYOUT FROM TO TAP ..` the same as a value change dump. `page LAYOUT FROM TO`
/// writes what all taps emit in those half bits, and the rows that meet them, as an HTML page. `meter LOG` writes the
/// figures of a log to the sink, `picture LAYOUT LOG FROM TO` what the log tells of the half bits from FROM on and
/// before TO as a picture, and `frames LAYOUT LOG` what became by the log of each frame that the stations of the layout
/// have to send, with its loads, as a table. `--help` and `--version` write a fixed text to the sink. LAYOUT, PREFIX and
/// LOG have 1 to 200 octets, and a TAP 1 to 40; PREFIX doesn't end in a slash; FROM is below TO, which is at most
/// 2,000,000,000 and at most 1,000,000 more, and the FROM of `stop` is at most 2,000,000,000. The statuses are 0 for
/// done, 1 for words of no form, 2 for a layout with a fault, 3 for a load with a fault, 4 for a file that can't be
/// read, 5 for a failed write, 6 for want of memory, which alone is free, 7 for a tap that the layout hasn't or a TO
/// past the run, 8 for a log with a fault, 9 for a run without a quiet half bit from FROM on, 10 for a state with a
/// fault, 11 for a log that names what the layout lacks, or for `frames` a frame that no station has to send, and 12 for
/// a file to be written that has the name of LAYOUT or of a load. The forms `run` and `demo` may wait.
pub fn netsim<X: Threads + Wait + Sync, S: Store, K: Sink, G: Gate>(
    rt: &X,
    alloc: Global,
    words: &Words,
    world: &mut World<S, K>,
    gate: &G,
) -> u8
    // The status is that of an ending which the words allow between entry and exit. Module `laws` says what else each
    // tells.
    ensures ended { IsAnswer words.now world.old world.new result }

    // Status 1 exactly where the words are none of the forms.
    ensures words { (result ≡ 1) ↔ (asked words.now ≡ None) }

    // Status 0 only where what the words ask for is done, as the record of their form says: of a run, on any number of
    // workers, the store holds its files, by the layout and the loads held at entry, and the sink got the summary; of a
    // form that tells, the sink got its text; nothing else is changed.
    ensures done { result ≡ 0 → IsDone (asked words.now) world.old world.new }

    // Of `plain` and `run`, where the sink got the verdict within: of two attempts of different stations that overlap
    // over an open path each that ends within the run has a whole line in PREFIX.log as the store holds it, with a hit
    // before the 512th bit.
    ensures detected { result ≡ 0 → IfFiles (asked words.now) (λ layout prefix.
        AreCollisionsLogged layout prefix world.old world.new) }

    // With the statuses 1 to 4 and 7 to 12 every file is as at entry.
    ensures refused { IsRefusal result → world.new.held ≡ world.old.held }

    // Status 5 only where a write to the store or to the sink failed.
    ensures failed { result ≡ 5
        → Rose world.old.writes world.new.writes ⊎ Rose world.old.faults world.new.faults }

    // After a failed write the files of `plain` or `run` before one of them are whole, that one is as it was or a front
    // of its text, later ones are as at entry, and the sink got nothing; or all are whole, and the sink got a front of
    // the summary.
    ensures broken { result ≡ 5 → IfFiles (asked words.now) (λ layout prefix.
        IsRunBroken layout prefix world.old world.new) }

    // So too where memory was wanting, or nothing was begun.
    ensures memory { result ≡ 6 → IfFiles (asked words.now) (λ layout prefix.
        IsRunRefused layout prefix world.old world.new) }

    // Complete: for `plain` and `run` a layout and loads that are held without fault, none of whose names is that of a
    // file to be written, and no count that rose, give status 0 or 6.
    ensures complete { IsUnhindered words.now world.old world.new → IsDoneOrMemory result }
{
    run_words(rt, alloc, words, world, gate).status()
}
