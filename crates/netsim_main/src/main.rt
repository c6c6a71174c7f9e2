//! The program: the words of the command line, over real files and the standard output. Standard error shows the forms
//! where there are no words, what went wrong and how it is mended, and how much of a run is done.
#![tactic(auto)]

use command_line::{ended_by, read_words, tell, tell_no_memory, watched};
use lists::Text;
use log_hints::hints;
use netsim::{Ending, HELP, World, netsim};
use outside::{FolderStore, OutSink};
use std::process::ExitCode;

fn main(rt: HostRuntime) -> ExitCode {
    let Ok(words) = read_words(&rt) else {
        tell_no_memory(&rt);
        return ExitCode::from(Ending::Memory.status());
    };
    let mut world = World {
        store: FolderStore::new(&rt, rt.alloc()),
        out: OutSink::new(&rt, rt.alloc()),
    };
    let progress = watched(&rt, &rt.stderr(), words.as_slice());
    let status = netsim(&rt, rt.alloc(), &words, &mut world, &progress);
    progress.clear();
    tell_end(&rt, words.as_slice(), status, world);
    ExitCode::from(status)
}

/// Says on standard error what there is to say of the run of these words.
fn tell_end<'a>(
    rt: &'a HostRuntime,
    words: &[Text],
    status: u8,
    world: World<FolderStore<&'a HostRuntime>, OutSink<&'a HostRuntime>>,
) {
    let World { mut store, mut out } = world;
    let failure = store.take_failure().or(out.take_failure());
    let ended = ended_by(HELP, words, status, &out);
    let lines = hints(rt, rt.alloc(), &ended, failure.as_ref(), &mut store);
    tell(rt, &ended, lines);
}
