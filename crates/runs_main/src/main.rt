//! The smaller program: the forms `check` and `plain`, the help, the version, and words of no form. With these it does
//! what the whole program does, and says the same.
#![tactic(auto)]

use command_line::{ended_by, read_words, tell, tell_no_memory, watched};
use fault_hints::hints;
use lists::Text;
use outside::{FolderStore, OutSink};
use run_forms::{Ending, HELP, World, run_netsim};
use std::process::ExitCode;

fn main(rt: HostRuntime) -> ExitCode {
    let Ok(words) = read_words(&rt) else {
        tell_no_memory(&rt);
        return ExitCode::from(Ending::Memory.status());
    };
    let mut world = World {
        store: FolderStore::new(&rt, rt.alloc()),
        out: OutSink::new(&rt, rt.alloc()),
    };
    let progress = watched(&rt, &rt.stderr(), words.as_slice());
    let Some(status) = run_netsim(rt.alloc(), &words, &mut world, &progress) else {
        let _ = eprint!(rt; "netsim: this program has the forms check and plain alone\n");
        return ExitCode::from(Ending::Words.status());
    };
    progress.clear();
    tell_end(&rt, words.as_slice(), status, world);
    ExitCode::from(status)
}

/// Says on standard error what there is to say of the run of these words.
fn tell_end<'a>(
    rt: &'a HostRuntime,
    words: &[Text],
    status: u8,
    world: World<FolderStore<&'a HostRuntime>, OutSink<&'a HostRuntime>>,
) {
    let World { mut store, mut out } = world;
    let failure = store.take_failure().or(out.take_failure());
    let ended = ended_by(HELP, words, status, &out);
    let lines = hints(rt, rt.alloc(), &ended, failure.as_ref(), &mut store);
    tell(rt, &ended, lines);
}
