//! What shows how much of a run is done.

use crate::progress::Progress;
use fault_hints::early_warning;
use lists::Text;
use std::env;
use std::io::IsTerminal;
use std::rt::{Clock, Env, Files};

/// Whether it is shown how much of a run is done: on a terminal, and wherever the variable NETSIM_PROGRESS is 1.
fn is_watched<R: Env + AllocGlobal, T: IsTerminal>(rt: &R, errors: &T) -> bool {
    errors.is_terminal() || env::var(rt, "NETSIM_PROGRESS").is_ok_and(|value| value.as_str() == "1")
}

/// What shows on standard error how much of a run is done, and what there is to warn of before these words are run.
pub fn watched<'a, R: Files + Env + Clock + Eprint + AllocGlobal, T: IsTerminal>(
    rt: &'a R,
    errors: &T,
    words: &[Text],
) -> Progress<&'a R> {
    let warning = early_warning(rt, rt.alloc(), words).unwrap_or(None);
    Progress::new(rt, is_watched(rt, errors), warning)
}
