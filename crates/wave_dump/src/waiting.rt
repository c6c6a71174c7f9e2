//! The runs of taps that are still to be told.
ghost use Rattle.std.specs.Prelude.{◌≡◌, ◌≤◌, ◌<◌, ◌++◌, OnOk, length, map};
ghost use Rattle.std.specs.List.{list_any};
ghost use Rattle.wave_dump.specs.Waiting.{begun_value, begun_values, does_begin, runs_after};

use crate::values::{MOST_TAPS, add_value};
use line_probe::Run;
use lists::{List, OutOfMemory};

/// Whether the first of a tap's runs begins in half bit t.
fn does_begin(runs: &[Run], t: u64) -> bool
    ensures { result ≡ does_begin t runs.now }
{
    match runs.first() {
        Some(run) => run.start == t,
        None => false,
    }
}

/// Whether a run of one of these taps begins in half bit t.
pub fn do_any_begin(waiting: &[&[Run]], t: u64) -> bool
    ensures { result ≡ list_any (does_begin t) (map (λ runs. runs.now) waiting.now) }
{
    for runs in waiting {
        if does_begin(runs, t) {
            return true;
        }
    }
    false
}

/// Puts the value of the tap with this number, from 0, at the end of a text, if the first of its runs begins in half
/// bit t.
fn add_begun(text: &mut List<u8>, k: usize, runs: &[Run], t: u64) -> Result<(), OutOfMemory>
    requires { k < MOST_TAPS }
    ensures { OnOk result (text.new ≡ text.old ++ begun_value t k runs.now) }
{
    if let Some(run) = runs.first() {
        if run.start == t {
            return add_value(text, k, run.symbol);
        }
    }
    Ok(())
}

/// Puts the values of the taps that have a run that begins in half bit t at the end of a text, in the order of the
/// taps.
pub fn add_all_begun(text: &mut List<u8>, waiting: &[&[Run]], t: u64) -> Result<(), OutOfMemory>
    requires { length waiting.now ≤ MOST_TAPS }
    ensures { OnOk result (text.new ≡ text.old ++ begun_values t 0 (map (λ runs. runs.now) waiting.now)) }
{
    'taps: for k in 0..waiting.len() {
        add_begun(text, k, waiting[k], t)?;
    }
    Ok(())
}

/// A tap's runs without the one that begins in half bit t.
fn runs_after(runs: &[Run], t: u64) -> &[Run]
    ensures { result.now ≡ runs_after t runs.now }
{
    match runs.split_first() {
        Some((run, rest)) if run.start == t => rest,
        _ => runs,
    }
}

/// Takes away the runs that begin in half bit t.
pub fn take_begun(waiting: &mut [&[Run]], t: u64)
    ensures { map (λ runs. runs.now) waiting.new ≡ map (runs_after t) (map (λ runs. runs.now) waiting.old) }
{
    'taps: for k in 0..waiting.len() {
        waiting[k] = runs_after(waiting[k], t);
    }
}
