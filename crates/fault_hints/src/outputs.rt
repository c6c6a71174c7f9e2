//! What is wrong with the names of files that are to be written.

use input_hints::{Ended, show, word_at};
use lists::OutOfMemory;

/// Tells of a file to be written that has the name of the layout or of a load.
pub fn tell_output(out: &mut String, ended: &Ended<'_>) -> Result<(), OutOfMemory> {
    let name = ended
        .said
        .strip_prefix("output fault ")
        .and_then(|rest| rest.strip_suffix("\n"));
    let layout = word_at(ended.words, 1);
    out.push_str("netsim: ")?;
    match name {
        Some(name) if name == layout => {
            show(out, name)?;
            out.push_str(" is the layout")?;
        }
        Some(name) => {
            show(out, name)?;
            out.push_str(" is a load of the layout")?;
        }
        None => out.push_str("a file is the layout or a load of it")?,
    }
    out.push_str(" and would be written over: give another PREFIX\n")?;
    Ok(())
}
