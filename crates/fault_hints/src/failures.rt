//! Which call of the system failed, and why.

use input_hints::show;
use lists::{OutOfMemory, Text};
use outside::{Act, Failure};
use std::io::ErrorKind;

/// The system's reason in plain words, where there are any.
fn reason(act: Act, kind: ErrorKind) -> Option<&'static str> {
    match kind {
        ErrorKind::NotFound if act == Act::Read => Some("there is no such file"),
        ErrorKind::NotFound => Some("its folder isn't there"),
        ErrorKind::PermissionDenied => Some("there is no permission"),
        ErrorKind::IsADirectory => Some("it is a folder"),
        ErrorKind::NotADirectory => Some("a part of its path is no folder"),
        ErrorKind::StorageFull => Some("no space is left"),
        ErrorKind::QuotaExceeded => Some("the quota of space is used up"),
        ErrorKind::ReadOnlyFilesystem => Some("its file system is read-only"),
        ErrorKind::FileTooLarge => Some("it would be too large"),
        ErrorKind::InvalidFilename => Some("its name is too long"),
        ErrorKind::BrokenPipe => Some("nobody reads it"),
        ErrorKind::NotSeekable => Some("a pipe or a terminal is read only once"),
        _ => None,
    }
}

fn tell_reason(out: &mut String, failure: &Failure) -> Result<(), OutOfMemory> {
    let Some(error) = failure.error else {
        out.push_str(": the system took nothing of it")?;
        return Ok(());
    };
    match reason(failure.act, error.kind()) {
        Some(reason) => write!(out, ": {reason}")?,
        None => write!(out, ": {error}")?,
    }
    Ok(())
}

fn is_not_found(failure: &Failure) -> bool {
    failure
        .error
        .is_some_and(|error| error.kind() == ErrorKind::NotFound)
}

/// How a folder is made that isn't there.
fn tell_folder(out: &mut String, failure: &Failure) -> Result<(), OutOfMemory> {
    if let Some(name) = &failure.name {
        if let Some((folder, _)) = name.as_str().rsplit_once('/') {
            if failure.act == Act::Write && is_not_found(failure) {
                out.push_str(": mkdir -p ")?;
                show(out, folder)?;
                out.push_str(" makes it")?;
            }
        }
    }
    Ok(())
}

/// Whether a load is missing: a file that is read and isn't there, and that no word names.
fn is_load(words: &[Text], failure: &Failure) -> bool {
    match &failure.name {
        Some(name) if failure.act == Act::Read && is_not_found(failure) => {
            let name = name.as_str();
            !name.ends_with(".state") && !words.iter().any(|word| word.as_str() == name)
        }
        _ => false,
    }
}

/// Whether `-` was to be read, which is a file's name like any other.
fn is_dash(failure: &Failure) -> bool {
    match &failure.name {
        Some(name) => failure.act == Act::Read && is_not_found(failure) && name.as_str() == "-",
        None => false,
    }
}

/// Tells which call failed, and why.
pub fn tell_failure(
    out: &mut String,
    words: &[Text],
    failure: &Failure,
) -> Result<(), OutOfMemory> {
    if is_dash(failure) {
        out.push_str("netsim: '-' is no name for standard input: use /dev/stdin\n")?;
        return Ok(());
    }
    out.push_str("netsim: ")?;
    match &failure.name {
        Some(name) => show(out, name.as_str())?,
        None if failure.act == Act::Say => out.push_str("standard output")?,
        None => out.push_str("a file")?,
    }
    match failure.act {
        Act::Read => out.push_str(" can't be read")?,
        _ => out.push_str(" can't be written")?,
    }
    tell_reason(out, failure)?;
    tell_folder(out, failure)?;
    if is_load(words, failure) {
        out.push_str("; the path of a load is taken from the folder in which netsim runs")?;
    }
    out.push_str("\n")?;
    Ok(())
}
