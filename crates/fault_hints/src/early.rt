//! What is told of a run before it begins.

use crate::failures::tell_failure;
use input_hints::word_at;
use lists::{OutOfMemory, Text};
use outside::{Act, Failure};
use std::alloc::Global;
use std::fs::OpenOptions;
use std::rt::Files;
use std::{fs, io};

/// The folder in which a file of a name lies.
fn folder_of(name: &str) -> &str {
    match name.rsplit_once('/') {
        Some(("", _)) => "/",
        Some((folder, _)) => folder,
        None => ".",
    }
}

/// Why a file can't be written, as far as nothing is changed to find it out: whether a new file may be put into its
/// folder isn't known.
fn refusal<R: Files>(rt: &R, name: &str) -> Option<io::Error> {
    match fs::metadata(rt, name) {
        Ok(found) if found.is_dir() => Some(io::Error::from(io::ErrorKind::IsADirectory)),
        Ok(found) if found.is_file() => OpenOptions::new().append(true).open(rt, name).err(),
        Ok(_) => None,
        Err(_) => match fs::metadata(rt, folder_of(name)) {
            Ok(folder) if folder.is_dir() => None,
            Ok(_) => Some(io::Error::from(io::ErrorKind::NotADirectory)),
            Err(error) => Some(error),
        },
    }
}

/// What to warn of before a run: that its log can't be written when it ends.
pub fn early_warning<R: Files>(
    rt: &R,
    alloc: Global,
    words: &[Text],
) -> Result<Option<String>, OutOfMemory> {
    if !matches!(word_at(words, 0), "plain" | "run") {
        return Ok(None);
    }
    let prefix = word_at(words, 2);
    let name = format!(in alloc; "{prefix}.log")?;
    let Some(error) = refusal(rt, name.as_str()) else {
        return Ok(None);
    };
    let failure = Failure {
        act: Act::Write,
        name: Some(Text::new(alloc, name.as_str())?),
        error: Some(error),
    };
    let mut out = String::new(alloc);
    tell_failure(&mut out, words, &failure)?;
    out.push_str("netsim: the run goes on, and its files are written when it ends\n")?;
    Ok(Some(out))
}
