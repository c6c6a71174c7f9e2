//! The words that the program was called with.

use lists::{OutOfMemory, Text};
use program_words::Words;
use std::rt::Env;
use std::{env, io};

/// The words after the program's name. A word that is no text makes them none, which is no form of words.
pub fn read_words<R: Env + AllocGlobal>(rt: &R) -> Result<Words, OutOfMemory> {
    let alloc = rt.alloc();
    let mut words = Words::new(alloc);
    match env::args(rt) {
        Ok(args) => {
            for arg in args.skip(1) {
                words.push(Text::new(alloc, arg.as_str())?)?;
            }
            Ok(words)
        }
        Err(error) if error.kind() == io::ErrorKind::OutOfMemory => Err(OutOfMemory),
        Err(_) => Ok(words),
    }
}
