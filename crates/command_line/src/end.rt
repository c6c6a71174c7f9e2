//! What is said on standard error of a run that ended.

use input_hints::Ended;
use lists::{OutOfMemory, Text};
use outside::OutSink;

/// How a run of these words ended, with a front of what it said on standard output.
pub fn ended_by<'a, R: Print + Drop>(
    help: &'a str,
    words: &'a [Text],
    status: u8,
    out: &'a OutSink<R>,
) -> Ended<'a> {
    Ended {
        help,
        words,
        status,
        said: str::from_utf8(out.said()).unwrap_or(""),
    }
}

/// Says that memory is wanting for anything else.
pub fn tell_no_memory<R: Eprint>(rt: &R) {
    let _ = eprint!(rt; "netsim: there was not enough memory\n");
}

/// Says on standard error what there is to say of a run that ended: without words the forms, else these lines.
pub fn tell<R: Eprint>(rt: &R, ended: &Ended<'_>, hints: Result<String, OutOfMemory>) {
    match hints {
        _ if ended.words.is_empty() => {
            let help = ended.help;
            let _ = eprint!(rt; "{help}");
        }
        Ok(text) => {
            let _ = eprint!(rt; "{text}");
        }
        Err(OutOfMemory) => tell_no_memory(rt),
    }
}
