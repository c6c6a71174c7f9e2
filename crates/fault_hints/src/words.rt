//! What is wrong with words that are none of the forms. The forms are those of the help: `netsim FORM WORDS`, two
//! blanks, and what it does.

use input_hints::{Nearest, are_digits, show_word};
use layout::MOST_REPEATERS;
use lists::{OutOfMemory, Text};
use mac_parameters::MOST_HALF_BITS;
use std::alloc::Global;

/// The most octets of a file's name or of a prefix, and of a tap; the most taps.
const MOST_NAME: usize = 200;

const MOST_TAP_WORD: usize = 40;

const MOST_TAPS: usize = 16;

/// The most half bits from FROM to TO.
const MOST_PROBED: u32 = 1_000_000;

fn form_in(line: &str) -> Option<&str> {
    let (form, _) = line.strip_prefix("netsim ")?.split_once("  ")?;
    Some(form)
}

fn first_word(form: &str) -> &str {
    form.split_whitespace().next().unwrap_or("")
}

/// The form of the help that begins with a word.
fn form_of<'a>(help: &'a str, first: &str) -> Option<&'a str> {
    for line in help.lines() {
        if let Some(form) = form_in(line) {
            if first_word(form) == first {
                return Some(form);
            }
        }
    }
    None
}

/// What is meant by a word that begins no form.
fn meant<'a>(alloc: Global, help: &'a str, first: &'a str) -> Result<Option<&'a str>, OutOfMemory> {
    match first {
        "-h" | "-help" | "help" | "-?" => return Ok(Some("--help")),
        "-v" | "-V" | "-version" | "version" => return Ok(Some("--version")),
        _ => {}
    }
    let mut nearest = Nearest::new(alloc, first);
    for line in help.lines() {
        if let Some(form) = form_in(line) {
            nearest.take(first_word(form))?;
        }
    }
    Ok(nearest.found())
}

/// What stands for a name of the help's forms.
fn what_is(name: &str) -> &'static str {
    match name {
        "LAYOUT" => "a layout file",
        "LOG" => "the log of a run",
        "PREFIX" => "what the names of its files begin with",
        "WORKERS" => "1 to 64",
        "NUMBER" => "1 to 128",
        "FROM" => "a half bit, from 0",
        "TO" => "a half bit after FROM",
        "TAP" => "STATION or REPEATER:PORT",
        _ => "see the help",
    }
}

/// The least and the most of a name that stands for a number.
fn range_of(name: &str) -> Option<(u32, u32)> {
    match name {
        "WORKERS" => Some((1, 64)),
        "NUMBER" => Some((1, MOST_REPEATERS as u32)),
        "FROM" | "TO" => Some((0, MOST_HALF_BITS as u32)),
        _ => None,
    }
}

/// Whether a word is a time with its unit.
fn is_time(word: &str) -> bool {
    for unit in ["ns", "us", "ms", "s"] {
        if let Some(number) = word.strip_suffix(unit) {
            if are_digits(number.trim_end()) {
                return true;
            }
        }
    }
    false
}

/// The sentence's beginning: the form and the name of the word.
fn begin(out: &mut String, form: &str, name: &str) -> Result<(), OutOfMemory> {
    let form = first_word(form);
    write!(out, "netsim: {form}: {name}")?;
    Ok(())
}

fn begin_word(out: &mut String, form: &str, name: &str, word: &str) -> Result<(), OutOfMemory> {
    begin(out, form, name)?;
    out.push_str(" ")?;
    show_word(out, word)
}

/// What is wrong with a number, where anything is.
fn number_fault(word: &str, name: &str, least: u32, most: u32) -> Option<&'static str> {
    let is_half_bit = name == "FROM" || name == "TO";
    if are_digits(word) {
        if word.starts_with('0') && word.len() > 1 {
            return Some(" has a leading zero");
        }
        return match word.parse::<u32>() {
            Ok(number) if least <= number && number <= most => None,
            _ => Some(" is out of its range"),
        };
    }
    if are_digits(word.trim()) {
        return Some(" has a blank");
    }
    for sign in ["+", "-"] {
        if word.strip_prefix(sign).is_some_and(are_digits) {
            return Some(" has a sign");
        }
    }
    if !is_half_bit {
        Some(" is no whole number")
    } else if is_time(word) {
        Some(" is no whole number of half bits (1 us is 20)")
    } else {
        Some(" is no whole number of half bits")
    }
}

fn tell_number(out: &mut String, form: &str, name: &str, word: &str) -> Result<bool, OutOfMemory> {
    let Some((least, most)) = range_of(name) else {
        return Ok(false);
    };
    let Some(fault) = number_fault(word, name, least, most) else {
        return Ok(false);
    };
    begin_word(out, form, name, word)?;
    out.push_str(fault)?;
    if fault.ends_with(')') {
        out.push_str("\n")?;
    } else {
        write!(out, " ({least} to {most})\n")?;
    }
    Ok(true)
}

/// Tells what is wrong with one word of a form, and whether anything is.
fn tell_word(out: &mut String, form: &str, name: &str, word: &str) -> Result<bool, OutOfMemory> {
    let most = if name == "TAP" {
        MOST_TAP_WORD
    } else {
        MOST_NAME
    };
    if word.is_empty() {
        begin(out, form, name)?;
        let what = what_is(name);
        write!(out, " is empty ({what})\n")?;
        Ok(true)
    } else if range_of(name).is_some() {
        tell_number(out, form, name, word)
    } else if word.len() > most {
        begin(out, form, name)?;
        let octets = word.len();
        write!(out, " has {octets} octets, and {most} are the most\n")?;
        Ok(true)
    } else {
        Ok(false)
    }
}

fn tell_taps(
    out: &mut String,
    form: &str,
    taps: usize,
    more: &[Text],
) -> Result<bool, OutOfMemory> {
    let taps = taps.saturating_add(more.len());
    if taps > MOST_TAPS {
        let form = first_word(form);
        write!(
            out,
            "netsim: {form}: there are {taps} taps, and {MOST_TAPS} are the most\n"
        )?;
        return Ok(true);
    }
    for word in more {
        if tell_word(out, form, "TAP", word.as_str())? {
            return Ok(true);
        }
    }
    Ok(false)
}

/// Tells what is wrong with the words after a form's first, and whether anything is found.
fn tell_each(out: &mut String, form: &str, words: &[Text]) -> Result<bool, OutOfMemory> {
    let mut place = 0usize;
    for name in form.split_whitespace().skip(1) {
        let rest = words.get(place..).unwrap_or(&[]);
        if name == ".." {
            return tell_taps(out, form, 1, rest);
        }
        let Some(word) = rest.first() else {
            begin(out, form, name)?;
            let what = what_is(name);
            write!(out, " is missing ({what})\n")?;
            return Ok(true);
        };
        if tell_word(out, form, name, word.as_str())? {
            return Ok(true);
        }
        place = place.saturating_add(1);
    }
    tell_more(out, form, words.get(place..).unwrap_or(&[]))
}

fn tell_more(out: &mut String, form: &str, more: &[Text]) -> Result<bool, OutOfMemory> {
    let Some(word) = more.first() else {
        return Ok(false);
    };
    let name = first_word(form);
    write!(out, "netsim: {name}: ")?;
    show_word(out, word.as_str())?;
    write!(out, " is a word too many: netsim {form}\n")?;
    Ok(true)
}

/// The number that the words have at a name of the form.
fn number_at(form: &str, name: &str, words: &[Text]) -> Option<u32> {
    let place = form
        .split_whitespace()
        .skip(1)
        .position(|known| known == name)?;
    words.get(place)?.as_str().parse::<u32>().ok()
}

/// Tells what is wrong with FROM and TO together.
fn tell_stretch(out: &mut String, form: &str, words: &[Text]) -> Result<bool, OutOfMemory> {
    let (Some(from), Some(to)) = (number_at(form, "FROM", words), number_at(form, "TO", words))
    else {
        return Ok(false);
    };
    let form = first_word(form);
    if from >= to {
        write!(out, "netsim: {form}: FROM {from} is not below TO {to}\n")?;
        return Ok(true);
    }
    if to - from > MOST_PROBED {
        write!(
            out,
            "netsim: {form}: TO {to} is more than {MOST_PROBED} half bits after FROM {from}\n"
        )?;
        return Ok(true);
    }
    Ok(false)
}

fn tell_prefix(out: &mut String, form: &str, words: &[Text]) -> Result<bool, OutOfMemory> {
    let place = form
        .split_whitespace()
        .skip(1)
        .position(|known| known == "PREFIX");
    let word = place.and_then(|place| words.get(place));
    match word {
        Some(word) if word.as_str().ends_with('/') => {
            begin_word(out, form, "PREFIX", word.as_str())?;
            out.push_str(" ends in '/': its files would have no names\n")?;
            Ok(true)
        }
        _ => Ok(false),
    }
}

/// Tells what is wrong with words of a form.
fn tell_form(out: &mut String, form: &str, words: &[Text]) -> Result<(), OutOfMemory> {
    if tell_each(out, form, words)? {
        return Ok(());
    }
    if tell_stretch(out, form, words)? {
        return Ok(());
    }
    if tell_prefix(out, form, words)? {
        return Ok(());
    }
    write!(out, "netsim: these words are not those of netsim {form}\n")?;
    Ok(())
}

/// Tells what is wrong with words that are none of the forms.
pub fn tell_words(
    alloc: Global,
    out: &mut String,
    help: &str,
    words: &[Text],
) -> Result<(), OutOfMemory> {
    let Some((first, rest)) = words.split_first() else {
        return Ok(());
    };
    let first = first.as_str();
    match form_of(help, first) {
        Some(form) => tell_form(out, form, rest)?,
        None => {
            out.push_str("netsim: there is no form ")?;
            show_word(out, first)?;
            match meant(alloc, help, first)? {
                Some(form) => write!(out, ": did you mean '{form}'?\n")?,
                None => out.push_str("\n")?,
            }
        }
    }
    out.push_str("netsim: 'netsim --help' has the forms\n")?;
    Ok(())
}
