//! The words of the command line.
ghost use Rattle.std.specs.Prelude.{◌≡◌, ◌≤◌, ◌<◌, ◌+◌, ◌^◌, IfSome, option_map};
ghost use Rattle.mac_parameters.specs.Parameters.{most_half_bits};
ghost use Rattle.program_words.specs.WordLimits.{most_probed, most_taps};
ghost use Rattle.program_words.specs.Requests.{HasNumbersInRange, are_tap_words, asked, asked_check, asked_demo, asked_form, asked_frames, asked_help, asked_meter, asked_of, asked_page, asked_picture, asked_plain, asked_probe, asked_resume, asked_run, asked_slack, asked_stop, asked_version, is_file_name, is_prefix, is_tap_word, number_between, stretch_between};

use layout::MOST_REPEATERS;
use lists::{List, Text};
use mac_parameters::MOST_HALF_BITS;

/// The words that the program was called with, without its own name.
pub type Words = List<Text>;

/// The greatest length of a file's name or of a prefix, in octets (profile).
const MOST_NAME: usize = 200;

/// The most workers of a run (profile).
const MOST_WORKERS: u32 = 64;

/// The most taps of a probe (profile).
const MOST_TAPS: usize = 16;

/// The most octets of a word for a tap (profile).
const MOST_TAP_WORD: usize = 40;

/// The most half bits of a probe, a page or a picture (profile).
const MOST_PROBED: u32 = 1_000_000;

/// What is reported of a stretch of a run.
#[derive(Clone, Copy)]
pub enum Report {
    /// What taps hear, tap by tap, as runs of one symbol and bursts.
    Runs,
    /// What taps hear, as the waves of all, in a value change dump.
    Waves,
    /// What all taps emit, and the log's rows, as a page.
    Page,
}

/// What the words ask for.
#[derive(Clone, Copy)]
pub enum Request<'a> {
    /// Says the path verdict of a layout.
    Check {
        layout: &'a str,
    },
    /// Says how far a layout can grow.
    Slack {
        layout: &'a str,
    },
    /// Runs the network of a layout and writes the files of a prefix.
    Plain {
        layout: &'a str,
        prefix: &'a str,
    },
    /// The same on so many workers.
    Run {
        layout: &'a str,
        prefix: &'a str,
        workers: u32,
    },
    /// Runs the network of a layout by half bits to the first quiet half bit at or after one, and writes the state of a
    /// prefix.
    Stop {
        layout: &'a str,
        prefix: &'a str,
        from: u32,
    },
    /// Goes on from the state of a prefix and writes the files of the prefix.
    Resume {
        layout: &'a str,
        prefix: &'a str,
    },
    /// Runs the layout of demo of a number on so many workers.
    Demo {
        number: u32,
        workers: u32,
    },
    /// Reports on the half bits of a run from one on and before another; a page has no taps of its own.
    Probe {
        report: Report,
        layout: &'a str,
        from: u32,
        to: u32,
        taps: &'a [Text],
    },
    /// Says figures of a log.
    Meter {
        log: &'a str,
    },
    /// Draws what a log tells of the half bits from one on and before another.
    Picture {
        layout: &'a str,
        log: &'a str,
        from: u32,
        to: u32,
    },
    /// Says by a log what became of each frame that the stations of a layout have to send.
    Frames {
        layout: &'a str,
        log: &'a str,
    },
    /// What the program is called with.
    Help,
    /// The program's name and version.
    Version,
}

fn is_file_name(word: &str) -> bool
    ensures { result ≡ is_file_name word.now }
{
    !word.is_empty() && word.len() <= MOST_NAME
}

/// Whether a word can be a prefix: a file's name that doesn't end in a slash.
fn is_prefix(word: &str) -> bool
    ensures { result ≡ is_prefix word.now }
{
    is_file_name(word) && !word.as_bytes().ends_with(b"/")
}

/// The number from the least to the most that a word is in decimal, without a sign or a leading zero.
fn read_number(word: &str, least: u32, most: u32) -> Option<u32>
    requires some { least ≤ most }
    requires small { most < 2 ^ 31 }
    ensures number { result ≡ number_between least most word.now }
    ensures least { IfSome result (λ n. least ≤ n) }
    ensures most { IfSome result (λ n. n ≤ most) }
{
    let Ok(number) = word.parse::<u32>() else {
        return None;
    };
    if number < least {
        return None;
    }
    if number > most {
        return None;
    }
    if itoa::Buffer::new().format(number) == word {
        Some(number)
    } else {
        None
    }
}

/// The request of the words, or none where they are none of the forms.
pub fn read_words(words: &Words) -> Option<Request<'_>>
    ensures asked { option_map asked_of result ≡ asked words.now }
    ensures range { IfSome result HasNumbersInRange }
{
    let [form, rest @ ..] = words.as_slice() else {
        return None;
    };
    read_form(form.as_str(), rest)
}

/// A row for each form: its first word, and how the words after it are read.
fn read_form<'a>(form: &str, words: &'a [Text]) -> Option<Request<'a>>
    ensures asked { option_map asked_of result ≡ asked_form form.now words.now }
    ensures range { IfSome result HasNumbersInRange }
{
    match form {
        "check" => read_check(words),
        "slack" => read_slack(words),
        "plain" => read_plain(words),
        "run" => read_run(words),
        "stop" => read_stop(words),
        "resume" => read_resume(words),
        "demo" => read_demo(words),
        "probe" => read_probe(Report::Runs, words),
        "waves" => read_probe(Report::Waves, words),
        "page" => read_page(words),
        "meter" => read_meter(words),
        "picture" => read_picture(words),
        "frames" => read_frames(words),
        "--help" => read_help(words),
        "--version" => read_version(words),
        _ => None,
    }
}

fn read_check(words: &[Text]) -> Option<Request<'_>>
    ensures asked { option_map asked_of result ≡ asked_check words.now }
    ensures range { IfSome result HasNumbersInRange }
{
    let [layout] = words else {
        return None;
    };
    let layout = layout.as_str();
    if is_file_name(layout) {
        Some(Request::Check { layout })
    } else {
        None
    }
}

fn read_slack(words: &[Text]) -> Option<Request<'_>>
    ensures asked { option_map asked_of result ≡ asked_slack words.now }
    ensures range { IfSome result HasNumbersInRange }
{
    let [layout] = words else {
        return None;
    };
    let layout = layout.as_str();
    if is_file_name(layout) {
        Some(Request::Slack { layout })
    } else {
        None
    }
}

fn read_plain(words: &[Text]) -> Option<Request<'_>>
    ensures asked { option_map asked_of result ≡ asked_plain words.now }
    ensures range { IfSome result HasNumbersInRange }
{
    let [layout, prefix] = words else {
        return None;
    };
    let (layout, prefix) = (layout.as_str(), prefix.as_str());
    if is_file_name(layout) && is_prefix(prefix) {
        Some(Request::Plain { layout, prefix })
    } else {
        None
    }
}

fn read_run(words: &[Text]) -> Option<Request<'_>>
    ensures asked { option_map asked_of result ≡ asked_run words.now }
    ensures range { IfSome result HasNumbersInRange }
{
    let [layout, prefix, workers] = words else {
        return None;
    };
    let (layout, prefix) = (layout.as_str(), prefix.as_str());
    if is_file_name(layout) && is_prefix(prefix) {
        let workers = read_number(workers.as_str(), 1, MOST_WORKERS)?;
        Some(Request::Run {
            layout,
            prefix,
            workers,
        })
    } else {
        None
    }
}

fn read_stop(words: &[Text]) -> Option<Request<'_>>
    ensures asked { option_map asked_of result ≡ asked_stop words.now }
    ensures range { IfSome result HasNumbersInRange }
{
    let [layout, prefix, from] = words else {
        return None;
    };
    let (layout, prefix) = (layout.as_str(), prefix.as_str());
    if is_file_name(layout) && is_prefix(prefix) {
        let from = read_number(from.as_str(), 0, MOST_HALF_BITS as u32)?;
        Some(Request::Stop {
            layout,
            prefix,
            from,
        })
    } else {
        None
    }
}

fn read_resume(words: &[Text]) -> Option<Request<'_>>
    ensures asked { option_map asked_of result ≡ asked_resume words.now }
    ensures range { IfSome result HasNumbersInRange }
{
    let [layout, prefix] = words else {
        return None;
    };
    let (layout, prefix) = (layout.as_str(), prefix.as_str());
    if is_file_name(layout) && is_prefix(prefix) {
        Some(Request::Resume { layout, prefix })
    } else {
        None
    }
}

fn read_demo(words: &[Text]) -> Option<Request<'_>>
    ensures asked { option_map asked_of result ≡ asked_demo words.now }
    ensures range { IfSome result HasNumbersInRange }
{
    let [number, workers] = words else {
        return None;
    };
    let number = read_number(number.as_str(), 1, MOST_REPEATERS as u32)?;
    let workers = read_number(workers.as_str(), 1, MOST_WORKERS)?;
    Some(Request::Demo { number, workers })
}

fn is_tap_word(word: &str) -> bool
    ensures { result ≡ is_tap_word word.now }
{
    !word.is_empty() && word.len() <= MOST_TAP_WORD
}

fn are_tap_words(words: &[Text]) -> bool
    ensures { result ≡ are_tap_words words.now }
{
    for word in words {
        if !is_tap_word(word.as_str()) {
            return false;
        }
    }
    true
}

/// Two half bits, the first before the second, and at most a million from one to the other.
fn read_stretch(from: &str, to: &str) -> Option<(u32, u32)>
    ensures stretch { result ≡
        stretch_between (number_between 0 most_half_bits from.now) (number_between 0 most_half_bits to.now) }
    ensures order { IfSome result (λ s. s.0 < s.1) }
    ensures short { IfSome result (λ s. s.1 ≤ s.0 + most_probed) }
    ensures late { IfSome result (λ s. s.1 ≤ most_half_bits) }
{
    let from = read_number(from, 0, MOST_HALF_BITS as u32)?;
    let to = read_number(to, 0, MOST_HALF_BITS as u32)?;
    if from < to && to <= from + MOST_PROBED {
        Some((from, to))
    } else {
        None
    }
}

fn read_probe(report: Report, words: &[Text]) -> Option<Request<'_>>
    ensures asked { option_map asked_of result ≡ asked_probe report words.now }
    ensures range { IfSome result HasNumbersInRange }
{
    let [layout, from, to, taps @ ..] = words else {
        return None;
    };
    let layout = layout.as_str();
    let are_few = !taps.is_empty() && taps.len() <= MOST_TAPS;
    if is_file_name(layout) && are_few && are_tap_words(taps) {
        let (from, to) = read_stretch(from.as_str(), to.as_str())?;
        Some(Request::Probe {
            report,
            layout,
            from,
            to,
            taps,
        })
    } else {
        None
    }
}

fn read_page(words: &[Text]) -> Option<Request<'_>>
    ensures asked { option_map asked_of result ≡ asked_page words.now }
    ensures range { IfSome result HasNumbersInRange }
{
    let [layout, from, to] = words else {
        return None;
    };
    let layout = layout.as_str();
    if is_file_name(layout) {
        let (from, to) = read_stretch(from.as_str(), to.as_str())?;
        Some(Request::Probe {
            report: Report::Page,
            layout,
            from,
            to,
            taps: &[],
        })
    } else {
        None
    }
}

fn read_meter(words: &[Text]) -> Option<Request<'_>>
    ensures asked { option_map asked_of result ≡ asked_meter words.now }
    ensures range { IfSome result HasNumbersInRange }
{
    let [log] = words else {
        return None;
    };
    let log = log.as_str();
    if is_file_name(log) {
        Some(Request::Meter { log })
    } else {
        None
    }
}

fn read_picture(words: &[Text]) -> Option<Request<'_>>
    ensures asked { option_map asked_of result ≡ asked_picture words.now }
    ensures range { IfSome result HasNumbersInRange }
{
    let [layout, log, from, to] = words else {
        return None;
    };
    let (layout, log) = (layout.as_str(), log.as_str());
    if is_file_name(layout) && is_file_name(log) {
        let (from, to) = read_stretch(from.as_str(), to.as_str())?;
        Some(Request::Picture {
            layout,
            log,
            from,
            to,
        })
    } else {
        None
    }
}

fn read_frames(words: &[Text]) -> Option<Request<'_>>
    ensures asked { option_map asked_of result ≡ asked_frames words.now }
    ensures range { IfSome result HasNumbersInRange }
{
    let [layout, log] = words else {
        return None;
    };
    let (layout, log) = (layout.as_str(), log.as_str());
    if is_file_name(layout) && is_file_name(log) {
        Some(Request::Frames { layout, log })
    } else {
        None
    }
}

fn read_help(words: &[Text]) -> Option<Request<'_>>
    ensures asked { option_map asked_of result ≡ asked_help words.now }
    ensures range { IfSome result HasNumbersInRange }
{
    if words.is_empty() {
        Some(Request::Help)
    } else {
        None
    }
}

fn read_version(words: &[Text]) -> Option<Request<'_>>
    ensures asked { option_map asked_of result ≡ asked_version words.now }
    ensures range { IfSome result HasNumbersInRange }
{
    if words.is_empty() {
        Some(Request::Version)
    } else {
        None
    }
}
