//! The line of a station's sender.
ghost use Rattle.std.specs.Prelude.{◌≡◌, ◌++◌, OnOk};
ghost use Rattle.text_fields.specs.Reading.{IsReading};
ghost use Rattle.run_checkpoint.specs.LineForms.{defer_at, gap_defer_at, phase_at, sender_form, time_form};
ghost use Rattle.run_checkpoint.specs.SenderLines.{defer_of_line, sender_of_line};
ghost use Rattle.run_checkpoint.specs.LineTexts.{defer_words, line_of_sender, line_of_time_kept, phase_words, yes_or_no};

use crate::fault::add_figure;
use crate::fields::{figure, is_line_end, truth};
use lists::{List, OutOfMemory};
use mac_transmit::{Defer, Phase, SenderState};
use text_fields::after_word;

/// How a sender waits, by its line. The number may have any value.
#[derive(Clone, Copy)]
pub enum DeferLine {
    Watch,
    Busy { was: bool },
    Gap { k: u64, was: bool },
}

/// What the line of a sender says: what the sender is doing and how it waits, its attempt, its place in its queue and
/// its number of draws. The numbers may have any value.
#[derive(Clone, Copy)]
pub struct SenderLine {
    pub phase: Phase,
    pub defer: DeferLine,
    pub attempt: u64,
    pub place: u64,
    pub drawn: u64,
}

/// Puts the line of a half bit at the end of a text.
pub fn add_time(text: &mut List<u8>, t: u64) -> Result<(), OutOfMemory>
    ensures { OnOk result (text.new ≡ text.old ++ line_of_time_kept t) }
{
    add_figure(text, b"state ", t)?;
    text.extend(b"\n")
}

/// The half bit whose line this is.
#[tactic(auto, unfolding(crate::specs::LineForms::time_form))]
pub fn time_of(line: &[u8]) -> Option<u64>
    ensures { IsReading (λ t. t) result (time_form line.now) }
{
    let (t, rest) = figure(b"state ", line)?;
    if !is_line_end(rest) {
        return None;
    }
    Some(t)
}

/// Yes or no.
fn yes_or_no(answer: bool) -> &'static [u8]
    ensures { result.now ≡ yes_or_no answer }
{
    if answer { b"yes" } else { b"no" }
}

/// Puts a word, and yes or no, at the end of a text.
pub fn add_truth(text: &mut List<u8>, word: &[u8], answer: bool) -> Result<(), OutOfMemory>
    ensures { OnOk result (text.new ≡ text.old ++ word.now ++ yes_or_no answer) }
{
    text.extend(word)?;
    text.extend(yes_or_no(answer))
}

/// Puts what a sender is doing at the end of a text.
fn add_phase(text: &mut List<u8>, phase: Phase) -> Result<(), OutOfMemory>
    ensures { OnOk result (text.new ≡ text.old ++ phase_words phase) }
{
    match phase {
        Phase::Rest => text.extend(b" phase rest"),
        Phase::Waiting => text.extend(b" phase waiting"),
        Phase::Sending { .. } => Ok(()),
        Phase::Backoff { until } => add_figure(text, b" phase backoff ", until),
    }
}

/// Puts how a sender waits at the end of a text.
fn add_defer(text: &mut List<u8>, defer: Defer) -> Result<(), OutOfMemory>
    ensures { OnOk result (text.new ≡ text.old ++ defer_words defer) }
{
    match defer {
        Defer::Watch => text.extend(b" defer watch"),
        Defer::Busy { was } => add_truth(text, b" defer busy ", was),
        Defer::Gap { k, was } => {
            add_figure(text, b" defer gap ", u64::from(k))?;
            add_truth(text, b" ", was)
        }
    }
}

/// Puts the line of the sender of a station with this name at the end of a text.
#[tactic(auto, unfolding(crate::specs::LineTexts::line_of_sender))]
pub fn add_sender(text: &mut List<u8>, name: &str, s: &SenderState) -> Result<(), OutOfMemory>
    ensures { OnOk result (text.new ≡ text.old ++ line_of_sender name.now s.now) }
{
    text.extend(b"station ")?;
    text.extend(name.as_bytes())?;
    add_phase(text, s.phase)?;
    add_defer(text, s.defer)?;
    add_figure(text, b" attempt ", u64::from(s.attempt))?;
    add_figure(text, b" place ", u64::from(s.place))?;
    add_figure(text, b" drawn ", u64::from(s.drawn))?;
    text.extend(b"\n")
}

/// What a sender is doing.
#[tactic(auto, unfolding(crate::specs::LineForms::phase_at))]
fn phase(octets: &[u8]) -> Option<(Phase, &[u8])>
    ensures { IsReading (λ p. (p.0, p.1.now)) result (phase_at octets.now) }
{
    if let Some(rest) = after_word(b" phase rest", octets) {
        return Some((Phase::Rest, rest));
    }
    if let Some(rest) = after_word(b" phase waiting", octets) {
        return Some((Phase::Waiting, rest));
    }
    let (until, rest) = figure(b" phase backoff ", octets)?;
    Some((Phase::Backoff { until }, rest))
}

/// So many half bits of the gap that have gone.
#[tactic(auto, unfolding(crate::specs::LineForms::gap_defer_at))]
fn gap(octets: &[u8]) -> Option<(DeferLine, &[u8])>
    ensures { IsReading (λ d. (defer_of_line d.0, d.1.now)) result (gap_defer_at octets.now) }
{
    let (k, rest) = figure(b" defer gap ", octets)?;
    let (was, rest) = truth(b" ", rest)?;
    Some((DeferLine::Gap { k, was }, rest))
}

/// How a sender waits.
#[tactic(auto, unfolding(crate::specs::LineForms::defer_at))]
fn defer(octets: &[u8]) -> Option<(DeferLine, &[u8])>
    ensures { IsReading (λ d. (defer_of_line d.0, d.1.now)) result (defer_at octets.now) }
{
    if let Some(rest) = after_word(b" defer watch", octets) {
        return Some((DeferLine::Watch, rest));
    }
    if let Some((was, rest)) = truth(b" defer busy ", octets) {
        return Some((DeferLine::Busy { was }, rest));
    }
    gap(octets)
}

/// The sender whose line this is, of a station with this name.
#[tactic(auto, unfolding(crate::specs::LineForms::sender_form))]
pub fn sender_of(name: &str, line: &[u8]) -> Option<SenderLine>
    ensures { IsReading sender_of_line result (sender_form name.now line.now) }
{
    let rest = after_word(b"station ", line)?;
    let rest = after_word(name.as_bytes(), rest)?;
    let (phase, rest) = phase(rest)?;
    let (defer, rest) = defer(rest)?;
    let (attempt, rest) = figure(b" attempt ", rest)?;
    let (place, rest) = figure(b" place ", rest)?;
    let (drawn, rest) = figure(b" drawn ", rest)?;
    if !is_line_end(rest) {
        return None;
    }
    Some(SenderLine {
        phase,
        defer,
        attempt,
        place,
        drawn,
    })
}
