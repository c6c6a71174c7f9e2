//! The lines of the table.
ghost use Rattle.std.specs.Prelude.{◌≡◌, ◌++◌, OnOk, codes, decimal};
ghost use Rattle.frame_table.specs.Tables.{end_text, frame_text, history_text, line_text, number_text, outcome_field, outcome_text, reach_text};

use crate::history::{End, History, Outcome};
use crate::reach::Reach;
use frame_layout::Ready;
use lists::{List, OutOfMemory};

/// Puts a number at the end of a text.
fn add_number(text: &mut List<u8>, number: u64) -> Result<(), OutOfMemory>
    ensures { OnOk result (text.new ≡ text.old ++ decimal number) }
{
    text.extend(itoa::Buffer::new().format(number).as_bytes())
}

/// Puts a number and a comma at the end of a text, and the comma alone where there is no number.
fn add_field(text: &mut List<u8>, number: Option<u64>) -> Result<(), OutOfMemory>
    ensures { OnOk result (text.new ≡ text.old ++ number_text number ++ codes ",") }
{
    if let Some(number) = number {
        add_number(text, number)?;
    }
    text.extend(b",")
}

/// Puts the half bit of a frame's end and a comma at the end of a text, and the comma alone where it has no end.
fn add_end(text: &mut List<u8>, end: Option<End>) -> Result<(), OutOfMemory>
    ensures { OnOk result (text.new ≡ text.old ++ end_text end ++ codes ",") }
{
    if let Some(end) = end {
        add_number(text, end.t)?;
    }
    text.extend(b",")
}

/// The word for what became of a frame.
fn outcome_text(outcome: Outcome) -> &'static [u8]
    ensures { result.now ≡ outcome_text outcome }
{
    match outcome {
        Outcome::Sent => b"sent",
        Outcome::GivenUp => b"given_up",
        Outcome::Cut => b"cut",
    }
}

/// The word for what became of a frame, which is left where it has no end.
fn outcome_field(end: Option<End>) -> &'static [u8]
    ensures { result.now ≡ outcome_field end }
{
    match end {
        None => b"left",
        Some(end) => outcome_text(end.outcome),
    }
}

/// Puts the fields of a frame that are known before the run at the end of a text.
#[tactic(auto, unfolding(crate::specs::Tables::frame_text))]
fn add_frame(text: &mut List<u8>, name: &str, number: u64, ready: &Ready) -> Result<(), OutOfMemory>
    ensures { OnOk result (text.new ≡ text.old ++ frame_text name.now number ready.now) }
{
    text.extend(name.as_bytes())?;
    text.extend(b",")?;
    add_field(text, Some(number))?;
    add_field(text, Some(ready.frame.octets().len() as u64))?;
    add_field(text, Some(ready.at))
}

/// Puts the fields of a frame's attempts at the end of a text.
#[tactic(auto, unfolding(crate::specs::Tables::history_text))]
fn add_history(text: &mut List<u8>, history: &History) -> Result<(), OutOfMemory>
    ensures { OnOk result (text.new ≡ text.old ++ history_text history.now) }
{
    add_field(text, history.first)?;
    add_field(text, history.start)?;
    add_end(text, history.end)?;
    add_field(text, Some(history.attempts))?;
    text.extend(outcome_field(history.end))?;
    text.extend(b",")
}

/// Puts the fields `reached` and `missed` at the end of a text.
fn add_reach(text: &mut List<u8>, reach: Option<Reach>) -> Result<(), OutOfMemory>
    ensures { OnOk result (text.new ≡ text.old ++ reach_text reach) }
{
    let Some(reach) = reach else {
        return text.extend(b",");
    };
    add_number(text, reach.reached)?;
    text.extend(b",")?;
    add_number(text, reach.missed)
}

/// Puts the line of a frame at the end of a text.
#[tactic(auto, unfolding(crate::specs::Tables::line_text))]
pub fn add_line(
    text: &mut List<u8>,
    name: &str,
    number: u64,
    ready: &Ready,
    history: &History,
    reach: Option<Reach>,
) -> Result<(), OutOfMemory>
    ensures { OnOk result (text.new ≡ text.old ++ line_text name.now number ready.now history.now reach) }
{
    add_frame(text, name, number, ready)?;
    add_history(text, history)?;
    add_reach(text, reach)?;
    text.extend(b"\n")
}
