//! The lines of rows with the octets that were received, and the last line.
ghost use Rattle.std.specs.Prelude.{◌≡◌, ◌<◌, ◌≤◌, ◌+◌, ◌^◌, [], ◌++◌, ◌∷◌, ℕ, List, None, Some, Ok, Err, IfOk, length};
ghost use Rattle.collision_log.specs.declared.row.Row.{Row};
ghost use Rattle.load_plan.specs.declared.plan.Plan.{Plan};
ghost use Rattle.mac_transmit.specs.declared.state.SenderState.{SenderState};
ghost use Rattle.run_checkpoint.specs.Entries.{StateRow, captures_of_entries, is_length_of, is_reception, rows_of_entries};
ghost use Rattle.run_checkpoint.specs.Judging.{judged_end, judged_entries, judged_line, then_judged};
ghost use Rattle.run_checkpoint.specs.LineForms.{octets_form, row_form};
ghost use Rattle.run_checkpoint.specs.Progress.{IsJudgedOn, IsToldOf, ended_counts, judged_after_row};
ghost use Rattle.run_checkpoint.specs.Ranges.{is_row_after};
ghost use Rattle.run_checkpoint.specs.TextLines.{text_lines};

use crate::StateFault;
use crate::octets_line::octets_of;
use crate::row_line::{is_end_line, row_of};
use crate::row_order::{do_all_end, is_row_after};
use crate::text_line::line_in_front;
use crate::told::{ToldSoFar, listed, nothing_told};
use crate::waiting::is_reception;
use collision_log::{Body, Row, Rows};
use layout::Octets;
use load_plan::Plan;
use mac_parameters::CHECK_SEQUENCE;
use mac_transmit::SenderState;
use network::Captures;
use std::alloc::Global;

/// The row whose line this is, which may follow those so far.
fn judged_row(
    alloc: Global,
    plan: &Plan,
    t: u64,
    senders: &[SenderState],
    told: &ToldSoFar,
    number: u32,
    line: &[u8],
) -> Result<Row, StateFault>
    requires { told.now.ended.items ≡ ended_counts (length senders.now) told.now.rows }
    ensures judged { IsJudgedOn (λ row. Ok row) result (judged_line number (row_form plan.now.layout line.now) (is_row_after plan.now t senders.now told.now.rows)) }
{
    let Some(row) = row_of(alloc, &plan.layout, line)? else {
        return Err(StateFault::BadLine { line: number });
    };
    let before = told.rows.as_slice();
    if !is_row_after(plan, t, senders, before, told.ended.as_slice(), &row) {
        return Err(StateFault::BadValue { line: number });
    }
    Ok(row)
}

/// Whether so many octets are those of a frame that was received, without its check sequence.
fn is_length_of(body: &Body, len: usize) -> bool
    ensures { result ≡ is_length_of body.now len }
{
    match *body {
        Body::Received { octets } => {
            let Some(all) = len.checked_add(CHECK_SEQUENCE as usize) else {
                return false;
            };
            all == octets as usize
        }
        _ => len == 0,
    }
}

/// The octets whose line this is, which are as many as this row says.
fn judged_octets(alloc: Global, body: &Body, number: u32, line: &[u8]) -> Result<Octets, StateFault>
    ensures judged { IsJudgedOn (λ octets. Ok octets) result (judged_line number (octets_form line.now) (λ octets. is_length_of body.now (length octets))) }
{
    let Some(octets) = octets_of(alloc, line)? else {
        return Err(StateFault::BadLine { line: number });
    };
    if !is_length_of(body, octets.len()) {
        return Err(StateFault::BadValue { line: number });
    }
    Ok(octets)
}

/// The octets that a row tells of, the number of the line after them, and the octets from there on.
#[derive(Drop)]
struct Due<'a> {
    octets: Octets,
    number: u32,
    rest: &'a [u8],
}

/// What is due after a row: where a frame was received, the line of its octets.
fn octets_due<'a>(
    alloc: Global,
    row: &Row,
    number: u32,
    rest: &'a [u8],
) -> Result<Due<'a>, StateFault>
    requires { number + length rest.now < 2 ^ 32 }
    ensures judged { (plan : Plan) (t : ℕ) (senders : List SenderState) (es : List StateRow) →
        IsJudgedOn (λ due. judged_entries plan t senders due.number (es ++ record { row = row.now; octets = due.octets } ∷ []) None (text_lines due.rest.now)) result
        (judged_after_row plan t senders number es row.now (text_lines rest.now)) }
    ensures room { IfOk result (λ due. due.number + length due.rest.now ≤ number + length rest.now) }
    ensures shorter { IfOk result (λ due. length due.rest.now ≤ length rest.now) }
{
    if !is_reception(&row.body) {
        let octets = Octets::new(alloc);
        return Ok(Due {
            octets,
            number,
            rest,
        });
    }
    let Some((line, after)) = line_in_front(rest) else {
        return Err(StateFault::BadLine { line: number });
    };
    let octets = judged_octets(alloc, &row.body, number, line)?;
    Ok(Due {
        octets,
        number: number + 1,
        rest: after,
    })
}

/// The rows and captures that were told, where the last line has this number and these octets follow it.
#[tactic(auto, using(crate::proofs::EntriesSteps::octets_follow))]
fn told_at_end(
    alloc: Global,
    senders: &[SenderState],
    told: ToldSoFar,
    number: u32,
    rest: &[u8],
) -> Result<(Rows, Captures), StateFault>
    requires many { length told.ended.items ≡ length senders.now }
    requires room { number + length rest.now < 2 ^ 32 }
    ensures { (es : List StateRow) → IsToldOf (length senders.now) told es →
        IsJudgedOn (λ r. Ok r) result (then_judged (judged_end number senders.now es (text_lines rest.now)) (λ all. Ok (rows_of_entries all, captures_of_entries (length senders.now) all))) }
{
    if !do_all_end(senders, told.ended.as_slice()) {
        return Err(StateFault::BadValue { line: number });
    }
    if !rest.is_empty() {
        return Err(StateFault::BadLine { line: number + 1 });
    }
    Ok((told.rows, listed(alloc, told.captures)?))
}

/// The rows before half bit `t` and the captures that the lines from this one on tell.
pub fn judged_entries(
    alloc: Global,
    plan: &Plan,
    t: u64,
    senders: &[SenderState],
    first: u32,
    octets: &[u8],
) -> Result<(Rows, Captures), StateFault>
    requires { first + length octets.now < 2 ^ 32 }
    ensures judged { IsJudgedOn (λ r. Ok r) result (then_judged (judged_entries plan.now t senders.now first [] None (text_lines octets.now)) (λ es. Ok (rows_of_entries es, captures_of_entries (length senders.now) es))) }
{
    let mut told = nothing_told(alloc, senders.len())?;
    let mut number = first;
    let mut rest = octets;
    while !rest.is_empty() {
        let Some((line, after)) = line_in_front(rest) else {
            return Err(StateFault::BadLine { line: number });
        };
        if is_end_line(line) {
            return told_at_end(alloc, senders, told, number, after);
        }
        let row = judged_row(alloc, plan, t, senders, &told, number, line)?;
        let due = octets_due(alloc, &row, number + 1, after)?;
        told.add(row, due.octets)?;
        number = due.number;
        rest = due.rest;
    }
    Err(StateFault::BadLine { line: number })
}
