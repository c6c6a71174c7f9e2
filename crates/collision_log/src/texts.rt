//! The text of a row.
ghost use Rattle.std.specs.Prelude.{◌≡◌, ◌≤◌, ◌+◌, ◌++◌, length, take, drop};
ghost use Rattle.collision_log.specs.declared.row.Body.TheVariants.{Collided, Cut, Dropped};
ghost use Rattle.collision_log.specs.Rows.{body_text, device_word, hit_text, row_line, why_text};

use crate::line::LineText;
use crate::{Body, Row, Why};

/// Writes the line of a row of a repeater or a station with this name, of at most 32 octets, at the front
/// of a room of at least 200, leaves the rest of it, and answers the line's length (profile).
pub fn row_text(row: &Row, repeater: bool, name: &str, out: &mut [u8]) -> usize
    requires name { length name.now ≤ 32 }
    requires room { 200 ≤ length out.old }
    ensures text { take result out.new ≡ row_line row.now repeater name.now }
    ensures fits { result ≤ 200 }
    ensures rest { drop result out.new ≡ drop result out.old }
{
    let mut line = LineText::new();
    line.number(row.t);
    line.text(b" ");
    write_device(&mut line, repeater, name);
    line.text(b" ");
    write_body(&mut line, &row.body);
    line.text(b"\n");
    line.copy_to(out)
}

/// Writes what a device is, and its name.
pub fn write_device(line: &mut LineText, repeater: bool, name: &str)
    requires name { length name.now ≤ 32 }
    requires room { length line.old ≤ 100 }
    ensures text { line.new ≡ line.old ++ device_word repeater ++ name.now }
    ensures short { length line.new ≤ length line.old + 41 }
{
    line.text(if repeater { b"repeater " } else { b"station " });
    line.text(name.as_bytes());
}

fn write_body(line: &mut LineText, body: &Body)
    requires { length line.old ≤ 100 }
    ensures text { line.new ≡ line.old ++ body_text body.now }
    ensures short { length line.new ≤ length line.old + 102 }
{
    match *body {
        Body::Sent {
            frame,
            start,
            attempt,
        } => {
            line.field(b"sent frame ", u64::from(frame));
            line.field(b" start ", start);
            line.field(b" attempt ", u64::from(attempt));
        }
        Body::Collided {
            frame,
            start,
            attempt,
            hit,
            drawn,
        } => write_collided(line, frame, start, attempt, hit, drawn),
        Body::GivenUp { frame, start, hit } => {
            line.field(b"given_up frame ", u64::from(frame));
            line.field(b" start ", start);
            line.field(b" hit ", u64::from(hit));
        }
        Body::Cut {
            frame,
            start,
            attempt,
            hit,
        } => write_cut(line, frame, start, attempt, hit),
        Body::Received { octets } => line.field(b"received octets ", u64::from(octets)),
        Body::Dropped { why, halves } => write_dropped(line, why, halves),
        Body::Clash => line.text(b"clash"),
        Body::Closed { port } => line.field(b"closed port ", u64::from(port)),
        Body::Opened { port } => line.field(b"opened port ", u64::from(port)),
        Body::Halted { port } => line.field(b"halted port ", u64::from(port)),
    }
}

fn write_collided(line: &mut LineText, frame: u32, start: u64, attempt: u32, hit: u32, drawn: u32)
    requires { length line.old ≤ 100 }
    ensures text { line.new ≡ line.old ++ body_text (Collided frame start attempt hit drawn) }
    ensures short { length line.new ≤ length line.old + 102 }
{
    line.field(b"collided frame ", u64::from(frame));
    line.field(b" start ", start);
    line.field(b" attempt ", u64::from(attempt));
    line.field(b" hit ", u64::from(hit));
    line.field(b" draw ", u64::from(drawn));
}

fn write_cut(line: &mut LineText, frame: u32, start: u64, attempt: u32, hit: Option<u32>)
    requires { length line.old ≤ 100 }
    ensures text { line.new ≡ line.old ++ body_text (Cut frame start attempt hit) }
    ensures short { length line.new ≤ length line.old + 102 }
{
    line.field(b"cut frame ", u64::from(frame));
    line.field(b" start ", start);
    line.field(b" attempt ", u64::from(attempt));
    line.text(b" hit ");
    write_hit(line, hit);
}

fn write_dropped(line: &mut LineText, why: Why, halves: u32)
    requires { length line.old ≤ 100 }
    ensures text { line.new ≡ line.old ++ body_text (Dropped why halves) }
    ensures short { length line.new ≤ length line.old + 102 }
{
    line.text(b"dropped ");
    line.text(word_of(why));
    line.field(b" halves ", u64::from(halves));
}

fn write_hit(line: &mut LineText, hit: Option<u32>)
    requires { length line.old ≤ 700 }
    ensures text { line.new ≡ line.old ++ hit_text hit }
    ensures short { length line.new ≤ length line.old + 10 }
{
    match hit {
        Some(hit) => line.number(u64::from(hit)),
        None => line.text(b"none"),
    }
}

fn word_of(why: Why) -> &'static [u8]
    ensures word { result.now ≡ why_text why }
    ensures short { length result.now ≤ 8 }
{
    match why {
        Why::Fragment => b"fragment",
        Why::TooLong => b"too_long",
        Why::FcsError => b"fcs",
        Why::AlignError => b"align",
        Why::Damaged => b"damaged",
    }
}
