//! What a device counts.
ghost use Rattle.std.specs.Prelude.{◌≡◌, ◌≤◌, ◌+◌, ◌-◌, ◌^◌, ◌++◌, ℕ, length, take, drop};
ghost use Rattle.collision_log.specs.Counters.{RowsAtMost, counters_line, counters_words, late_count, no_counts, queue_words, receiving_words, repeating_words, sending_words, with_dropped, with_row};

use crate::line::LineText;
use crate::texts::write_device;
use crate::{Body, Why};
use mac_parameters::SLOT_TIME;

/// The counts of a device: of its queue and of the records that didn't come into it, and of its rows by
/// what happened.
#[derive(Clone, Copy)]
pub struct Counters {
    pub queued: u64,
    pub short: u64,
    pub long: u64,
    pub snapped: u64,
    pub sent: u64,
    pub collided: u64,
    pub late: u64,
    pub given_up: u64,
    pub cut: u64,
    pub received: u64,
    pub fragment: u64,
    pub too_long: u64,
    pub fcs: u64,
    pub align: u64,
    pub damaged: u64,
    pub clash: u64,
    pub closed: u64,
    pub opened: u64,
    pub halted: u64,
}

impl Counters {
    /// All counts are 0.
    pub fn new() -> Counters
        ensures { result ≡ no_counts }
    {
        Counters {
            queued: 0,
            short: 0,
            long: 0,
            snapped: 0,
            sent: 0,
            collided: 0,
            late: 0,
            given_up: 0,
            cut: 0,
            received: 0,
            fragment: 0,
            too_long: 0,
            fcs: 0,
            align: 0,
            damaged: 0,
            clash: 0,
            closed: 0,
            opened: 0,
            halted: 0,
        }
    }

    /// Counts one more row, where no count of rows stands at the type's end. A collision and a frame that is given up
    /// for excessive collisions both count as collided (profile).
    pub fn count(&mut self, body: &Body)
        requires { RowsAtMost self.old (2 ^ 64 - 2) }
        ensures counts { self.new ≡ with_row self.old body.now }
        ensures rise { (n : ℕ) → RowsAtMost self.old n → RowsAtMost self.new (n + 1) }
    {
        match *body {
            Body::Sent { .. } => self.sent += 1,
            Body::Collided { hit, .. } => self.count_collision(hit),
            Body::GivenUp { hit, .. } => {
                self.count_collision(hit);
                self.given_up += 1;
            }
            Body::Cut { .. } => self.cut += 1,
            Body::Received { .. } => self.received += 1,
            Body::Dropped { why, .. } => self.count_dropped(why),
            Body::Clash => self.clash += 1,
            Body::Closed { .. } => self.closed += 1,
            Body::Opened { .. } => self.opened += 1,
            Body::Halted { .. } => self.halted += 1,
        }
    }

    /// A collision that is heard at or after the slot time is late (4.2.3.2.4).
    fn count_collision(&mut self, hit: u32)
        requires { RowsAtMost self.old (2 ^ 64 - 2) }
        ensures { self.new ≡ record self.old { collided = self.old.collided + 1; late = self.old.late + late_count hit } }
    {
        self.collided += 1;
        if hit >= SLOT_TIME {
            self.late += 1;
        }
    }

    /// Counts one more reception that was dropped.
    fn count_dropped(&mut self, why: Why)
        requires { RowsAtMost self.old (2 ^ 64 - 2) }
        ensures { self.new ≡ with_dropped self.old why }
    {
        match why {
            Why::Fragment => self.fragment += 1,
            Why::TooLong => self.too_long += 1,
            Why::FcsError => self.fcs += 1,
            Why::AlignError => self.align += 1,
            Why::Damaged => self.damaged += 1,
        }
    }
}

/// Writes the line of the counters of a repeater or a station with this name, of at most 32 octets, at
/// the front of a room of at least 800, leaves the rest of it, and answers the line's length. The frames
/// that are left are those neither sent nor given up (profile).
pub fn counters_text(counters: &Counters, repeater: bool, name: &str, out: &mut [u8]) -> usize
    requires left { counters.now.sent + counters.now.given_up ≤ counters.now.queued }
    requires name { length name.now ≤ 32 }
    requires room { 800 ≤ length out.old }
    ensures text { take result out.new ≡ counters_line counters.now repeater name.now }
    ensures fits { result ≤ 800 }
    ensures rest { drop result out.new ≡ drop result out.old }
{
    let mut line = LineText::new();
    write_device(&mut line, repeater, name);
    write_words(&mut line, counters, repeater);
    line.text(b"\n");
    line.copy_to(out)
}

fn write_words(line: &mut LineText, counters: &Counters, repeater: bool)
    requires left { counters.now.sent + counters.now.given_up ≤ counters.now.queued }
    requires room { length line.old ≤ 100 }
    ensures text { line.new ≡ line.old ++ counters_words counters.now repeater }
    ensures short { length line.new ≤ length line.old + 480 }
{
    if repeater {
        write_repeating(line, counters);
    } else {
        write_queue(line, counters);
        write_sending(line, counters);
        write_receiving(line, counters);
    }
}

fn write_queue(line: &mut LineText, counters: &Counters)
    requires { length line.old ≤ 100 }
    ensures text { line.new ≡ line.old ++ queue_words counters.now }
    ensures short { length line.new ≤ length line.old + 110 }
{
    line.field(b" queued ", counters.queued);
    line.field(b" short ", counters.short);
    line.field(b" long ", counters.long);
    line.field(b" snapped ", counters.snapped);
}

fn write_sending(line: &mut LineText, counters: &Counters)
    requires left { counters.now.sent + counters.now.given_up ≤ counters.now.queued }
    requires room { length line.old ≤ 300 }
    ensures text { line.new ≡ line.old ++ sending_words counters.now }
    ensures short { length line.new ≤ length line.old + 163 }
{
    line.field(b" sent ", counters.sent);
    line.field(b" collided ", counters.collided);
    line.field(b" late ", counters.late);
    line.field(b" given_up ", counters.given_up);
    line.field(b" cut ", counters.cut);
    let left = counters.queued - counters.sent - counters.given_up;
    line.field(b" left ", left);
}

fn write_receiving(line: &mut LineText, counters: &Counters)
    requires { length line.old ≤ 500 }
    ensures text { line.new ≡ line.old ++ receiving_words counters.now }
    ensures short { length line.new ≤ length line.old + 171 }
{
    line.field(b" received ", counters.received);
    line.field(b" fragment ", counters.fragment);
    line.field(b" too_long ", counters.too_long);
    line.field(b" fcs ", counters.fcs);
    line.field(b" align ", counters.align);
    line.field(b" damaged ", counters.damaged);
}

fn write_repeating(line: &mut LineText, counters: &Counters)
    requires { length line.old ≤ 100 }
    ensures text { line.new ≡ line.old ++ repeating_words counters.now }
    ensures short { length line.new ≤ length line.old + 114 }
{
    line.field(b" clash ", counters.clash);
    line.field(b" closed ", counters.closed);
    line.field(b" opened ", counters.opened);
    line.field(b" halted ", counters.halted);
}
