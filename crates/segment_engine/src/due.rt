//! Half bits in which something happens at stations that go on one by one: each of these makes its half bit by itself.
//! Where it emits something else from then on than its line tells, its line is told anew, and no other station goes on
//! beyond the half bit in which it hears that.

ghost use Rattle.std.specs.Prelude.{◌≡◌, ◌≢◌, ◌≤◌, ◌<◌, ◌+◌, ◌-◌, ◌++◌, ◌*◌, ◌⊎◌, ◌^◌, IfNone, IfSome, ℕ, [], ◌∷◌, true, false, length, slice_index_or};
ghost use Rattle.mac_parameters.specs.Parameters.{most_half_bits};
ghost use Rattle.manchester_line.specs.Line.{is_signal as is_signal_of};
ghost use Rattle.mac_receive.specs.KeptReceiver.{KeptReception};
ghost use Rattle.mac_transmit.specs.Sender.{Sender, is_sending as is_sending_in};
ghost use Rattle.net_parts.specs.SegmentParts.{wiring};
ghost use Rattle.network.specs.Captures.{taken_by};
ghost use Rattle.network.specs.Rows.{row_of};
ghost use Rattle.network.specs.Times.{heard};
ghost use Rattle.segment_engine.specs.KnownLines.{KnowLines};
ghost use Rattle.segment_engine.specs.StationsApart.{StandsApart, StandAllApart, AreStill, IsStillBy, HearsByLines, HearAllByLines, IsAnew, IsToldAnew, AreToldAnew, SaysOf, TellsUpTo, CoversApart, behind_demand, heard_reception, lowered_watch, most_told, number_on, rows_of_both, sent_event};
ghost use Rattle.segment_engine.specs.declared.apart.Watch.{Watch};
ghost use Rattle.tap_lines.specs.TapLines.{IsReachOf, TapLine, class_on, goes_on as goes_on_with, half_bits_back, heard_by_lines, no_line, symbol_on};
ghost use Rattle.tap_lines.specs.TapLists.{AreIdleButFor, HearsListed};
ghost use Rattle.window_room.specs.NeededRoom.{Covers, Demand, both_demands, receiver_demand, sender_demand};
ghost use Rattle.window_room.specs.Rooms.{captures_with};

use crate::ahead::go_on_ahead;
use crate::apart::{AHEAD, Watch, end_one, look_one};
use crate::quiet::is_sending;
use crate::segment::Segment;
use crate::stations::step_station;
use mac_parameters::MOST_HALF_BITS;
use mac_transmit::{Phase, Transmitter};
use manchester_line::Sym;
use reception_laws::{LateReceiver, Teller};
use tap_lines::{Line, LoudTaps, hear_listed};
use window_room::RowRoom;

/// What tap `p` hears in half bit `u`.
fn heard_now(
    u: u64,
    lines: &[Line],
    loud: &LoudTaps,
    p: usize,
    lookahead: u32,
    far: u64,
    piece: &mut [Sym],
) -> Sym
    requires some { 0 < length piece.old }
    requires listed { HearsListed p lookahead far u 1 lines.now loud.now.taps }
    ensures { result ≡ heard_by_lines lookahead u lines.now p }
{
    let one = &mut piece[..1];
    hear_listed(lines, loud, p, lookahead, far, u, one);
    one[0]
}

/// Whether a sender goes on with what it emits, by its phases before and after a half bit: with the same sending, or
/// with none.
fn goes_on(was: Phase, now: Phase) -> bool
    ensures { result ≡ true → (now ≡ was) ⊎ ((is_sending_in was ≡ false) × (is_sending_in now ≡ false)) }
{
    if was == now {
        return true;
    }
    !matches!(was, Phase::Sending { .. }) && !matches!(now, Phase::Sending { .. })
}

/// The line of a station that emitted this symbol in half bit `u` is told anew from there on. It answers up to which half
/// bit it has what the station emits.
fn tell_anew(u: u64, said: Sym, sender: &Transmitter, line: &mut Line, piece: &mut [Sym]) -> u64
    requires time { sender.now.t ≡ u + 1 }
    requires in_time { u < most_half_bits }
    requires piece { most_told ≤ length piece.old }
    requires line { TellsUpTo u (u + 1 + most_told) line.old }
    requires reaches { goes_on_with line.old ≡ true → u ≤ line.old.base + length line.old.symbols }
    requires class { is_signal_of said ≡ is_sending_in sender.now.phase }
    ensures { IsAnew u result said line.old line.new sender.now }
{
    line.set_end(u);
    line.push(said);
    let next = u + 1;
    if !is_sending(sender) {
        line.rest(1);
        return u64::MAX;
    }
    let most = (MOST_HALF_BITS - next).min(AHEAD) as u32;
    next + u64::from(go_on_ahead(next, most, sender, line, piece))
}

/// From which half bit on the line of a station that was told anew in half bit `u` has Idle in the place of a signal, or
/// a signal in the place of Idle, by its phase before: from that one on, if it has.
fn changes_from(u: u64, was: Phase, sender: &Transmitter) -> Option<u64>
    ensures none { IfNone result (is_sending_in was ≡ is_sending_in sender.now.phase) }
    ensures at { IfSome result (λ f. f ≡ u) }
{
    if matches!(was, Phase::Sending { .. }) == is_sending(sender) {
        None
    } else {
        Some(u)
    }
}

/// Half bit `u` of station `p` of a segment, which is due in it. It answers from which half bit on its line has a signal
/// in the place of Idle, or Idle in the place of a signal, if it has. The device is counted among all.
fn step_one(
    of: &Segment,
    from: u64,
    u: u64,
    lines: &mut [Line],
    loud: &LoudTaps,
    p: usize,
    far: u64,
    watch: &mut Watch,
    sender: &mut Transmitter,
    receiver: &mut LateReceiver,
    teller: &mut Teller,
    room: &mut RowRoom,
    piece: &mut [Sym],
) -> Option<u64>
    requires tap { p < length lines.old }
    requires reach { IsReachOf far of.now.lookahead lines.old }
    requires loud { AreIdleButFor (u - far) lines.old loud.now.taps }
    requires station { p < length of.now.stations.items }
    requires captures { p < length room.old.captures }
    requires in_time { u < most_half_bits }
    requires piece { most_told ≤ length piece.old }
    requires apart { StandsApart of.now from u p lines.old watch.old sender.old receiver.old }
    requires since { watch.old.since ≡ u }
    requires due { watch.old.until ≡ u }
    requires hears { heard of.now.plan.value (number_on of.now p) u ≡ heard_by_lines of.now.lookahead u lines.old p }
    requires classes { (a : ℕ) → a < u →
        class_on (slice_index_or lines.old p no_line) a ≡ is_signal_of (symbol_on (slice_index_or lines.old p no_line) a) }
    requires line { TellsUpTo u (u + 1 + most_told) (slice_index_or lines.old p no_line) }
    requires room { Covers (both_demands (sender_demand 1 sender.old) (receiver_demand 1 receiver.old)) room.old }
    ensures apart { StandsApart of.now from (u + 1) p lines.new watch.new sender.new receiver.new }
    ensures since { watch.new.since ≡ u + 1 }
    ensures until { watch.new.until ≡ u + 1 }
    ensures says { SaysOf of.now.plan.value (number_on of.now p) u (slice_index_or lines.new p no_line) }
    ensures line { IsToldAnew u (slice_index_or lines.old p no_line) (slice_index_or lines.new p no_line) }
    ensures others { (r : ℕ) (d : TapLine) → r ≢ p → slice_index_or lines.new r d ≡ slice_index_or lines.old r d }
    ensures changed { IfSome result (λ f. f ≡ u) }
    ensures alike { IfNone result ((a : ℕ) → class_on (slice_index_or lines.new p no_line) a ≡ class_on (slice_index_or lines.old p no_line) a) }
    ensures rows { room.new.rows ≡ (room.old.rows
        ++ row_of u (number_on of.now p) (sent_event of.now.plan.value (number_on of.now p) u))
        ++ row_of u (number_on of.now p) (heard_reception of.now.plan.value (number_on of.now p) u).event }
    ensures captures { room.new.captures ≡ captures_with p
        (taken_by u (heard_reception of.now.plan.value (number_on of.now p) u).event (heard_reception of.now.plan.value (number_on of.now p) u).octets) room.old.captures }
    ensures left { (e : ℕ) (other : Demand) → u < e →
        Covers (both_demands other (behind_demand e watch.old sender.old receiver.old)) room.old →
        Covers (both_demands other (behind_demand e watch.new sender.new receiver.new)) room.new }
{
    let _ = from;
    let heard = heard_now(u, lines, loud, p, of.lookahead, far, piece);
    let was = sender.phase();
    let device = of.stations[p];
    let emitted = step_station(u, p, device, heard, sender, receiver, teller, room);
    watch.since = u + 1;
    watch.until = u + 1;
    watch.carrier = heard != Sym::Idle;
    let before = watch.told;
    if u < before && goes_on(was, sender.phase()) {
        return None;
    }
    watch.told = tell_anew(u, emitted, sender, &mut lines[p], piece);
    changes_from(u, was, sender)
}

/// Half bit `u` of station `p` of a segment, which is due in it.
fn take_turn(
    of: &Segment,
    window: u64,
    from: u64,
    u: u64,
    lines: &mut [Line],
    loud: &LoudTaps,
    late: &LoudTaps,
    p: usize,
    far: u64,
    watch: &mut Watch,
    sender: &mut Transmitter,
    receiver: &mut LateReceiver,
    teller: &mut Teller,
    room: &mut RowRoom,
    piece: &mut [Sym],
) -> Option<u64>
    requires reach { IsReachOf far of.now.lookahead lines.old }
    requires loud { AreIdleButFor (u - far) lines.old loud.now.taps }
    requires late { AreIdleButFor (from - far) lines.old late.now.taps }
    requires station { p < length of.now.stations.items }
    requires captures { p < length room.old.captures }
    requires ahead { u < (window + 1) * of.now.lookahead }
    requires in_time { u < most_half_bits }
    requires piece { most_told ≤ length piece.old }
    requires apart { StandsApart of.now from u p lines.old watch.old sender.old receiver.old }
    requires know { KnowLines of.now.plan.value (wiring of.now.plan.value.layout of.now.number) of.now.lookahead u ((window + 1) * of.now.lookahead) lines.old }
    requires right { HearsByLines of.now.plan.value (number_on of.now p) p of.now.lookahead from u lines.old }
    requires line { TellsUpTo u (u + 1 + most_told) (slice_index_or lines.old p no_line) }
    requires room { Covers (behind_demand (u + 1) watch.old sender.old receiver.old) room.old }
    ensures apart { StandsApart of.now from (u + 1) p lines.new watch.new sender.new receiver.new }
    ensures still { watch.new.since < watch.new.until → IsStillBy watch.new sender.new receiver.new }
    ensures says { SaysOf of.now.plan.value (number_on of.now p) u (slice_index_or lines.new p no_line) }
    ensures line { IsToldAnew u (slice_index_or lines.old p no_line) (slice_index_or lines.new p no_line) }
    ensures others { (r : ℕ) (d : TapLine) → r ≢ p → slice_index_or lines.new r d ≡ slice_index_or lines.old r d }
    ensures due { IfSome result (λ f. watch.new.until ≡ watch.new.since) }
    ensures changed { IfSome result (λ f. f ≡ u) }
    ensures alike { IfNone result ((a : ℕ) → class_on (slice_index_or lines.new p no_line) a ≡ class_on (slice_index_or lines.old p no_line) a) }
    ensures rows { room.new.rows ≡ (room.old.rows
        ++ row_of u (number_on of.now p) (sent_event of.now.plan.value (number_on of.now p) u))
        ++ row_of u (number_on of.now p) (heard_reception of.now.plan.value (number_on of.now p) u).event }
    ensures captures { room.new.captures ≡ captures_with p
        (taken_by u (heard_reception of.now.plan.value (number_on of.now p) u).event (heard_reception of.now.plan.value (number_on of.now p) u).octets) room.old.captures }
    ensures left { (e : ℕ) (other : Demand) → u < e →
        Covers (both_demands other (behind_demand e watch.old sender.old receiver.old)) room.old →
        Covers (both_demands other (behind_demand e watch.new sender.new receiver.new)) room.new }
{
    let _ = window;
    look_one(
        of, from, u, lines, loud, late, p, far, watch, sender, receiver, piece,
    );
    if watch.until > u {
        end_one(of, from, u, lines, p, watch, sender, receiver, teller, room);
        return None;
    }
    step_one(
        of, from, u, lines, loud, p, far, watch, sender, receiver, teller, room, piece,
    )
}

/// The line of tap `p` has from half bit `u` on a signal in the place of Idle, or Idle in the place of a signal: no
/// station goes on beyond the half bit in which it hears that.
pub fn lower_all(u: u64, lookahead: u32, lines: &[Line], p: usize, watches: &mut [Watch])
    requires tap { p < length lines.now }
    requires taps { length watches.old ≤ length lines.now }
    requires in_time { (k : ℕ) (d : Watch) → k < length watches.old → (slice_index_or watches.old k d).until < 2 ^ 64 }
    ensures { (k : ℕ) (d : Watch) → k < length watches.new → slice_index_or watches.new k d
        ≡ lowered_watch (u + half_bits_back lookahead (slice_index_or lines.now k no_line).at (slice_index_or lines.now p no_line)) (slice_index_or watches.old k d) }
{
    for k in 0..watches.len() {
        let back = lines[p].back(lines[k].place(), lookahead);
        let watch = &mut watches[k];
        watch.until = watch.until.min(u.saturating_add(back).max(watch.since));
    }
}

/// The first station from `from` on that is due in half bit `u`, or else how many there are.
fn next_due(watches: &[Watch], from: usize, u: u64) -> usize
    requires { from ≤ length watches.now }
    ensures from { from ≤ result }
    ensures within { result ≤ length watches.now }
    ensures later { (i : ℕ) (w : Watch) → from ≤ i → i < result → u < (slice_index_or watches.now i w).until }
    ensures due { (w : Watch) → result < length watches.now → (slice_index_or watches.now result w).until ≤ u }
{
    for k in from..watches.len() {
        if watches[k].until <= u {
            return k;
        }
    }
    watches.len()
}

/// The lines that sound are listed: those that stations may hear which stand behind from half bit `from` on, and among
/// them those that any tap may hear from half bit `t` on.
pub fn list_taps(
    lines: &[Line],
    from: u64,
    t: u64,
    far: u64,
    loud: &mut LoudTaps,
    late: &mut LoudTaps,
)
    requires begun { from ≤ t }
    requires loud_room { length lines.now ≤ loud.old.room }
    requires late_room { length lines.now ≤ late.old.room }
    ensures loud { AreIdleButFor (t - far) lines.now loud.new.taps }
    ensures late { AreIdleButFor (from - far) lines.now late.new.taps }
    ensures loud_room { loud.new.room ≡ loud.old.room }
    ensures late_room { late.new.room ≡ late.old.room }
{
    late.find(lines, from.saturating_sub(far));
    loud.find_among(lines, t.saturating_sub(far), late);
}

/// Half bit `u` of the stations of a segment: those that are due in it have their turn, one after another.
pub fn step_all(
    of: &Segment,
    window: u64,
    from: u64,
    t: u64,
    u: u64,
    lines: &mut [Line],
    loud: &mut LoudTaps,
    late: &mut LoudTaps,
    far: u64,
    watches: &mut [Watch],
    senders: &mut [Transmitter],
    receivers: &mut [LateReceiver],
    teller: &mut Teller,
    room: &mut RowRoom,
    piece: &mut [Sym],
)
    requires reach { IsReachOf far of.now.lookahead lines.old }
    requires loud { AreIdleButFor (t - far) lines.old loud.old.taps }
    requires late { AreIdleButFor (from - far) lines.old late.old.taps }
    requires loud_room { length lines.old ≤ loud.old.room }
    requires late_room { length lines.old ≤ late.old.room }
    requires begun { from ≤ t }
    requires after { t ≤ u }
    requires ahead { u < (window + 1) * of.now.lookahead }
    requires in_time { u < most_half_bits }
    requires piece { most_told ≤ length piece.old }
    requires apart { StandAllApart of.now from u lines.old watches.old senders.old receivers.old }
    requires still { AreStill of.now watches.old senders.old receivers.old }
    requires know { KnowLines of.now.plan.value (wiring of.now.plan.value.layout of.now.number) of.now.lookahead u ((window + 1) * of.now.lookahead) lines.old }
    requires right { HearAllByLines of.now from u lines.old }
    requires tell { (r : ℕ) → r < length of.now.stations.items → TellsUpTo u (u + 1 + most_told) (slice_index_or lines.old r no_line) }
    requires captures { length room.old.captures ≡ length of.now.stations.items }
    requires room { CoversApart (u + 1) (length of.now.stations.items) watches.old senders.old receivers.old room.old }
    ensures apart { StandAllApart of.now from (u + 1) lines.new watches.new senders.new receivers.new }
    ensures still { AreStill of.now watches.new senders.new receivers.new }
    ensures know { KnowLines of.now.plan.value (wiring of.now.plan.value.layout of.now.number) of.now.lookahead (u + 1) ((window + 1) * of.now.lookahead) lines.new }
    ensures right { HearAllByLines of.now from (u + 1) lines.new }
    ensures lines { AreToldAnew u (length of.now.stations.items) lines.old lines.new }
    ensures loud { AreIdleButFor (t - far) lines.new loud.new.taps }
    ensures late { AreIdleButFor (from - far) lines.new late.new.taps }
    ensures loud_room { loud.new.room ≡ loud.old.room }
    ensures late_room { late.new.room ≡ late.old.room }
    ensures rows { room.new.rows ≡ room.old.rows ++ rows_of_both u of.now.stations.items (λ i. sent_event of.now.plan.value (number_on of.now i) u)
        (λ i. (heard_reception of.now.plan.value (number_on of.now i) u).event) (length of.now.stations.items) }
    ensures captures { (i : ℕ) → i < length of.now.stations.items → slice_index_or room.new.captures i [] ≡ slice_index_or room.old.captures i [] ++
        taken_by u (heard_reception of.now.plan.value (number_on of.now i) u).event (heard_reception of.now.plan.value (number_on of.now i) u).octets }
    ensures stations { length room.new.captures ≡ length room.old.captures }
    ensures left { (e : ℕ) → u < e →
        CoversApart e (length of.now.stations.items) watches.old senders.old receivers.old room.old →
        CoversApart e (length of.now.stations.items) watches.new senders.new receivers.new room.new }
{
    let mut k = next_due(watches, 0, u);
    while k < senders.len() {
        let watch = &mut watches[k];
        let sender = &mut senders[k];
        let receiver = &mut receivers[k];
        let Some(at) = take_turn(
            of, window, from, u, lines, loud, late, k, far, watch, sender, receiver, teller, room,
            piece,
        ) else {
            k = next_due(watches, k + 1, u);
            continue;
        };
        list_taps(lines, from, t, far, loud, late);
        lower_all(at, of.lookahead, lines, k, watches);
        k = next_due(watches, k + 1, u);
    }
}
