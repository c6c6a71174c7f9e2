//! Several half bits at once in which all stations go on with what they emit. Each of them goes from one change of what
//! it hears to the next by itself: between them it stands behind.
ghost use Rattle.std.specs.Prelude.{◌≡◌, ◌≢◌, ◌≤◌, ◌<◌, ◌+◌, ◌-◌, ◌++◌, ◌*◌, ◌^◌, ℕ, [], true, false, All, length, map, slice_index_or};
ghost use Rattle.mac_parameters.specs.Parameters.{most_half_bits};
ghost use Rattle.manchester_line.specs.Line.{is_signal as is_signal_of};
ghost use Rattle.mac_receive.specs.KeptReceiver.{KeptReception, Hears, IsReceiver};
ghost use Rattle.mac_receive.specs.Receiver.{Receiving, receiver_after, receiver_bodies};
ghost use Rattle.mac_transmit.specs.Sender.{Sender, is_sending as is_sending_in};
ghost use Rattle.network.specs.Captures.{taken_by};
ghost use Rattle.network.specs.Rows.{row_of};
ghost use Rattle.net_parts.specs.SegmentParts.{wiring};
ghost use Rattle.net_parts.specs.Standing.{captures_at, rows_of_devices};
ghost use Rattle.segment_engine.specs.KnownLines.{KnowLines};
ghost use Rattle.segment_engine.specs.PartStates.{half_filled};
ghost use Rattle.segment_engine.specs.QuietHalfBits.{IsQuietFor};
ghost use Rattle.segment_engine.specs.RunningStates.{GoesOnAt, IsRunningAt};
ghost use Rattle.segment_engine.specs.SteadyPieces.{IsCalmAs};
ghost use Rattle.segment_engine.specs.StationsApart.{StandsBehind, StandsApart, StandAllApart, AreStill, AreToldAnew, EndsAt, IsStillBy, HearsByLines, HearAllByLines, TellsUpTo, CoversApart, behind_demand, heard_reception, most_told, number_on};
ghost use Rattle.tap_lines.specs.TapLines.{IsReachOf, TapLine, class_by_lines, forgotten, heard_by_lines, heard_for, line_extended, no_line};
ghost use Rattle.tap_lines.specs.TapLists.{AreIdleButFor, HearsListed};
ghost use Rattle.window_room.specs.NeededRoom.{Covers, Demand, IsDemandWithin, both_demands, receiver_demand, sender_demand, stations_demand};
ghost use Rattle.window_room.specs.Rooms.{Room, captures_with};

use crate::due::{list_taps, lower_all, step_all};
use crate::quiet::{before_change, is_sending};
use crate::running::Running;
use crate::segment::Segment;
use crate::steady::put_first;
use mac_transmit::Transmitter;
use manchester_line::Sym;
use net_parts::Parcel;
use reception_laws::{LateReceiver, Teller};
use tap_lines::{Line, LoudTaps, are_idle_from, class_ahead, hear_listed, piece_of};
use window_room::RowRoom;

/// A station that stands before half bit `since`: up to half bit `until` it hears a signal in each, or Idle in each, as
/// `carrier` says, and goes on with what it does. Below half bit `told` its line has what it emits if nothing happens.
#[derive(Clone, Copy)]
pub struct Watch {
    pub since: u64,
    pub until: u64,
    pub carrier: bool,
    pub told: u64,
}

/// The half bits from `t` on of a receiver, tap `p`, as many as the piece has, in which no reception ends.
fn hear_on(
    t: u64,
    lines: &[Line],
    late: &LoudTaps,
    p: usize,
    lookahead: u32,
    far: u64,
    sending: bool,
    carrier: bool,
    receiver: &mut LateReceiver,
    piece: &mut [Sym],
)
    requires tap { p < length lines.now }
    requires reach { IsReachOf far lookahead lines.now }
    requires late { AreIdleButFor (t - far) lines.now late.now.taps }
    requires steps { receiver.old.steps ≡ t }
    requires in_time { t + length piece.old ≤ most_half_bits }
    requires rest { carrier ≡ false → sending ≡ false → receiver.old.halves ≡ 0 }
    requires steady { (j : ℕ) → j < length piece.old → is_signal_of (heard_by_lines lookahead (t + j) lines.now p) ≡ carrier }
    ensures state { (r : Receiving) → Hears r receiver.old →
        Hears (receiver_after r (heard_for lookahead t (length piece.old) lines.now p) sending) receiver.new }
    ensures steps { receiver.new.steps ≡ t + length piece.old }
{
    let count = piece.len() as u64;
    if sending {
        receiver.leap_sending(count);
    } else if !carrier {
        receiver.leap_quiet(count);
    } else if receiver.is_deaf() {
        receiver.leap_deaf(count);
    } else {
        let source = late.only_from(lines, t.saturating_sub(far));
        if let Some(heard) = piece_of(lines, source, p, lookahead, far, t, piece.len()) {
            receiver.take(heard);
        } else {
            hear_listed(lines, late, p, lookahead, far, t, piece);
            receiver.take(piece);
        }
    }
}

/// Station `p` of a segment, which stands behind in half bits from `t` on, goes on up to half bit `u`.
fn bring_one(
    of: &Segment,
    from: u64,
    u: u64,
    lines: &[Line],
    late: &LoudTaps,
    p: usize,
    far: u64,
    watch: &mut Watch,
    sender: &mut Transmitter,
    receiver: &mut LateReceiver,
    piece: &mut [Sym],
)
    requires tap { p < length lines.now }
    requires reach { IsReachOf far of.now.lookahead lines.now }
    requires late { AreIdleButFor (from - far) lines.now late.now.taps }
    requires station { p < length of.now.stations.items }
    requires since { watch.old.since ≤ u }
    requires until { u ≤ watch.old.until }
    requires in_time { u ≤ most_half_bits }
    requires piece { u ≤ watch.old.since + length piece.old }
    requires behind { StandsBehind of.now.plan.value (number_on of.now p) p of.now.lookahead from lines.now watch.old sender.old receiver.old }
    requires still { watch.old.since < u → IsStillBy watch.old sender.old receiver.old }
    requires right { HearsByLines of.now.plan.value (number_on of.now p) p of.now.lookahead from u lines.now }
    ensures behind { StandsBehind of.now.plan.value (number_on of.now p) p of.now.lookahead from lines.now watch.new sender.new receiver.new }
    ensures since { watch.new.since ≡ u }
    ensures until { watch.new.until ≡ watch.old.until }
    ensures carrier { watch.new.carrier ≡ watch.old.carrier }
    ensures still { IsStillBy watch.old sender.old receiver.old → IsStillBy watch.new sender.new receiver.new }
    ensures left { (e : ℕ) → u ≤ e → IsDemandWithin (behind_demand e watch.new sender.new receiver.new) (behind_demand e watch.old sender.old receiver.old) }
{
    let _ = from;
    let since = watch.since;
    let count = u - since;
    if count == 0 {
        return;
    }
    let sending = is_sending(sender);
    let carrier = watch.carrier;
    let lookahead = of.lookahead;
    let part = &mut piece[..count as usize];
    hear_on(
        since, lines, late, p, lookahead, far, sending, carrier, receiver, part,
    );
    sender.pass(since, count, carrier);
    watch.since = u;
}

/// All stations of a segment go on up to half bit `u`.
fn bring_all(
    of: &Segment,
    from: u64,
    u: u64,
    lines: &[Line],
    late: &LoudTaps,
    far: u64,
    watches: &mut [Watch],
    senders: &mut [Transmitter],
    receivers: &mut [LateReceiver],
    piece: &mut [Sym],
)
    requires reach { IsReachOf far of.now.lookahead lines.now }
    requires late { AreIdleButFor (from - far) lines.now late.now.taps }
    requires in_time { u ≤ most_half_bits }
    requires piece { most_told ≤ length piece.old }
    requires apart { StandAllApart of.now from u lines.now watches.old senders.old receivers.old }
    requires still { AreStill of.now watches.old senders.old receivers.old }
    requires right { HearAllByLines of.now from u lines.now }
    ensures apart { StandAllApart of.now from u lines.now watches.new senders.new receivers.new }
    ensures still { AreStill of.now watches.new senders.new receivers.new }
    ensures since { (i : ℕ) (w : Watch) → i < length of.now.stations.items → (slice_index_or watches.new i w).since ≡ u }
    ensures left { (e : ℕ) (room : Room) → u ≤ e →
        CoversApart e (length of.now.stations.items) watches.old senders.old receivers.old room →
        CoversApart e (length of.now.stations.items) watches.new senders.new receivers.new room }
{
    for k in 0..senders.len() {
        let watch = &mut watches[k];
        let sender = &mut senders[k];
        let receiver = &mut receivers[k];
        bring_one(
            of, from, u, lines, late, k, far, watch, sender, receiver, piece,
        );
    }
}

/// The half bits that are told or looked ahead at most.
pub const AHEAD: u64 = 4_096;

/// The half bits that stations may stand behind, beyond a window.
pub const KEEP: u64 = 2_048;

/// The watch of a station from half bit `u` on, which hears a signal in each of so many half bits, or Idle in each.
fn calm_watch(u: u64, carrier: bool, steady: usize, told: u64, sender: &Transmitter) -> Watch
    requires time { u ≡ sender.now.t }
    requires in_time { u < most_half_bits }
    requires fits { u + steady < 2 ^ 64 }
    ensures since { result.since ≡ u }
    ensures carrier { result.carrier ≡ carrier }
    ensures told { result.told ≡ told }
    ensures from { u ≤ result.until }
    ensures within { result.until ≤ u + steady }
    ensures longest { (n : ℕ) → n ≤ steady → IsCalmAs n carrier sender.now → u + n ≤ result.until }
    ensures calm { IsCalmAs (result.until - u) carrier sender.now }
{
    let calm = before_change(sender, u, carrier, steady as u64);
    Watch {
        since: u,
        until: u + calm,
        carrier,
        told,
    }
}

/// The watch of a station, tap `p`, from half bit `u` on, for at most so many half bits. Whether it hears a signal then, as
/// `likely` says, is tried first.
fn watch_from(
    u: u64,
    lines: &[Line],
    loud: &LoudTaps,
    p: usize,
    lookahead: u32,
    far: u64,
    most: usize,
    likely: bool,
    told: u64,
    sender: &Transmitter,
) -> Watch
    requires listed { HearsListed p lookahead far u most lines.now loud.now.taps }
    requires time { u ≡ sender.now.t }
    requires in_time { u < most_half_bits }
    ensures since { result.since ≡ u }
    ensures told { result.told ≡ told }
    ensures from { u ≤ result.until }
    ensures within { result.until ≤ u + most }
    ensures now { 0 < most → class_by_lines lookahead u lines.now p ≡ result.carrier }
    ensures longest { (n : ℕ) → n ≤ most → ((j : ℕ) → j < n → class_by_lines lookahead (u + j) lines.now p ≡ result.carrier) →
        IsCalmAs n result.carrier sender.now → u + n ≤ result.until }
    ensures calm { IsCalmAs (result.until - u) result.carrier sender.now }
    ensures steady { (j : ℕ) → u + j < result.until → class_by_lines lookahead (u + j) lines.now p ≡ result.carrier }
{
    let ahead = class_ahead(lines, loud, p, lookahead, far, u, most, likely);
    if ahead > 0 {
        return calm_watch(u, likely, ahead, told, sender);
    }
    let other = class_ahead(lines, loud, p, lookahead, far, u, most, !likely);
    calm_watch(u, !likely, other, told, sender)
}

/// Station `p` of a segment, which is due in half bit `u`, goes on up to it and is looked at.
pub fn look_one(
    of: &Segment,
    from: u64,
    u: u64,
    lines: &[Line],
    loud: &LoudTaps,
    late: &LoudTaps,
    p: usize,
    far: u64,
    watch: &mut Watch,
    sender: &mut Transmitter,
    receiver: &mut LateReceiver,
    piece: &mut [Sym],
)
    requires tap { p < length lines.now }
    requires reach { IsReachOf far of.now.lookahead lines.now }
    requires loud { AreIdleButFor (u - far) lines.now loud.now.taps }
    requires late { AreIdleButFor (from - far) lines.now late.now.taps }
    requires station { p < length of.now.stations.items }
    requires in_time { u < most_half_bits }
    requires piece { most_told ≤ length piece.old }
    requires apart { StandsApart of.now from u p lines.now watch.old sender.old receiver.old }
    requires right { HearsByLines of.now.plan.value (number_on of.now p) p of.now.lookahead from u lines.now }
    ensures apart { StandsApart of.now from u p lines.now watch.new sender.new receiver.new }
    ensures since { watch.new.since ≡ u }
    ensures left { (e : ℕ) → u ≤ e → IsDemandWithin (behind_demand e watch.new sender.new receiver.new) (behind_demand e watch.old sender.old receiver.old) }
{
    bring_one(
        of, from, u, lines, late, p, far, watch, sender, receiver, piece,
    );
    let told = watch.told;
    let most = told.saturating_sub(u).min(AHEAD) as usize;
    let likely = !watch.carrier;
    let lookahead = of.lookahead;
    *watch = watch_from(
        u, lines, loud, p, lookahead, far, most, likely, told, sender,
    );
}

/// Whether a reception ends in half bit `u` at a station that stands before it.
fn ends_at(u: u64, watch: &Watch, sender: &Transmitter, receiver: &LateReceiver) -> bool
    ensures ends { result ≡ true → EndsAt u watch.now sender.now }
    ensures other { result ≡ false → watch.now.since ≡ u → IsStillBy watch.now sender.now receiver.now }
{
    watch.since == u && !watch.carrier && !is_sending(sender) && receiver.is_receiving()
}

/// Half bit `u` of the receiver of station `p` of a segment where a reception ends in it: the station goes on to the next
/// half bit. The device is counted among all.
pub fn end_one(
    of: &Segment,
    from: u64,
    u: u64,
    lines: &[Line],
    p: usize,
    watch: &mut Watch,
    sender: &mut Transmitter,
    receiver: &mut LateReceiver,
    teller: &mut Teller,
    room: &mut RowRoom,
)
    requires station { p < length of.now.stations.items }
    requires captures { p < length room.old.captures }
    requires in_time { u < most_half_bits }
    requires apart { StandsApart of.now from u p lines.now watch.old sender.old receiver.old }
    requires on { u < watch.old.until }
    requires right { HearsByLines of.now.plan.value (number_on of.now p) p of.now.lookahead from (u + 1) lines.now }
    requires room { Covers (receiver_demand 1 receiver.old) room.old }
    ensures apart { StandsApart of.now from (u + 1) p lines.now watch.new sender.new receiver.new }
    ensures still { IsStillBy watch.new sender.new receiver.new }
    ensures rows { room.new.rows ≡ room.old.rows ++ row_of u (number_on of.now p) (heard_reception of.now.plan.value (number_on of.now p) u).event }
    ensures captures { room.new.captures ≡ captures_with p
        (taken_by u (heard_reception of.now.plan.value (number_on of.now p) u).event (heard_reception of.now.plan.value (number_on of.now p) u).octets) room.old.captures }
    ensures left { (e : ℕ) (other : Demand) → u < e →
        Covers (both_demands other (behind_demand e watch.old sender.old receiver.old)) room.old →
        Covers (both_demands other (behind_demand e watch.new sender.new receiver.new)) room.new }
{
    let _ = from;
    let _ = lines;
    if !ends_at(u, watch, sender, receiver) {
        return;
    }
    let device = of.stations[p];
    receiver.receive(teller, room, p, u, device, Sym::Idle, false);
    sender.pass(u, 1, false);
    watch.since = u + 1;
}

/// The first half bit in which a station is due, at most `end`.
pub fn first_due(watches: &[Watch], end: u64) -> u64
    ensures within { result ≤ end }
    ensures first { (i : ℕ) (w : Watch) → i < length watches.now → result ≤ (slice_index_or watches.now i w).until }
    ensures due { (u : ℕ) → u ≤ end → ((i : ℕ) (w : Watch) → i < length watches.now → u ≤ (slice_index_or watches.now i w).until) → u ≤ result }
{
    let mut due = end;
    for watch in watches {
        due = due.min(watch.until);
    }
    due
}

/// What came in for a port, tap `r`, in the half bits from `t` on is put on its line, which ended there. No station goes on
/// beyond the half bit in which it hears a signal of it in the place of Idle, or Idle in the place of a signal.
fn arrive_one(
    of: &Segment,
    t: u64,
    r: usize,
    symbols: &[Sym],
    lines: &mut [Line],
    watches: &mut [Watch],
)
    requires tap { r < length lines.old }
    requires taps { length watches.old ≤ length lines.old }
    requires ended { (slice_index_or lines.old r no_line).base + length (slice_index_or lines.old r no_line).symbols ≡ t }
    requires room { length symbols.now ≤ (slice_index_or lines.old r no_line).room }
    requires in_time { t + length symbols.now < 2 ^ 64 }
    requires watched { (i : ℕ) (w : Watch) → i < length watches.old → (slice_index_or watches.old i w).until < 2 ^ 64 }
    ensures line { slice_index_or lines.new r no_line ≡ line_extended (slice_index_or lines.old r no_line) symbols.now }
    ensures others { (q : ℕ) (l : TapLine) → q ≢ r → slice_index_or lines.new q l ≡ slice_index_or lines.old q l }
    ensures stands { (from i : ℕ) (w : Watch) (s : Sender) (k : KeptReception) → i < length watches.old → i ≢ r →
        StandsApart of.now from t i lines.old (slice_index_or watches.old i w) s k →
        StandsApart of.now from t i lines.new (slice_index_or watches.new i w) s k }
    ensures since { (i : ℕ) (w : Watch) → i < length watches.old → (slice_index_or watches.new i w).since ≡ (slice_index_or watches.old i w).since }
    ensures carrier { (i : ℕ) (w : Watch) → i < length watches.old → (slice_index_or watches.new i w).carrier ≡ (slice_index_or watches.old i w).carrier }
    ensures until { (i : ℕ) (w : Watch) → i < length watches.old → (slice_index_or watches.new i w).until ≤ (slice_index_or watches.old i w).until }
{
    let line = &mut lines[r];
    let same = line.alike_first(symbols);
    if same == symbols.len() {
        line.go_on(symbols);
        return;
    }
    line.extend(symbols);
    lower_all(t + same as u64, of.lookahead, lines, r, watches);
}

/// What came in for the ports in a window is put on their lines.
pub fn arrive(of: &Segment, window: u64, state: &mut Running, parcels: &[Parcel])
    requires at { IsRunningAt of.now (window * of.now.lookahead) state.old }
    requires time { state.old.t ≡ window * of.now.lookahead }
    requires in_time { state.old.t < most_half_bits }
    requires parcels { parcels.now
        ≡ map (half_filled of.now.plan.value of.now.lookahead window 0) (wiring of.now.plan.value.layout of.now.number).edges }
    ensures at { IsRunningAt of.now ((window + 1) * of.now.lookahead) state.new }
    ensures time { state.new.t ≡ state.old.t }
    ensures from { state.new.from ≡ state.old.from }
    ensures since { (i : ℕ) (w : Watch) → i < length of.now.stations.items → (slice_index_or state.new.watches.items i w).since ≡ (slice_index_or state.old.watches.items i w).since }
    ensures senders { state.new.senders ≡ state.old.senders }
    ensures receivers { state.new.receivers ≡ state.old.receivers }
    ensures room { state.new.room ≡ state.old.room }
{
    let _ = window;
    let t = state.t;
    let from = of.stations.len();
    let lines: &mut [Line] = &mut state.lines;
    let watches: &mut [Watch] = &mut state.watches;
    for p in 0..parcels.len() {
        arrive_one(
            of,
            t,
            from + p,
            parcels[p].symbols.as_slice(),
            lines,
            watches,
        );
    }
}

/// The half bits after which a quiet segment is settled.
const SOME: u64 = 256;

/// All stations go on up to the end of a window where they stand far behind, or nothing sounds any more.
pub fn settle_if_due(of: &Segment, front: u64, last: bool, state: &mut Running)
    requires goes { GoesOnAt of.now front state.old }
    requires in_time { state.old.t ≤ most_half_bits }
    ensures at { IsRunningAt of.now front state.new }
    ensures time { state.new.t ≡ state.old.t }
    ensures last { last ≡ true → state.new.from ≡ state.new.t }
    ensures room { state.new.room ≡ state.old.room }
{
    let behind = state.t - state.from;
    if last
        || behind > KEEP
        || (behind >= SOME && are_idle_from(&state.lines, state.t.saturating_sub(state.far)))
    {
        settle(of, front, state);
    }
}

/// The lines have come to half bit `t`, and forget what is further back than they must keep.
pub fn forget_all(t: u64, lines: &mut [Line])
    requires in_time { (r : ℕ) (d : TapLine) → r < length lines.old →
        (slice_index_or lines.old r d).base + length (slice_index_or lines.old r d).symbols < 2 ^ 64 }
    requires keeps { (r : ℕ) (d : TapLine) → r < length lines.old →
        (slice_index_or lines.old r d).backlog ≤ length (slice_index_or lines.old r d).symbols + (slice_index_or lines.old r d).room }
    ensures { (r : ℕ) (d : TapLine) → r < length lines.new → slice_index_or lines.new r d ≡ forgotten t (slice_index_or lines.old r d) }
{
    for line in lines.iter_mut() {
        line.forget(t);
    }
}

/// All stations go on up to the present half bit, if they stand behind, and what their lines needn't keep is forgotten.
pub fn settle(of: &Segment, front: u64, state: &mut Running)
    requires goes { GoesOnAt of.now front state.old }
    requires in_time { state.old.t ≤ most_half_bits }
    ensures goes { GoesOnAt of.now front state.new }
    ensures time { state.new.t ≡ state.old.t }
    ensures from { state.new.from ≡ state.new.t }
    ensures room { state.new.room ≡ state.old.room }
    ensures quiet { (n : ℕ) → IsQuietFor n state.old → IsQuietFor n state.new }
{
    let _ = front;
    let t = state.t;
    let from = state.from;
    if from == t {
        return;
    }
    let far = state.far;
    state.late.find(&state.lines, from.saturating_sub(far));
    let watches: &mut [Watch] = &mut state.watches;
    let senders: &mut [Transmitter] = &mut state.senders;
    let receivers: &mut [LateReceiver] = &mut state.receivers;
    let piece: &mut [Sym] = &mut state.piece;
    bring_all(
        of,
        from,
        t,
        &state.lines,
        &state.late,
        far,
        watches,
        senders,
        receivers,
        piece,
    );
    forget_all(t, &mut state.lines);
    state.from = t;
}

/// The half bits of a segment from `t` on below `end`: each station goes from one half bit in which something happens at
/// it to the next by itself. They stand behind from half bit `from` on.
fn run_apart(
    of: &Segment,
    window: u64,
    from: u64,
    t: u64,
    end: u64,
    lines: &mut [Line],
    loud: &mut LoudTaps,
    late: &mut LoudTaps,
    far: u64,
    watches: &mut [Watch],
    senders: &mut [Transmitter],
    receivers: &mut [LateReceiver],
    piece: &mut [Sym],
    teller: &mut Teller,
    room: &mut RowRoom,
)
    requires reach { IsReachOf far of.now.lookahead lines.old }
    requires loud { AreIdleButFor (t - far) lines.old loud.old.taps }
    requires late { AreIdleButFor (from - far) lines.old late.old.taps }
    requires loud_room { length lines.old ≤ loud.old.room }
    requires late_room { length lines.old ≤ late.old.room }
    requires begun { from ≤ t }
    requires upto { t ≤ end }
    requires ahead { end ≤ (window + 1) * of.now.lookahead }
    requires in_time { end ≤ most_half_bits }
    requires piece { most_told ≤ length piece.old }
    requires apart { StandAllApart of.now from t lines.old watches.old senders.old receivers.old }
    requires still { AreStill of.now watches.old senders.old receivers.old }
    requires know { KnowLines of.now.plan.value (wiring of.now.plan.value.layout of.now.number) of.now.lookahead t ((window + 1) * of.now.lookahead) lines.old }
    requires right { HearAllByLines of.now from t lines.old }
    requires tell { (r : ℕ) → r < length of.now.stations.items → TellsUpTo t (end + most_told) (slice_index_or lines.old r no_line) }
    requires room { CoversApart end (length of.now.stations.items) watches.old senders.old receivers.old room.old }
    requires logged { room.old.rows ≡ rows_of_devices of.now.plan.value of.now.stations.items t }
    requires kept { room.old.captures ≡ map (λ x. captures_at of.now.plan.value x t) of.now.stations.items }
    ensures apart { StandAllApart of.now from end lines.new watches.new senders.new receivers.new }
    ensures still { AreStill of.now watches.new senders.new receivers.new }
    ensures know { KnowLines of.now.plan.value (wiring of.now.plan.value.layout of.now.number) of.now.lookahead end ((window + 1) * of.now.lookahead) lines.new }
    ensures right { HearAllByLines of.now from end lines.new }
    ensures lines { AreToldAnew t (length of.now.stations.items) lines.old lines.new }
    ensures loud { AreIdleButFor (t - far) lines.new loud.new.taps }
    ensures loud_room { loud.new.room ≡ loud.old.room }
    ensures late_room { late.new.room ≡ late.old.room }
    ensures logged { room.new.rows ≡ rows_of_devices of.now.plan.value of.now.stations.items end }
    ensures kept { room.new.captures ≡ map (λ x. captures_at of.now.plan.value x end) of.now.stations.items }
    ensures left { (e : ℕ) → end ≤ e →
        CoversApart e (length of.now.stations.items) watches.old senders.old receivers.old room.old →
        CoversApart e (length of.now.stations.items) watches.new senders.new receivers.new room.new }
{
    let _ = window;
    let mut u = first_due(watches, end);
    while u < end {
        step_all(
            of, window, from, t, u, lines, loud, late, far, watches, senders, receivers, teller,
            room, piece,
        );
        u = first_due(watches, end);
    }
}

/// The half bits of a window of a segment: each station goes from one half bit in which something happens at it to the
/// next by itself.
pub fn go_apart(of: &Segment, window: u64, count: u32, state: &mut Running, parcels: &mut [Parcel])
    requires at { IsRunningAt of.now ((window + 1) * of.now.lookahead) state.old }
    requires time { state.old.t ≡ window * of.now.lookahead }
    requires within { count ≤ of.now.lookahead }
    requires in_time { state.old.t + count ≤ most_half_bits }
    requires parcels { parcels.old
        ≡ map (half_filled of.now.plan.value of.now.lookahead window 0) (wiring of.now.plan.value.layout of.now.number).edges }
    requires room { CoversApart (state.old.t + count) (length of.now.stations.items)
        state.old.watches.items state.old.senders.items state.old.receivers.items state.old.room }
    ensures goes { GoesOnAt of.now ((window + 1) * of.now.lookahead) state.new }
    ensures time { state.new.t ≡ state.old.t + count }
    ensures from { state.new.from ≡ state.old.from }
    ensures parcels { parcels.new
        ≡ map (half_filled of.now.plan.value of.now.lookahead window count) (wiring of.now.plan.value.layout of.now.number).edges }
    ensures left { (e : ℕ) → state.new.t ≤ e →
        CoversApart e (length of.now.stations.items) state.old.watches.items state.old.senders.items state.old.receivers.items state.old.room →
        CoversApart e (length of.now.stations.items) state.new.watches.items state.new.senders.items state.new.receivers.items state.new.room }
{
    let t = state.t;
    let from = state.from;
    let far = state.far;
    let lookahead = of.lookahead;
    let stations = of.stations.len();
    let end = t + u64::from(count);
    let watches: &mut [Watch] = &mut state.watches;
    let senders: &mut [Transmitter] = &mut state.senders;
    let receivers: &mut [LateReceiver] = &mut state.receivers;
    let piece: &mut [Sym] = &mut state.piece;
    let teller = &mut state.teller;
    let room = &mut state.room;
    let lines: &mut [Line] = &mut state.lines;
    let loud = &mut state.loud;
    let late = &mut state.late;
    list_taps(lines, from, t, far, loud, late);
    run_apart(
        of, window, from, t, end, lines, loud, late, far, watches, senders, receivers, piece,
        teller, room,
    );
    put_first(
        t,
        count as usize,
        lines,
        loud,
        stations,
        lookahead,
        far,
        parcels,
        piece,
    );
    state.t = end;
}
