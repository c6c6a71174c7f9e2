//! A segment before half bit 0.
ghost use Rattle.std.specs.Prelude.{◌≡◌, ◌<◌, ◌≤◌, ◌+◌, All, length, map, replicate, IfOk};
ghost use Rattle.network.specs.Attempts.{sender_at};
ghost use Rattle.net_parts.specs.SegmentParts.{wiring};
ghost use Rattle.net_parts.specs.Standing.{receiver_at};
ghost use Rattle.kept_devices.specs.KeptReceivers.{AllHear};
ghost use Rattle.segment_engine.specs.KnownLines.{KnowLines};
ghost use Rattle.segment_engine.specs.NewLines.{AreEmptyLines, AreNewLines, AreWithin, new_delay, new_watch};
ghost use Rattle.segment_engine.specs.RunningStates.{HaveRoomFrom, IsRunningAt};
ghost use Rattle.segment_engine.specs.StationsApart.{most_told};

use crate::apart::{AHEAD, KEEP, Watch};
use crate::running::Running;
use crate::segment::Segment;
use backoff_draw::Draws;
use layout::{delays_of, places_on, taps_of};
use lists::OutOfMemory;
use load_plan::Plan;
use mac_parameters::most_octets;
use mac_transmit::Transmitter;
use manchester_line::Sym;
use reception_laws::{LateReceiver, Teller};
use std::alloc::Global;
use tap_lines::{Line, LoudTaps, farthest};
use window_room::RowRoom;

/// Room to list the lines of a segment that sound, and for the symbols of a piece.
#[derive(Drop)]
struct Silence {
    loud: LoudTaps,
    late: LoudTaps,
    piece: Vec<Sym>,
}

/// The senders of these stations.
fn senders_of(alloc: Global, plan: &Plan, stations: &[u32]) -> Result<Vec<Transmitter>, OutOfMemory>
    requires { All (λ k. k < length plan.now.layout.stations) stations.now }
    ensures { IfOk result (λ senders. senders.items ≡ map (λ k. sender_at plan.now k 0) stations.now) }
{
    let queues = plan.queues.as_slice();
    let seed = plan.layout.seed;
    let mut senders = Vec::new(alloc);
    for station in stations {
        senders.push(Transmitter::new(
            queues[*station as usize].copy()?,
            Draws::new(seed, *station),
        ))?;
    }
    Ok(senders)
}

/// The receivers of these stations.
fn receivers_of(
    alloc: Global,
    plan: &Plan,
    stations: &[u32],
) -> Result<Vec<LateReceiver>, OutOfMemory>
    requires { All (λ k. k < length plan.now.layout.stations) stations.now }
    ensures receivers { IfOk result (λ receivers. AllHear (map (λ k. receiver_at plan.now k 0) stations.now) receivers.items) }
    ensures steps { IfOk result (λ receivers. All (λ r. r.steps ≡ 0) receivers.items) }
{
    let lines = plan.layout.stations.as_slice();
    let most = most_octets(plan.layout.format == 2);
    let mut receivers = Vec::new(alloc);
    for station in stations {
        receivers.push(LateReceiver::new_for(alloc, lines[*station as usize].lose, most)?)?;
    }
    Ok(receivers)
}

/// The delay of the line of tap `r`: a station's is a window.
fn delay_of(r: usize, stations: usize, lookahead: u32, edges: &[u32], delays: &[u32]) -> u32
    requires port { stations ≤ r → r < stations + length edges.now }
    requires within { All (λ e. e < length delays.now) edges.now }
    ensures { result ≡ new_delay stations lookahead edges.now delays.now r }
{
    if r < stations {
        lookahead
    } else {
        delays[edges[r - stations] as usize]
    }
}

/// How far two of these places are from each other at most.
fn width_of(places: &[u32]) -> u32
    ensures { AreWithin result places.now }
{
    let mut low = u32::MAX;
    let mut high = 0;
    for place in places {
        low = low.min(*place);
        high = high.max(*place);
    }
    high.saturating_sub(low)
}

/// The lines of taps at these places, of which the first so many are those of stations.
fn lines_of(
    alloc: Global,
    places: &[u32],
    stations: usize,
    lookahead: u32,
    edges: &[u32],
    delays: &[u32],
) -> Result<Vec<Line>, OutOfMemory>
    requires many { length places.now ≡ stations + length edges.now }
    requires within { All (λ e. e < length delays.now) edges.now }
    ensures { IfOk result (λ lines. AreNewLines places.now stations lookahead edges.now delays.now lines.items) }
{
    let width = u64::from(width_of(places));
    let mut lines = Vec::new(alloc);
    for r in 0..places.len() {
        let delay = delay_of(r, stations, lookahead, edges, delays);
        let far = (width + u64::from(delay)).saturating_sub(u64::from(lookahead));
        let backlog = far.max(1) as usize;
        let room = 2 * backlog + 2 * lookahead as usize + (KEEP + 2 * AHEAD) as usize;
        lines.push(Line::new(alloc, places[r], delay, backlog, room)?)?;
    }
    Ok(lines)
}

/// The lines of a segment's taps before half bit 0.
fn first_lines(alloc: Global, of: &Segment, plan: &Plan) -> Result<Vec<Line>, OutOfMemory>
    requires { of.now.plan.value ≡ plan.now }
    ensures know { IfOk result (λ lines.
        KnowLines of.now.plan.value (wiring of.now.plan.value.layout of.now.number) of.now.lookahead 0 0 lines.items) }
    ensures empty { IfOk result (λ lines. AreEmptyLines lines.items) }
    ensures room { IfOk result (λ lines. HaveRoomFrom 0 of.now.lookahead lines.items) }
{
    let taps = taps_of(alloc, &plan.layout)?;
    let places = places_on(alloc, &taps, of.number as usize)?;
    let delays = delays_of(alloc, plan.layout.repeaters.as_slice())?;
    let stations = of.stations.len();
    let edges = of.edges.as_slice();
    lines_of(alloc, &places, stations, of.lookahead, edges, &delays)
}

/// Room to list so many taps, and the symbols of a piece: Idle before half bit 0.
fn all_idle(alloc: Global, taps: usize, lookahead: u32) -> Result<Silence, OutOfMemory>
    ensures loud { IfOk result (λ silence. silence.loud.room ≡ taps) }
    ensures late { IfOk result (λ silence. silence.late.room ≡ taps) }
    ensures piece { IfOk result (λ silence. most_told + lookahead ≤ length silence.piece.items) }
{
    Ok(Silence {
        loud: LoudTaps::new(alloc, taps)?,
        late: LoudTaps::new(alloc, taps)?,
        piece: vec![in alloc; Sym::Idle; AHEAD as usize + lookahead as usize]?,
    })
}

/// The watches of so many stations before half bit 0.
fn watches_of(alloc: Global, stations: usize) -> Result<Vec<Watch>, OutOfMemory>
    ensures { IfOk result (λ watches. watches.items ≡ replicate stations new_watch) }
{
    let watch = Watch {
        since: 0,
        until: 0,
        carrier: false,
        told: u64::MAX,
    };
    Ok(vec![in alloc; watch; stations]?)
}

/// A segment before half bit 0.
pub fn start(alloc: Global, of: &Segment, plan: &Plan) -> Result<Running, OutOfMemory>
    requires { of.now.plan.value ≡ plan.now }
    ensures at { IfOk result (λ state. IsRunningAt of.now 0 state) }
    ensures time { IfOk result (λ state. state.t ≡ 0) }
{
    let stations = of.stations.len();
    let teller = Teller::new(alloc)?;
    let watches = watches_of(alloc, stations)?;
    let room = RowRoom::new(alloc, stations)?;
    let lines = first_lines(alloc, of, plan)?;
    let silence = all_idle(alloc, lines.len(), of.lookahead)?;
    let senders = senders_of(alloc, plan, &of.stations)?;
    let receivers = receivers_of(alloc, plan, &of.stations)?;
    Ok(Running {
        t: 0,
        senders,
        receivers,
        teller,
        far: farthest(&lines, of.lookahead),
        lines,
        loud: silence.loud,
        late: silence.late,
        from: 0,
        piece: silence.piece,
        watches,
        room,
    })
}
