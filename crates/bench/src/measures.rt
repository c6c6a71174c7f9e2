//! The measurements.
ghost use Rattle.std.specs.Prelude.{◌≡◌, ◌≢◌, ◌≤◌, ◌+◌, ◌*◌, All, length, IfOk};
ghost use Rattle.manchester_line.specs.declared.Sym.TheVariants.{Idle};

use crate::exchange::moves;
use crate::parts::quiet_segment;
use crate::segment::{leaps, segments};
use capture_file::{CaptureFault, CaptureReader, CaptureWriter};
use case_support::plan_of;
use frame_layout::fcs;
use lists::OutOfMemory;
use mac_parameters::{HALF_BITS_AN_OCTET, MOST_OCTETS_TAGGED, PREAMBLE};
use mac_receive::Receiver;
use manchester_line::{Decoder, Sym, encode_into, half_of};
use net_step::run_plain;
use repeater_core::Repeater;
use std::alloc::Global;

/// What is measured.
#[derive(Clone, Copy, Debug, PartialEq, Eq)]
pub enum Measure {
    /// The line text of the largest frames of format 1.
    Encode,
    /// A decoder, half bit by half bit.
    Decode,
    /// A receiver that hears nothing, half bit by half bit.
    ReceiveIdle,
    /// A receiver that is given a long piece at once.
    ReceiveTake,
    /// The frame check sequence.
    Fcs,
    /// A repeater of two ports, of which one hears signal all the time.
    RepeatTwoPorts,
    /// A repeater of 32 ports, of which one hears signal all the time.
    RepeatAllPorts,
    /// A repeater of two ports that hear nothing, half bit by half bit.
    RepeatQuiet,
    /// A segment with four taps whose stations send, half bit by half bit.
    FourStations,
    /// The same with 32 taps.
    ManyStations,
    /// A segment on which hardly anything happens, by its part alone.
    QuietSegment,
    /// A sender that waits for its frame, by leaps.
    SenderLeaps,
    /// Parcels that are posted and taken in one share.
    ExchangeMoves,
    /// A capture of about 64 MB that comes in pieces of 65,536 octets.
    CaptureRead,
    /// A capture of about 64 MB.
    CaptureWrite,
    /// The run of a segment of two stations by half bits.
    Plain,
}

impl Measure {
    pub const ALL: [Measure; 16] = [
        Measure::Encode,
        Measure::Decode,
        Measure::ReceiveIdle,
        Measure::ReceiveTake,
        Measure::Fcs,
        Measure::RepeatTwoPorts,
        Measure::RepeatAllPorts,
        Measure::RepeatQuiet,
        Measure::FourStations,
        Measure::ManyStations,
        Measure::QuietSegment,
        Measure::SenderLeaps,
        Measure::ExchangeMoves,
        Measure::CaptureRead,
        Measure::CaptureWrite,
        Measure::Plain,
    ];

    /// The word that asks for it.
    pub fn name(self) -> &'static str {
        match self {
            Measure::Encode => "encode",
            Measure::Decode => "decode",
            Measure::ReceiveIdle => "receive-idle",
            Measure::ReceiveTake => "receive-take",
            Measure::Fcs => "fcs",
            Measure::RepeatTwoPorts => "repeat-2-ports",
            Measure::RepeatAllPorts => "repeat-32-ports",
            Measure::RepeatQuiet => "repeat-quiet",
            Measure::FourStations => "segment-4",
            Measure::ManyStations => "segment-32",
            Measure::QuietSegment => "quiet-segment",
            Measure::SenderLeaps => "sender-leap",
            Measure::ExchangeMoves => "exchange-moves",
            Measure::CaptureRead => "capture-read",
            Measure::CaptureWrite => "capture-write",
            Measure::Plain => "plain",
        }
    }

    /// What its rate counts.
    pub fn unit(self) -> &'static str {
        match self {
            Measure::Fcs | Measure::CaptureRead | Measure::CaptureWrite => "octets",
            Measure::RepeatTwoPorts | Measure::RepeatAllPorts | Measure::RepeatQuiet =>
                "port half bits",
            Measure::FourStations | Measure::ManyStations => "station half bits",
            Measure::SenderLeaps => "leaps",
            Measure::ExchangeMoves => "moves",
            Measure::Plain => "device half bits",
            _ => "half bits",
        }
    }
}

/// How many octets the largest frame of format 1 has.
const LARGEST: usize = MOST_OCTETS_TAGGED as usize;

/// Its octets.
const OCTETS: [u8; LARGEST] = [0xa5; LARGEST];

/// The half bits of their line text.
const LINE_TEXT: usize = PREAMBLE as usize + HALF_BITS_AN_OCTET as usize * LARGEST;

const TIMES: u32 = 20_000;

const STEPS: u32 = 500_000_000;

const REPEATED: u32 = 10_000_000;

/// The octets of a captured frame.
const CAPTURED: usize = 484;

/// How many of them have 64,000,000 octets, with the 16 that a capture adds to each.
const RECORDS: u64 = 128_000;

const PIECE: usize = 65_536;

/// A segment of two stations, of which one sends.
const LAYOUT: &str =
    "format = 1\nseed = 1\nuntil_bits = 5000000\n[[segment]]\nname = \"x\"\n[[station]]\nname = \"a\"\nsegment = \"x\"\nat = 0\n[[station]]\nname = \"b\"\nsegment = \"x\"\nat = 10\n[[send]]\nstation = \"a\"\nat = 0\noctets = \"ffffffffffff0200000000010800\"\n";

/// The device half bits of that layout.
const DEVICE_HALF_BITS: u64 = 2 * 2 * 5_000_000;

/// Runs a measurement and answers how many units it did.
pub fn run(alloc: Global, measure: Measure) -> Result<u64, OutOfMemory> {
    match measure {
        Measure::Encode => encode(alloc),
        Measure::Decode => Ok(decode(piece(alloc)?.as_slice())),
        Measure::ReceiveIdle => Ok(receive_idle()),
        Measure::ReceiveTake => Ok(receive_take(piece(alloc)?.as_slice())),
        Measure::Fcs => Ok(check_sequences()),
        Measure::RepeatTwoPorts => repeat(alloc, 2, Sym::Hi),
        Measure::RepeatAllPorts => repeat(alloc, 32, Sym::Hi),
        Measure::RepeatQuiet => repeat(alloc, 2, Sym::Idle),
        Measure::FourStations => segments(alloc, 4, 100),
        Measure::ManyStations => segments(alloc, 32, 10),
        Measure::QuietSegment => quiet_segment(alloc),
        Measure::SenderLeaps => leaps(alloc, 100),
        Measure::ExchangeMoves => moves(alloc),
        Measure::CaptureRead => read_often(alloc, capture(alloc)?.bytes()),
        Measure::CaptureWrite => Ok(capture(alloc)?.bytes().len() as u64),
        Measure::Plain => plain(alloc),
    }
}

/// Encodes ever other octets, and answers how often the last half bit was Hi.
fn encode_often(octets: &mut [u8], out: &mut [Sym]) -> u32
    requires octets { length octets.old ≡ LARGEST }
    requires room { length out.old ≡ LINE_TEXT }
{
    let mut high = 0u32;
    for time in 0..TIMES {
        octets[LARGEST - 1] = (time % 256) as u8;
        encode_into(octets, out);
        if out[LINE_TEXT - 1] == Sym::Hi {
            high = high.saturating_add(1);
        }
    }
    high
}

fn encode(alloc: Global) -> Result<u64, OutOfMemory> {
    let mut octets = vec![in alloc; 0xa5u8; LARGEST]?;
    let mut out = vec![in alloc; Sym::Idle; LINE_TEXT]?;
    let high = encode_often(&mut octets, &mut out);
    Ok(u64::from(TIMES) * LINE_TEXT as u64 + u64::from(high % 2))
}

fn signal(bit: bool, second: bool) -> Sym
    ensures { result ≢ Idle }
{
    half_of(bit, second)
}

/// A piece of a line text, without an Idle.
fn piece(alloc: Global) -> Result<Vec<Sym>, OutOfMemory>
    ensures signal { IfOk result (λ piece. All (λ s. s ≢ Idle) piece.items) }
    ensures short { IfOk result (λ piece. length piece.items ≤ LINE_TEXT) }
{
    let mut piece = Vec::new(alloc);
    for i in 0..LINE_TEXT {
        piece.push(signal(i % 7 < 3, i % 2 == 1))?;
    }
    Ok(piece)
}

/// The last of some octets, and 0 where there is none.
fn last_of(octets: &[u8]) -> u8 {
    match octets.last() {
        Some(octet) => *octet,
        None => 0,
    }
}

/// What was decoded is used, so that none of it is left out.
fn decode(piece: &[Sym]) -> u64
    requires signal { All (λ s. s ≢ Idle) piece.now }
    requires short { length piece.now ≤ LINE_TEXT }
{
    let mut decoder = Decoder::new();
    let mut used = 0;
    for _time in 0..TIMES {
        decoder.clear();
        for s in piece {
            decoder.push(*s);
        }
        used ^= last_of(decoder.octets());
    }
    u64::from(TIMES) * piece.len() as u64 + u64::from(used % 2)
}

fn receive_idle() -> u64 {
    let mut receiver = Receiver::new();
    for _step in 0..STEPS {
        receiver.step(Sym::Idle, false);
    }
    u64::from(STEPS)
}

fn receive_take(piece: &[Sym]) -> u64
    requires signal { All (λ s. s ≢ Idle) piece.now }
    requires short { length piece.now ≤ LINE_TEXT }
{
    let mut used = 0;
    for _time in 0..TIMES {
        let mut receiver = Receiver::new();
        receiver.take(piece);
        used ^= last_of(receiver.octets());
    }
    u64::from(TIMES) * piece.len() as u64 + u64::from(used % 2)
}

fn check_sequences() -> u64 {
    let mut sum = 0u32;
    for _time in 0..TIMES {
        sum ^= fcs(&OCTETS);
    }
    u64::from(TIMES) * OCTETS.len() as u64 + u64::from(sum % 2)
}

/// Steps a repeater whose first port hears this symbol and whose other ports hear nothing.
fn repeat_often(
    repeater: &mut Repeater,
    hears: &[Sym],
    emits: &mut [Sym],
    decided: &mut [Sym],
) -> u32
    requires hears { length hears.now ≡ length repeater.old.guards }
    requires emits { length emits.old ≡ length repeater.old.guards }
    requires decided { length decided.old ≡ length repeater.old.guards }
{
    let mut clashes = 0u32;
    for _step in 0..REPEATED {
        if repeater.step(hears, emits, decided).clash {
            clashes = clashes.saturating_add(1);
        }
    }
    clashes
}

fn repeat(alloc: Global, ports: u32, heard: Sym) -> Result<u64, OutOfMemory>
    requires least { 2 ≤ ports }
    requires most { ports ≤ 32 }
{
    let count = ports as usize;
    let mut repeater = Repeater::new(alloc, ports, 16)?;
    let mut hears = vec![in alloc; Sym::Idle; count]?;
    hears[0] = heard;
    let mut emits = vec![in alloc; Sym::Idle; count]?;
    let mut decided = vec![in alloc; Sym::Idle; count]?;
    let clashes = repeat_often(&mut repeater, &hears, &mut emits, &mut decided);
    Ok(u64::from(REPEATED) * u64::from(ports) + u64::from(clashes % 2))
}

fn plain(alloc: Global) -> Result<u64, OutOfMemory> {
    let Ok(plan) = plan_of(alloc, LAYOUT) else {
        return Err(OutOfMemory);
    };
    let outputs = run_plain(alloc, &plan)?;
    Ok(DEVICE_HALF_BITS + (outputs.rows.len() % 2) as u64)
}

fn capture(alloc: Global) -> Result<CaptureWriter, OutOfMemory> {
    let Ok(mut writer) = CaptureWriter::new(alloc) else {
        return Err(OutOfMemory);
    };
    for time in 0..RECORDS {
        if writer.add(time, &OCTETS[..CAPTURED]).is_err() {
            return Err(OutOfMemory);
        }
    }
    Ok(writer)
}

/// How many records a capture has that comes in pieces.
fn read_in_pieces(alloc: Global, bytes: &[u8]) -> Result<usize, CaptureFault> {
    let mut reader = CaptureReader::new(alloc);
    for piece in bytes.chunks(PIECE) {
        reader.feed(piece)?;
    }
    Ok(reader.end()?.len())
}

/// Reads a capture ten times, so that writing it first counts little.
fn read_often(alloc: Global, bytes: &[u8]) -> Result<u64, OutOfMemory> {
    let mut records = 0usize;
    for _time in 0..10 {
        let Ok(count) = read_in_pieces(alloc, bytes) else {
            return Err(OutOfMemory);
        };
        records = records.saturating_add(count);
    }
    Ok(
        (bytes.len() as u64)
            .saturating_mul(10)
            .saturating_add(records as u64 % 2),
    )
}
