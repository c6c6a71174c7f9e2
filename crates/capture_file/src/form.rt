//! How a capture is written: its header and the fields of a record.
ghost use Rattle.std.specs.Prelude.{◌≡◌, ◌+◌, ◌≤◌, IfOk, length};
ghost use Rattle.std.specs.Bool.{OnTrue};
ghost use Rattle.capture_file.specs.Captures.{captured_length, field, form_of, header, is_overlong, is_whole, nanos_at, record_at};

use crate::{CaptureFault, FrameOctets, Record};
use byteorder::{BigEndian, ByteOrder, LittleEndian};
use lists::OutOfMemory;
use std::alloc::Global;

/// The octets of a file's header.
pub const HEADER_OCTETS: usize = 24;

/// The octets of a record's header.
pub const RECORD_OCTETS: usize = 16;

/// The most octets that a record may say it has.
pub const MOST_CAPTURED: usize = 262_144;

/// Which octet of a number comes first: the lowest or the highest.
#[derive(Clone, Copy)]
pub enum Order {
    Little,
    Big,
}

/// What the fraction of a second counts.
#[derive(Clone, Copy)]
pub enum Fraction {
    Microseconds,
    Nanoseconds,
}

/// How the numbers of a capture are written.
#[derive(Clone, Copy)]
pub struct Form {
    pub order: Order,
    pub fraction: Fraction,
}

/// The form of a capture that begins with these octets.
#[tactic(auto, unfolding(crate::specs::Captures::form_by, crate::specs::Captures::number))]
fn form_of(octets: &[u8]) -> Option<Form>
    requires { 4 ≤ length octets.now }
    ensures { result ≡ form_of octets.now }
{
    let (order, fraction) = match BigEndian::read_u32(octets) {
        0xd4c3_b2a1 => (Order::Little, Fraction::Microseconds),
        0xa1b2_c3d4 => (Order::Big, Fraction::Microseconds),
        0x4d3c_b2a1 => (Order::Little, Fraction::Nanoseconds),
        0xa1b2_3c4d => (Order::Big, Fraction::Nanoseconds),
        _ => return None,
    };
    Some(Form { order, fraction })
}

/// The number in two octets from `place` on.
#[tactic(auto, unfolding(crate::specs::Captures::number))]
fn short_field(order: Order, place: usize, octets: &[u8]) -> u16
    requires { place + 2 ≤ length octets.now }
    ensures { result ≡ field order 2 place octets.now }
{
    match order {
        Order::Little => LittleEndian::read_u16(&octets[place..]),
        Order::Big => BigEndian::read_u16(&octets[place..]),
    }
}

/// The number in four octets from `place` on.
#[tactic(auto, unfolding(crate::specs::Captures::number))]
fn field(order: Order, place: usize, octets: &[u8]) -> u32
    requires { place + 4 ≤ length octets.now }
    ensures { result ≡ field order 4 place octets.now }
{
    match order {
        Order::Little => LittleEndian::read_u32(&octets[place..]),
        Order::Big => BigEndian::read_u32(&octets[place..]),
    }
}

/// The form that a header says, or its first fault.
#[tactic(auto, unfolding(crate::specs::Captures::header))]
pub fn header(octets: &[u8]) -> Result<Form, CaptureFault>
    requires { HEADER_OCTETS ≤ length octets.now }
    ensures { result ≡ header octets.now }
{
    let Some(form) = form_of(octets) else {
        return Err(CaptureFault::Magic);
    };
    if short_field(form.order, 4, octets) != 2 || short_field(form.order, 6, octets) != 4 {
        return Err(CaptureFault::Version);
    }
    if field(form.order, 20, octets) != 1 {
        return Err(CaptureFault::LinkType);
    }
    Ok(form)
}

/// How many octets the record in front says that it has, without its header.
pub fn captured(form: Form, octets: &[u8]) -> usize
    requires { RECORD_OCTETS ≤ length octets.now }
    ensures { result ≡ captured_length form octets.now }
{
    field(form.order, 8, octets) as usize
}

/// Whether a whole record stands in front.
#[tactic(auto, unfolding(crate::specs::Captures::is_whole))]
pub fn is_whole(form: Form, octets: &[u8]) -> bool
    ensures whole { result ≡ is_whole form octets.now }
    ensures room { OnTrue result (RECORD_OCTETS + captured_length form octets.now ≤ length octets.now) }
{
    if octets.len() < RECORD_OCTETS {
        return false;
    }
    let captured = captured(form, octets);
    captured <= MOST_CAPTURED && RECORD_OCTETS + captured <= octets.len()
}

/// Whether a record's header stands in front that says that it has too many octets.
#[tactic(auto, unfolding(crate::specs::Captures::is_overlong))]
pub fn is_long(form: Form, octets: &[u8]) -> bool
    ensures { result ≡ is_overlong form octets.now }
{
    octets.len() >= RECORD_OCTETS && captured(form, octets) > MOST_CAPTURED
}

/// The nanoseconds of the time of the record in front.
fn nanos_at(form: Form, octets: &[u8]) -> u64
    requires { RECORD_OCTETS ≤ length octets.now }
    ensures { result ≡ nanos_at form octets.now }
{
    let seconds = u64::from(field(form.order, 0, octets));
    let fraction = u64::from(field(form.order, 4, octets));
    match form.fraction {
        Fraction::Microseconds => seconds * 1_000_000_000 + fraction * 1000,
        Fraction::Nanoseconds => seconds * 1_000_000_000 + fraction,
    }
}

/// The whole record that stands in front.
pub fn record_at(alloc: Global, form: Form, octets: &[u8]) -> Result<Record, OutOfMemory>
    requires { RECORD_OCTETS + captured_length form octets.now ≤ length octets.now }
    ensures { IfOk result (λ r. r ≡ record_at form octets.now) }
{
    let mut kept = FrameOctets::new(alloc);
    kept.extend(&octets[RECORD_OCTETS..RECORD_OCTETS + captured(form, octets)])?;
    Ok(Record {
        nanos: nanos_at(form, octets),
        original: field(form.order, 12, octets),
        octets: kept,
    })
}
