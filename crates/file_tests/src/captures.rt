use capture_file::{CaptureFault, CaptureReader, CaptureWriter, OutOfMemory, Records};
use log_meter::{LineFault, LogFault};
use std::alloc::Global;

/// Two frames of 18 and 20 octets as `text2pcap -F nsecpcap` of Wireshark 4.0.17 writes them.
const NANOSECONDS: [u8; 94] = [
    0x4d, 0x3c, 0xb2, 0xa1, 0x02, 0x00, 0x04, 0x00, 0x00, 0x00, 0x00, 0x00, 0x00, 0x00, 0x00, 0x00,
    0x00, 0x00, 0x04, 0x00, 0x01, 0x00, 0x00, 0x00, 0x72, 0x01, 0x09, 0x6b, 0x15, 0xcd, 0x5b, 0x07,
    0x12, 0x00, 0x00, 0x00, 0x12, 0x00, 0x00, 0x00, 0xff, 0xff, 0xff, 0xff, 0xff, 0xff, 0x02, 0x00,
    0x00, 0x00, 0x00, 0x01, 0x08, 0x00, 0xde, 0xad, 0xbe, 0xef, 0x73, 0x01, 0x09, 0x6b, 0x01, 0x00,
    0x00, 0x00, 0x14, 0x00, 0x00, 0x00, 0x14, 0x00, 0x00, 0x00, 0x02, 0x00, 0x00, 0x00, 0x00, 0x01,
    0x02, 0x00, 0x00, 0x00, 0x00, 0x02, 0x08, 0x06, 0x00, 0x01, 0x08, 0x00, 0x06, 0x04,
];

/// A header in microseconds with the lowest octet of a number first, and that of a record which says it has 262,145
/// octets.
const LONG: [u8; 40] = [
    0xd4, 0xc3, 0xb2, 0xa1, 2, 0, 4, 0, 0, 0, 0, 0, 0, 0, 0, 0, 0xff, 0xff, 0, 0, 1, 0, 0, 0, 0, 0,
    0, 0, 0, 0, 0, 0, 1, 0, 4, 0, 1, 0, 4, 0,
];

/// The first `n` octets, or all of them where there are fewer.
fn front(octets: &[u8], n: usize) -> &[u8] {
    if n < octets.len() {
        &octets[..n]
    } else {
        octets
    }
}

/// How many records there are, or the fault.
fn told(answer: Result<Records, CaptureFault>) -> Result<usize, CaptureFault> {
    match answer {
        Ok(records) => Ok(records.len()),
        Err(fault) => Err(fault),
    }
}

/// Puts a record of octets, of which a frame has no more than 1,518, at the end of a capture.
fn add(writer: &mut CaptureWriter, nanos: u64, octets: &[u8]) -> Result<(), CaptureFault> {
    if nanos > 2_000_000_000_000_000_000 || octets.len() > 1_518 {
        return Err(CaptureFault::Short);
    }
    writer.add(nanos, octets)
}

#[test]
fn what_is_written_is_what_another_tool_writes(rt: HostRuntime) -> Result<(), CaptureFault> {
    let mut writer = CaptureWriter::new(rt.alloc())?;
    add(&mut writer, 1_795_752_306_123_456_789, &NANOSECONDS[40..58])?;
    add(&mut writer, 1_795_752_307_000_000_001, &NANOSECONDS[74..])?;
    assert!(rt; writer.bytes() == NANOSECONDS.as_slice());
    writer.clear();
    assert_eq!(rt; writer.bytes().len(), 0);
    add(&mut writer, 1_795_752_307_000_000_001, &NANOSECONDS[74..])?;
    assert!(rt; writer.bytes() == &NANOSECONDS[58..]);
    Ok(())
}

/// A capture of two records of 60 octets.
fn two_records(alloc: Global) -> Result<CaptureWriter, CaptureFault> {
    let mut writer = CaptureWriter::new(alloc)?;
    add(&mut writer, 0, &[0xa5; 60])?;
    add(&mut writer, 50, &[0x5a; 60])?;
    Ok(writer)
}

/// What a reader answers that was fed in pieces of so many octets, and how many octets were left.
fn in_pieces(
    alloc: Global,
    bytes: &[u8],
    size: usize,
) -> Result<(Result<usize, CaptureFault>, usize), OutOfMemory> {
    let mut reader = CaptureReader::new(alloc);
    for piece in bytes.chunks(size.max(1)) {
        reader.feed(piece)?;
    }
    let left = reader.rest().len();
    Ok((told(reader.end()), left))
}

#[test]
fn pieces_of_any_size_are_read_alike(rt: HostRuntime) -> Result<(), CaptureFault> {
    let writer = two_records(rt.alloc())?;
    let cut = Err(CaptureFault::CutRecord { number: 2 });
    for size in [1, 7, 23, 24, 25, 76, 176] {
        assert_eq!(rt;
            in_pieces(rt.alloc(), front(writer.bytes(), 110), size)?,
            (cut, 10),
            "at {size}"
        );
        assert_eq!(rt;
            in_pieces(rt.alloc(), writer.bytes(), size)?,
            (Ok(2), 0),
            "at {size}"
        );
        let long = Err(CaptureFault::Length { number: 1 });
        assert_eq!(rt; in_pieces(rt.alloc(), &LONG, size)?, (long, 0), "at {size}");
    }
    Ok(())
}

/// The name of want of memory, which the program doesn't say.
#[test]
fn want_of_memory_has_a_name(rt: HostRuntime) {
    let fault = CaptureFault::OutOfMemory;
    assert_eq!(rt; (fault.code(), fault.number()), (8, 0));
    assert_eq!(rt; fault.name(), "OutOfMemory");
    let fault = LogFault::OutOfMemory;
    assert_eq!(rt; (fault.code(), fault.line()), (4, 0));
    assert_eq!(rt; fault.name(), "OutOfMemory");
    assert_eq!(rt;
        (LineFault::Bad.code(), LineFault::OutOfMemory.code()),
        (1, 2)
    );
}
