ghost use Rattle.std.specs.Prelude.{◌<◌};

use frame_layout::{
    Frame, FrameFault, Queue, Verdict, build, build_up_to, fcs, judge, judge_up_to,
};
use lists::OutOfMemory;
use std::alloc::Global;

fn sequence(text: &str) -> u32 {
    fcs(text.as_bytes())
}

// The values are those of zlib's crc32.
#[test]
fn texts_have_the_sequences_of_zlib(rt: HostRuntime) {
    for (text, wanted) in [
        ("", 0x0000_0000),
        ("a", 0xe8b7_be43),
        ("abc", 0x3524_41c2),
        ("123456789", 0xcbf4_3926),
        ("message digest", 0x2015_9d7f),
        ("abcdefghijklmnopqrstuvwxyz", 0x4c27_50bd),
        (
            "ABCDEFGHIJKLMNOPQRSTUVWXYZabcdefghijklmnopqrstuvwxyz0123456789",
            0x1fc2_e6d2,
        ),
        (
            "12345678901234567890123456789012345678901234567890123456789012345678901234567890",
            0x7ca9_4a72,
        ),
        ("The quick brown fox jumps over the lazy dog", 0x414f_a339),
        ("The quick brown fox jumps over the lazy dog.", 0x5190_25e9),
        ("The quick brown fox jumps over the lazy cog", 0x4400_b5bc),
        ("netsim", 0xe738_1b7d),
        ("Ethernet", 0x6590_3628),
        ("CSMA/CD", 0x78aa_f1f1),
        ("0", 0xf4db_df21),
        ("00", 0xb846_14a0),
        ("000", 0x22b5_3add),
        ("0000", 0x0c9b_c472),
        ("éàü", 0xc409_57fc),
        ("日本語", 0xa80b_52e5),
    ] {
        assert_eq!(rt; sequence(text), wanted, "at {text}");
    }
    assert_eq!(rt;
        sequence("123456789").to_le_bytes(),
        [0x26, 0x39, 0xf4, 0xcb]
    );
}

/// A frame of these octets.
pub fn built(alloc: Global, octets: &[u8]) -> Result<Frame, FrameFault> {
    build(alloc, octets)
}

fn zeros(alloc: Global, count: usize) -> Result<Vec<u8>, OutOfMemory> {
    Ok(vec![in alloc; 0; count]?)
}

#[test]
fn a_frame_gets_its_pad_and_its_check_sequence(rt: HostRuntime) -> Result<(), FrameFault> {
    let frame = built(rt.alloc(), b"ABCDEFGHIJKLMN")?;
    assert_eq!(rt; frame.octets().len(), 64);
    assert_eq!(rt; &frame.octets()[60..], [0x13, 0x72, 0x62, 0xb5].as_slice());
    assert_eq!(rt; judge(frame.octets(), 7), Verdict::Good);
    Ok(())
}

/// How long a tagged frame of 1,518 zeros is, and the verdicts on it where 1,518 and where 1,514 octets are the most.
fn tagged(alloc: Global) -> Result<(usize, Verdict, Verdict), FrameFault> {
    let octets = zeros(alloc, 1_518)?;
    let frame = build_up_to(alloc, octets.as_slice(), 1_518)?;
    let good = judge_up_to(frame.octets(), 0, 1_518);
    Ok((frame.octets().len(), good, judge(frame.octets(), 0)))
}

/// The verdict on so many zeros and so many bits more.
fn judged(alloc: Global, count: usize, spare: u32) -> Result<Verdict, OutOfMemory>
    requires { spare < 8 }
{
    let octets = zeros(alloc, count)?;
    Ok(judge(octets.as_slice(), spare))
}

/// Why so many zeros make no frame.
fn fault(alloc: Global, count: usize) -> Result<Option<FrameFault>, OutOfMemory> {
    let octets = zeros(alloc, count)?;
    match build(alloc, octets.as_slice()) {
        Ok(_) => Ok(None),
        Err(fault) => Ok(Some(fault)),
    }
}

#[test]
fn frames_are_judged(rt: HostRuntime) -> Result<(), FrameFault> {
    let wanted = (1_522, Verdict::Good, Verdict::TooLong);
    assert_eq!(rt; tagged(rt.alloc())?, wanted);
    assert_eq!(rt; judged(rt.alloc(), 63, 0)?, Verdict::Fragment);
    assert_eq!(rt; judged(rt.alloc(), 64, 0)?, Verdict::FcsError);
    assert_eq!(rt; judged(rt.alloc(), 64, 1)?, Verdict::AlignError);
    assert_eq!(rt; fault(rt.alloc(), 13)?, Some(FrameFault::TooShort));
    assert_eq!(rt; fault(rt.alloc(), 1_515)?, Some(FrameFault::TooLong));
    Ok(())
}

/// Two frames that are ready at half bit 5.
fn two_frames(alloc: Global, first: &[u8], second: &[u8]) -> Result<Queue, FrameFault> {
    let mut queue = Queue::new(alloc);
    queue.push(5, built(alloc, first)?)?;
    queue.push(5, built(alloc, second)?)?;
    Ok(queue)
}

#[test]
fn a_queue_is_filled_and_copied(rt: HostRuntime) -> Result<(), FrameFault> {
    let queue = two_frames(rt.alloc(), &[1; 14], &[2; 14])?;
    let copy = queue.copy()?;
    assert!(rt; copy.len() == 2);
    assert_eq!(rt; copy.get(1).at, 5);
    assert_eq!(rt; copy.get(1).frame.octets()[0], 2);
    Ok(())
}
