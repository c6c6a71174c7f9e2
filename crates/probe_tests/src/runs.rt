//! Texts of runs that are read, and the bursts in them.
ghost use Rattle.std.specs.Prelude.{◌≡◌, ◌≤◌, true};
ghost use Rattle.mac_parameters.specs.Parameters.{most_half_bits};
ghost use Rattle.line_probe.specs.Runs.{end_after_runs};

use line_probe::{Burst, OutOfMemory, Run, Runs, RunsFault, bursts, read_runs, run_text};
use lists::List;
use manchester_line::Sym;
use std::alloc::Global;

/// How many runs there are, or the fault.
fn told(answer: Result<Runs, RunsFault>) -> Result<usize, RunsFault> {
    match answer {
        Ok(runs) => Ok(runs.len()),
        Err(fault) => Err(fault),
    }
}

fn count(alloc: Global, bytes: &[u8]) -> Result<usize, RunsFault> {
    if bytes.len() > 4_000_000_000 {
        return Err(RunsFault::OutOfMemory);
    }
    told(read_runs(alloc, bytes))
}

/// Four runs, one of each symbol.
const FOUR: &[u8] = b"0 10 idle\n10 1 lo\n11 2 hi\n13 1999999987 clash\n";

#[test]
fn runs_are_read(rt: HostRuntime) -> Result<(), RunsFault> {
    let runs = read_runs(rt.alloc(), FOUR)?;
    let four = [
        (0, 10, Sym::Idle),
        (10, 1, Sym::Lo),
        (11, 2, Sym::Hi),
        (13, 1_999_999_987, Sym::Clash),
    ];
    assert_eq!(rt; runs.len(), 4);
    for k in 0..4 {
        let (start, count, symbol) = four[k];
        assert_eq!(rt;
            *runs.get(k),
            Run {
                start,
                count,
                symbol
            }
        );
    }
    assert_eq!(rt; count(rt.alloc(), b""), Ok(0));
    Ok(())
}

/// Texts with what is told of each.
const TEXTS: [(&[u8], Result<usize, RunsFault>); 44] = [
    (b"0 10 idle\n11 1 lo\n", Err(RunsFault::Gap { line: 2 })),
    (b"0 10 idle\n9 1 lo\n", Err(RunsFault::Gap { line: 2 })),
    (b"0 10 idle\n10 1 idle\n", Err(RunsFault::Same { line: 2 })),
    (b"0 10 idle\n0 10 idle\n", Err(RunsFault::Gap { line: 2 })),
    (b"0 01 idle\n", Err(RunsFault::BadLine { line: 1 })),
    (b"\n", Err(RunsFault::BadLine { line: 1 })),
    (
        b"0 10 idle\r\n10 1 lo\r\n",
        Err(RunsFault::BadLine { line: 1 }),
    ),
    (
        b"0 10 idle\n\n10 1 lo\n",
        Err(RunsFault::BadLine { line: 2 }),
    ),
    (
        b"0 10 idle\n11 0 idle\n",
        Err(RunsFault::BadLine { line: 2 }),
    ),
    (b"0 10 idle\n11 1 idle\n", Err(RunsFault::Gap { line: 2 })),
    (
        b"0 10 idle\n10 1 lo\n11 1 lo\n13 1 hi\n",
        Err(RunsFault::Same { line: 3 }),
    ),
    (b"7 3 lo\n10 1 hi\n", Ok(2)),
    (b"0 2000000000 lo\n2000000000 2000000000 hi\n", Ok(2)),
    // The numbers are at the ends of their range.
    (b"0 1 idle\n", Ok(1)),
    (b"2000000000 2000000000 clash\n", Ok(1)),
    (b"7 10 hi\n", Ok(1)),
    (b"10 7 lo\n", Ok(1)),
    (b"1999999999 1 idle\n", Ok(1)),
    // No count, numbers past their range, leading zeros, other words, other blanks, a carriage return.
    (b"0 0 idle\n", Err(RunsFault::BadLine { line: 1 })),
    (b"2000000001 1 idle\n", Err(RunsFault::BadLine { line: 1 })),
    (b"0 2000000001 idle\n", Err(RunsFault::BadLine { line: 1 })),
    (b"4294967296 1 idle\n", Err(RunsFault::BadLine { line: 1 })),
    (
        b"0 99999999999999999999 idle\n",
        Err(RunsFault::BadLine { line: 1 }),
    ),
    (b"00 1 idle\n", Err(RunsFault::BadLine { line: 1 })),
    (b"01 1 idle\n", Err(RunsFault::BadLine { line: 1 })),
    (b"+0 1 idle\n", Err(RunsFault::BadLine { line: 1 })),
    (b"0 -1 idle\n", Err(RunsFault::BadLine { line: 1 })),
    (b"0 1 Idle\n", Err(RunsFault::BadLine { line: 1 })),
    (b"0 1 idl\n", Err(RunsFault::BadLine { line: 1 })),
    (b"0 1 idles\n", Err(RunsFault::BadLine { line: 1 })),
    (b"0 1 none\n", Err(RunsFault::BadLine { line: 1 })),
    (b"0 1 \n", Err(RunsFault::BadLine { line: 1 })),
    (b"0 1\n", Err(RunsFault::BadLine { line: 1 })),
    (b"0  1 idle\n", Err(RunsFault::BadLine { line: 1 })),
    (b"0 1  idle\n", Err(RunsFault::BadLine { line: 1 })),
    (b" 0 1 idle\n", Err(RunsFault::BadLine { line: 1 })),
    (b"0 1 idle \n", Err(RunsFault::BadLine { line: 1 })),
    (b"0 1 idle\r\n", Err(RunsFault::BadLine { line: 1 })),
    (b"0\t1 idle\n", Err(RunsFault::BadLine { line: 1 })),
    (b"0,1,idle\n", Err(RunsFault::BadLine { line: 1 })),
    // The line feed is missing, or more.
    (b"0 10 idle", Err(RunsFault::BadLine { line: 1 })),
    (b"0 10 idle\n10 1 l", Err(RunsFault::BadLine { line: 2 })),
    (
        b"0 10 idle\n10 1 lo\n1",
        Err(RunsFault::BadLine { line: 3 }),
    ),
    (
        b"0 10 idle\n10 1 lo\n11 2 hi\n13 1999999987 clash",
        Err(RunsFault::BadLine { line: 4 }),
    ),
];

#[test]
fn a_text_has_its_first_fault(rt: HostRuntime) {
    for (bytes, told) in TEXTS {
        assert_eq!(rt; count(rt.alloc(), bytes), told);
    }
    assert_eq!(rt; RunsFault::BadLine { line: 7 }.code(), 1);
    assert_eq!(rt; RunsFault::Gap { line: 2 }.code(), 2);
    assert_eq!(rt; RunsFault::Same { line: 3 }.code(), 3);
    assert_eq!(rt; RunsFault::OutOfMemory.code(), 4);
}

/// Whether the runs end by half bit 2,000,000,000.
fn end_soon(runs: &[Run]) -> bool
    ensures { result ≡ true → end_after_runs 0 runs.now ≤ most_half_bits }
{
    let mut end = 0u64;
    for run in runs {
        let Some(next) = run.start.checked_add(run.count) else {
            return false;
        };
        end = next;
    }
    end <= 2_000_000_000
}

/// The first of the bursts in the runs of a text, and how many there are.
fn first_burst(alloc: Global, text: &[u8]) -> Result<(Option<Burst>, usize), RunsFault> {
    if text.len() > 4_000_000_000 {
        return Err(RunsFault::OutOfMemory);
    }
    let runs = read_runs(alloc, text)?;
    if !end_soon(runs.as_slice()) {
        return Err(RunsFault::OutOfMemory);
    }
    let bursts = bursts(alloc, &runs)?;
    Ok((bursts.as_slice().first().copied(), bursts.len()))
}

/// The burst with these numbers, which isn't spoiled.
const fn burst(start: u64, halves: u64, octets: u32, spare: u32) -> Burst {
    Burst {
        start,
        halves,
        spoiled: false,
        octets,
        spare,
    }
}

/// A spoiled burst.
const fn spoiled(start: u64, halves: u64) -> Burst {
    Burst {
        start,
        halves,
        spoiled: true,
        octets: 0,
        spare: 0,
    }
}

#[test]
fn bursts_are_judged(rt: HostRuntime) -> Result<(), RunsFault> {
    // Without a delimiter, of an odd number of half bits, with a clash, with two half bits alike; with a delimiter and
    // the bits 0, 1 and 0 after it; and where signals begin before the first half bit or don't end.
    let texts: [(&[u8], Option<Burst>, usize); 10] = [
        (
            b"0 5 idle\n5 1 lo\n6 1 hi\n7 1 idle\n",
            Some(burst(5, 2, 0, 0)),
            1,
        ),
        (b"0 5 idle\n5 1 lo\n6 1 idle\n", Some(spoiled(5, 1)), 1),
        (b"0 5 idle\n5 2 clash\n7 1 idle\n", Some(spoiled(5, 2)), 1),
        (b"0 5 idle\n5 2 hi\n7 1 idle\n", Some(spoiled(5, 2)), 1),
        (
            b"3 1 idle\n4 1 lo\n5 1 hi\n6 1 lo\n7 2 hi\n9 2 lo\n11 2 hi\n13 1 lo\n14 9 idle\n",
            Some(burst(4, 10, 0, 3)),
            1,
        ),
        (b"0 1 lo\n1 1 hi\n2 1 idle\n", Some(burst(0, 2, 0, 0)), 1),
        (b"1 1 lo\n2 1 hi\n3 1 idle\n", None, 0),
        (b"0 5 idle\n5 1 lo\n6 1 hi\n", None, 0),
        (b"0 5 idle\n", None, 0),
        (
            b"0 1 idle\n1 1 clash\n2 1 idle\n3 1 lo\n4 1 hi\n5 1 idle\n6 1 lo\n",
            Some(spoiled(1, 1)),
            2,
        ),
    ];
    for (text, first, many) in texts {
        assert_eq!(rt; first_burst(rt.alloc(), text)?, (first, many));
    }
    Ok(())
}

/// The text of so many runs of one half bit each, lo and hi in turn, and a last one of idle.
fn text_of_ones(alloc: Global, halves: u64) -> Result<List<u8>, OutOfMemory> {
    let mut text = List::new(alloc);
    let mut room = [0; 80];
    for start in 0..halves {
        let symbol = if start % 2 == 0 { Sym::Lo } else { Sym::Hi };
        let run = Run {
            start,
            count: 1,
            symbol,
        };
        let len = run_text(&run, &mut room);
        text.extend(&room[..len])?;
    }
    text.extend(b"100000 1 idle\n")?;
    Ok(text)
}

/// They are 50,000 bits 1, of which the first two are read as the delimiter's end.
#[test]
fn a_hundred_thousand_runs_are_read(rt: HostRuntime) -> Result<(), RunsFault> {
    let text = text_of_ones(rt.alloc(), 100_000)?;
    assert_eq!(rt; count(rt.alloc(), text.as_slice()), Ok(100_001));
    let burst = burst(0, 100_000, 6_249, 6);
    assert_eq!(rt; first_burst(rt.alloc(), text.as_slice())?, (Some(burst), 1));
    Ok(())
}
