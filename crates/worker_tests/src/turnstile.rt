//! A gate that two parts pass only together, so that it takes two threads.
ghost use Rattle.std.specs.Prelude.{◌≤◌};

use backoff_draw::Draws;
use case_support::plan_of;
use collision_log::{Body, Row};
use network::Outputs;
use outside::Gate;
use std::alloc::Global;
use std::sync::Wait;
use std::sync::atomic::{AtomicU64, Ordering};
use std::test::Fail;
use std::thread;
use std::thread::Threads;
use window_run::run_by_windows;

/// Two stations that collide over a repeater.
const TWO_HOPS: &str = r#"format = 1
seed = 1
until_bits = 130
segment = [{ name = "x" }, { name = "y" }]
station = [{ name = "a", segment = "x", at = 0 }, { name = "b", segment = "y", at = 30 }]
repeater = [{ name = "r", delay = 16, port = [{ segment = "x", at = 20 }, { segment = "y", at = 0 }] }]
send = [
  { station = "a", at = 0, octets = "ffffffffffff0200000000010800" },
  { station = "b", at = 65, octets = "ffffffffffff0200000000020800" },
]
"#;

/// After so many turns over the whole run the gate lets go for good.
const MOST_TURNS: u64 = 1_000_000_000;

/// A byte of 1 for each of 8 windows.
const EACH_ONCE: u64 = 0x0101_0101_0101_0101;

/// How often a part entered each of 8 windows, a byte for each, and how many windows it has begun.
#[derive(Drop)]
struct Visits {
    entered: AtomicU64,
    begun: AtomicU64,
}

impl Visits {
    fn new() -> Visits {
        Visits {
            entered: AtomicU64::new(0),
            begun: AtomicU64::new(0),
        }
    }

    fn note(&self, window: u64) {
        if window < 8 {
            self.entered
                .fetch_add(1u64 << (8 * window), Ordering::SeqCst);
        }
        self.begun.fetch_add(1, Ordering::SeqCst);
    }

    /// Whether there were 8 windows and the part entered each of them once.
    fn are_whole(&self) -> bool {
        self.entered.load(Ordering::SeqCst) == EACH_ONCE && self.begun.load(Ordering::SeqCst) == 8
    }
}

/// A gate that holds part 0 at each window until part 1 has begun it too, and the other way round, and writes down who
/// enters.
#[derive(Drop)]
struct Turnstile {
    first: Visits,
    second: Visits,
    third: Visits,
    strays: AtomicU64,
    turns: AtomicU64,
    begins: AtomicU64,
}

impl Turnstile {
    fn new() -> Turnstile {
        Turnstile {
            first: Visits::new(),
            second: Visits::new(),
            third: Visits::new(),
            strays: AtomicU64::new(0),
            turns: AtomicU64::new(0),
            begins: AtomicU64::new(0),
        }
    }

    /// Waits until the other part has begun the window.
    fn hold(&self, other: &Visits, window: u64) {
        for _ in 0..MOST_TURNS {
            if other.begun.load(Ordering::SeqCst) > window
                || self.turns.fetch_add(1, Ordering::SeqCst) >= MOST_TURNS
            {
                return;
            }
            thread::yield_now();
        }
    }

    /// Whether the run began once, with three parts, 8 windows and 260 half bits, and each part entered each window
    /// once, in time.
    fn is_content(&self) -> bool {
        self.begins.load(Ordering::SeqCst) == 1
            && self.strays.load(Ordering::SeqCst) == 0
            && self.turns.load(Ordering::SeqCst) < MOST_TURNS
            && self.first.are_whole()
            && self.second.are_whole()
            && self.third.are_whole()
    }
}

impl Gate for Turnstile {
    fn begin(&self, parts: u32, windows: u64, half_bits: u64) {
        self.begins.fetch_add(1, Ordering::SeqCst);
        if parts != 3 || windows != 8 || half_bits != 260 {
            self.strays.fetch_add(1, Ordering::SeqCst);
        }
    }

    fn enter(&self, part: u32, window: u64) {
        match part {
            0 => {
                self.first.note(window);
                self.hold(&self.second, window);
            }
            1 => {
                self.second.note(window);
                self.hold(&self.first, window);
            }
            2 => self.third.note(window),
            _ => {
                self.strays.fetch_add(1, Ordering::SeqCst);
            }
        }
    }
}

/// The row of a station whose first frame collided, with the draw of the first attempt.
fn collided(t: u64, device: u32, start: u64, hit: u32) -> Row {
    let body = Body::Collided {
        frame: 1,
        start,
        attempt: 1,
        hit,
        drawn: Draws::new(1, device).draw(1),
    };
    Row { t, device, body }
}

/// Whether these are the rows of two stations that collide over a repeater.
fn have_collided(outputs: &Outputs) -> bool {
    let clash = Row {
        t: 95,
        device: 2,
        body: Body::Clash,
    };
    let rows = [clash, collided(196, 0, 0, 131), collided(257, 1, 65, 1)];
    outputs.rows.as_slice() == rows.as_slice()
}

/// Whether a run by so many workers gives these rows and leaves the gate content.
fn is_passed<X: Threads + Wait + Sync>(rt: &X, alloc: Global, workers: u32) -> Result<bool, Fail>
    requires least { 1 ≤ workers }
    requires most { workers ≤ 64 }
{
    let gate = Turnstile::new();
    let plan = plan_of(alloc, TWO_HOPS)?;
    let outputs = run_by_windows(rt, alloc, &plan, workers, &gate)?;
    Ok(have_collided(&outputs) && gate.is_content())
}

#[test]
fn two_parts_pass_together(rt: HostRuntime) -> Result<(), Fail> {
    assert!(rt; is_passed(&rt, rt.alloc(), 2)?);
    assert!(rt; is_passed(&rt, rt.alloc(), 7)?);
    Ok(())
}

#[test]
fn many_workers_pass_time_after_time(rt: HostRuntime) -> Result<(), Fail> {
    for _ in 0..100 {
        assert!(rt; is_passed(&rt, rt.alloc(), 64)?);
    }
    Ok(())
}
