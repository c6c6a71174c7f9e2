//! A gate that lets every part pass at once, warns before a long run, and shows on a terminal how much of it is done.

use outside::Gate;
use std::sync::atomic::{AtomicU64, Ordering};
use std::time::Clock;

/// How often a run looks at the clock, at most.
const MOST_LOOKS: u64 = 4_096;

/// From how many half bits on, of all parts together, a run may take a second and more.
const LONG: u64 = 100_000_000;

/// The least time between two lines, in milliseconds.
const BETWEEN_LINES: u64 = 200;

/// Tells how far part 0 is, by one line of standard error that is written over. It stands for all parts: none can be
/// further ahead of it than there are edges between them. Part 0 is with one worker at a time, so lines don't mix.
#[derive(Drop)]
pub struct Progress<R> {
    rt: R,
    is_shown: bool,
    /// What is said before a long run begins, where there is anything.
    warning: Option<String>,
    windows: AtomicU64,
    half_bits: AtomicU64,
    /// The window in which part 0 looks at the clock next.
    due: AtomicU64,
    /// When the run began and when the last line was written, by the clock, in milliseconds.
    begun: AtomicU64,
    told: AtomicU64,
    /// How many lines were written since the last one was blanked.
    lines: AtomicU64,
}

impl<R: Eprint + Clock> Progress<R> {
    /// Shows nothing before a run begins, and how much is done only if it is to be shown.
    pub fn new(rt: R, is_shown: bool, warning: Option<String>) -> Progress<R> {
        Progress {
            rt,
            is_shown,
            warning,
            windows: AtomicU64::new(0),
            half_bits: AtomicU64::new(0),
            due: AtomicU64::new(u64::MAX),
            begun: AtomicU64::new(0),
            told: AtomicU64::new(0),
            lines: AtomicU64::new(0),
        }
    }

    /// Blanks the line, if there is one.
    pub fn clear(&self) {
        if self.lines.swap(0, Ordering::SeqCst) > 0 {
            let _ = eprint!(self.rt; "\r{:64}\r", "");
        }
    }

    /// The clock in milliseconds, or 0 where it can't be read.
    fn now(&self) -> u64 {
        match self.rt.monotonic() {
            Ok(time) => time
                .as_secs()
                .saturating_mul(1_000)
                .saturating_add(u64::from(time.subsec_millis())),
            Err(_) => 0,
        }
    }

    /// Writes a line where the last one is old enough, and blanks it where the last window begins.
    #[cold]
    fn look(&self, window: u64) {
        let windows = self.windows.load(Ordering::SeqCst);
        let last = windows.saturating_sub(1);
        if window >= last {
            self.due.store(u64::MAX, Ordering::SeqCst);
            return self.clear();
        }
        let next = window.saturating_add(windows / MOST_LOOKS + 1);
        self.due.store(next.min(last), Ordering::SeqCst);
        let now = self.now();
        if now.saturating_sub(self.told.load(Ordering::SeqCst)) >= BETWEEN_LINES {
            self.told.store(now, Ordering::SeqCst);
            self.lines.fetch_add(1, Ordering::SeqCst);
            self.tell(window, windows, now);
        }
    }

    fn tell(&self, window: u64, windows: u64, now: u64) {
        let half_bits = self.half_bits.load(Ordering::SeqCst);
        let passed = now.saturating_sub(self.begun.load(Ordering::SeqCst));
        let done = share_of(half_bits, window, windows);
        let percent = share_of(100, window, windows);
        let left = share_of(passed, windows.saturating_sub(window), window) / 1_000;
        let _ = eprint!(self.rt;
            "\rnetsim: {done:>10} of {half_bits} half bits, {percent:>3} %, {left:>6} s left"
        );
    }
}

/// So many times the part of the whole, rounded down; 0 of no whole.
fn share_of(number: u64, part: u64, whole: u64) -> u64 {
    number.saturating_mul(part).checked_div(whole).unwrap_or(0)
}

impl<R: Eprint + Clock + Sync> Gate for Progress<R> {
    fn begin(&self, parts: u32, windows: u64, half_bits: u64) {
        if let Some(warning) = &self.warning {
            if half_bits.saturating_mul(u64::from(parts)) >= LONG {
                let _ = eprint!(self.rt; "{warning}");
            }
        }
        if self.is_shown {
            let now = self.now();
            self.windows.store(windows, Ordering::SeqCst);
            self.half_bits.store(half_bits, Ordering::SeqCst);
            self.begun.store(now, Ordering::SeqCst);
            self.told.store(now, Ordering::SeqCst);
            self.due.store(1, Ordering::SeqCst);
        }
    }

    fn enter(&self, part: u32, window: u64) {
        if part == 0 && window >= self.due.load(Ordering::SeqCst) {
            self.look(window);
        }
    }
}
