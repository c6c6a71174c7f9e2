//! A gate that writes down who enters, and parts that ask it whether they did.
ghost use Rattle.std.specs.Prelude.{◌≡◌, ◌<◌, ◌≤◌, ◌+◌, IfOk, length};

use lists::OutOfMemory;
use load_plan::Plan;
use net_parts::{Pace, Parcel, Part};
use outside::Gate;
use std::alloc::Global;
use std::sync::Wait;
use std::sync::atomic::{AtomicU64, Ordering};
use std::thread::Threads;
use turn_run::PartKind;
use worker_gate::{Gated, run_planned};

/// How often runs began, how many windows the last one has, for each part how many windows it entered, and how often one
/// entered another window than its next, or began one that it hadn't entered.
#[derive(Drop)]
pub struct Entries {
    begins: AtomicU64,
    windows: AtomicU64,
    entered: Vec<AtomicU64>,
    strays: AtomicU64,
}

impl Entries {
    /// Of so many parts.
    pub fn new(alloc: Global, parts: usize) -> Result<Entries, OutOfMemory> {
        let mut entered = Vec::new(alloc);
        for _ in 0..parts {
            entered.push(AtomicU64::new(0))?;
        }
        Ok(Entries {
            begins: AtomicU64::new(0),
            windows: AtomicU64::new(0),
            entered,
            strays: AtomicU64::new(0),
        })
    }

    fn stray(&self) {
        self.strays.fetch_add(1, Ordering::SeqCst);
    }

    /// A part begins a window.
    fn begin_window(&self, part: u32, window: u64) {
        match self.entered.get(part as usize) {
            Some(entered) if entered.load(Ordering::SeqCst) == window.saturating_add(1) => {}
            _ => self.stray(),
        }
    }

    /// Whether one run began, and each part entered each of its windows once, in order.
    pub fn are_whole(&self) -> bool {
        let windows = self.windows.load(Ordering::SeqCst);
        self.begins.load(Ordering::SeqCst) == 1
            && self.strays.load(Ordering::SeqCst) == 0
            && self
                .entered
                .iter()
                .all(|entered| entered.load(Ordering::SeqCst) == windows)
    }
}

impl Gate for Entries {
    fn begin(&self, parts: u32, windows: u64, _half_bits: u64) {
        self.begins.fetch_add(1, Ordering::SeqCst);
        self.windows.store(windows, Ordering::SeqCst);
        if parts as usize != self.entered.len() {
            self.stray();
        }
    }

    fn enter(&self, part: u32, window: u64) {
        match self.entered.get(part as usize) {
            Some(entered) if entered.swap(window.saturating_add(1), Ordering::SeqCst) == window =>
                {}
            _ => self.stray(),
        }
    }
}

/// A part that tells the gate of each window that it begins. All else it does as the part that it was made of.
#[derive(Drop)]
struct Watched<'e, P: Part> {
    part: P,
    entries: &'e Entries,
}

impl<'e, P: Part> Part for Watched<'e, P> {
    ghost plan = { λ s. P.plan s.part };

    ghost number = { λ s. P.number s.part };

    ghost at = { λ s. P.at s.part };

    ghost reserved = { λ s. P.reserved s.part };

    ghost keeps = { λ s. P.keeps s.part };

    fn part(&self) -> u32 {
        self.part.part()
    }

    fn window(&self) -> u64 {
        self.part.window()
    }

    fn windows(&self) -> u64 {
        self.part.windows()
    }

    fn edges(&self) -> &[u32] {
        self.part.edges()
    }

    fn reserve_window(&mut self) -> Result<(), OutOfMemory> {
        self.part.reserve_window()
    }

    fn run_window(&mut self, parcels: &mut [Parcel]) {
        self.entries
            .begin_window(self.part.part(), self.part.window());
        self.part.run_window(parcels);
    }

    ghost within = { λ s. P.within s.part };

    ghost stands = { λ s. P.stands s.part };
}

/// A part of a kind behind the gate, which it tells of each window that it begins.
fn make_watched<'e, K: PartKind>(
    alloc: Global,
    plan: &Plan,
    pace: &Pace,
    number: u32,
    entries: &'e Entries,
) -> Result<Gated<'e, Watched<'e, K>, Entries>, OutOfMemory>
    requires paced { pace.now.plan.value ≡ plan.now }
    requires within { number < K.many plan.now }
    ensures plan { IfOk result (λ gated. K.plan gated.part.part ≡ plan.now) }
    ensures number { IfOk result (λ gated. K.number gated.part.part ≡ K.first plan.now + number) }
    ensures at { IfOk result (λ gated. K.at gated.part.part ≡ 0) }
{
    let part = K::make(alloc, plan, pace, number)?;
    Ok(Gated::new(Watched { part, entries }, entries))
}

/// Runs a plan by so many workers on such parts. Says whether they are whole at the end.
pub fn is_run_watched<S: PartKind, R: PartKind, X: Threads + Wait + Sync>(
    rt: &X,
    alloc: Global,
    plan: &Plan,
    workers: u32,
    entries: &Entries,
) -> Result<bool, OutOfMemory>
    requires least { 1 ≤ workers }
    requires most { workers ≤ 64 }
    requires segments { S.many plan.now ≡ length plan.now.layout.segments }
    requires first_segment { S.first plan.now ≡ 0 }
    requires repeaters { R.many plan.now ≡ length plan.now.layout.repeaters }
    requires first_repeater { R.first plan.now ≡ length plan.now.layout.segments }
{
    let reckoned = Pace::of(plan);
    let pace = &reckoned;
    let parts = run_planned(
        rt,
        alloc,
        plan,
        pace,
        workers,
        entries,
        &|i| -> Result<Gated<'_, Watched<'_, S>, Entries>, OutOfMemory>
            requires within { i < S.many plan.now }
            requires paced { pace.now.plan.value ≡ plan.now }
        { make_watched(alloc, plan, pace, i, entries) },
        &|i| -> Result<Gated<'_, Watched<'_, R>, Entries>, OutOfMemory>
            requires within { i < R.many plan.now }
            requires paced { pace.now.plan.value ≡ plan.now }
        { make_watched(alloc, plan, pace, i, entries) },
    )?;
    Ok(parts.is_some())
}
