//! A network of one segment by its part alone.
use case_support::plan_of;
use lists::OutOfMemory;
use load_plan::Plan;
use net_parts::Part;
use segment_engine::SegmentPart;
use std::alloc::Global;

/// Four stations, the first of which sends a frame and then nothing more.
const QUIET: &str = r#"format = 1
seed = 1
until_bits = 1000000000
segment = [{ name = "x" }]
station = [
  { name = "a", segment = "x", at = 0 },
  { name = "b", segment = "x", at = 10 },
  { name = "c", segment = "x", at = 20 },
  { name = "d", segment = "x", at = 30 },
]
send = [{ station = "a", at = 0, octets = "ffffffffffff0200000000010800" }]
"#;

/// The half bits of that layout.
const HALF_BITS: u64 = 2 * 1_000_000_000;

/// Runs all windows of the one segment of a plan, and answers the number of its rows.
fn rows_of(alloc: Global, plan: &Plan) -> Result<usize, OutOfMemory> {
    if plan.layout.segments.len() != 1 {
        return Err(OutOfMemory);
    }
    let mut part = SegmentPart::new(alloc, plan, 0)?;
    for _window in 0..part.windows() {
        if !part.edges().is_empty() || part.window() >= part.windows() {
            return Err(OutOfMemory);
        }
        part.reserve_window()?;
        part.run_window(&mut []);
    }
    Ok(part.take_out()?.rows.len())
}

/// Runs a segment on which hardly anything happens, and answers its half bits.
pub fn quiet_segment(alloc: Global) -> Result<u64, OutOfMemory> {
    let Ok(plan) = plan_of(alloc, QUIET) else {
        return Err(OutOfMemory);
    };
    let rows = rows_of(alloc, &plan)?;
    Ok(HALF_BITS + (rows % 2) as u64)
}
