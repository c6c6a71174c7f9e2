//! A repeater as a part of a plan.

use case_support::plan_of;
use load_plan::Plan;
use net_parts::{Part, PartOutputs};
use repeater_engine::RepeaterPart;
use std::alloc::Global;
use std::test::Fail;

/// Two segments with a station each, and a repeater between them. Its port on segment x is 30 half bits from the other
/// tap there, and its delay is 8, so that a window has 38.
const TWO_SEGMENTS: &str = r#"format = 1
seed = 1
until_bits = 6000
segment = [{ name = "x" }, { name = "y" }]
station = [{ name = "a", segment = "x", at = 0 }, { name = "b", segment = "y", at = 0 }]
repeater = [{ name = "r", delay = 8, port = [{ segment = "x", at = 30 }, { segment = "y", at = 40 }] }]
"#;

/// The part of the repeater of a plan, with room for a window.
fn part_of(alloc: Global, plan: &Plan) -> Result<RepeaterPart, Fail> {
    if plan.layout.repeaters.len() != 1 {
        return Err(Fail::from("another layout"));
    }
    let mut part = RepeaterPart::new(alloc, plan, 0)?;
    part.reserve_window()?;
    Ok(part)
}

/// Whether the part stands behind the two segments, has its two edges, and has made no window.
fn is_begun(part: &RepeaterPart) -> bool {
    part.part() == 2
        && part.window() == 0
        && part.windows() == 12_000u64.div_ceil(38)
        && part.edges() == [0, 1].as_slice()
}

/// Whether the part hands out nothing.
fn is_empty(outputs: &PartOutputs) -> bool {
    outputs.part == 2 && outputs.rows.len() == 0 && outputs.captures.len() == 0
}

/// The part of the repeater stands behind the two segments, has its two edges, and hands out what there is before the
/// first window, which is nothing.
#[test]
fn a_repeater_is_a_part_of_its_plan(rt: HostRuntime) -> Result<(), Fail> {
    let plan = plan_of(rt.alloc(), TWO_SEGMENTS)?;
    let part = part_of(rt.alloc(), &plan)?;
    assert!(rt; is_begun(&part));
    let outputs = part.take_out()?;
    assert!(rt; is_empty(&outputs));
    Ok(())
}
