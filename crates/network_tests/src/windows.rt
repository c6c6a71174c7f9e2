//! The windows of layouts, the edges of their parts, and the parcels with which a run begins.
ghost use Rattle.std.specs.Prelude.{◌<◌, length};
ghost use Rattle.layout.specs.Sound.{IsSound};
ghost use Rattle.net_parts.specs.Parts.{parts};

use case_support::{no_loads, plan_of};
use demo_layout::demo;
use layout::Layout;
use layout_file::read_layout;
use lists::OutOfMemory;
use load_plan::{Plan, make_plan};
use manchester_line::Sym;
use net_parts::{Parcel, edges_of, lookahead, opening, windows};
use std::alloc::Global;
use std::test::Fail;

/// The repeater's delay and all ways as short as may be.
const SHORT: &str = r#"format = 1
seed = 1
until_bits = 600
segment = [{ name = "x" }, { name = "y" }]
station = [{ name = "a", segment = "x", at = 0 }, { name = "b", segment = "y", at = 1 }]
repeater = [{ name = "r", delay = 1, port = [{ segment = "x", at = 1 }, { segment = "y", at = 0 }] }]
send = [{ station = "a", at = 0, octets = "ffffffffffff0200000000010800" }]
"#;

/// The same, a half bit longer on both sides, in a run that ends in the middle of a window.
const UNEVEN: &str = r#"format = 1
seed = 1
until_bits = 700
segment = [{ name = "x" }, { name = "y" }]
station = [{ name = "a", segment = "x", at = 0 }, { name = "b", segment = "y", at = 2 }]
repeater = [{ name = "r", delay = 1, port = [{ segment = "x", at = 2 }, { segment = "y", at = 0 }] }]
send = [{ station = "a", at = 0, octets = "ffffffffffff0200000000010800" }]
"#;

/// A repeater whose ports are alone on their segments.
const ALONE: &str = r#"format = 1
seed = 1
until_bits = 5000
segment = [{ name = "x" }, { name = "y" }]
repeater = [{ name = "r", delay = 1, port = [{ segment = "x", at = 1 }, { segment = "y", at = 0 }] }]
"#;

/// The lookahead of a layout and the windows of its run.
fn told(alloc: Global, layout: Layout) -> Result<(u32, u64), OutOfMemory>
    requires { IsSound layout }
{
    let half_bits = lookahead(&layout);
    let loads = no_loads(alloc, layout.stations.len())?;
    let plan = make_plan(alloc, layout, loads)?;
    Ok((half_bits, windows(&plan)))
}

#[test]
fn windows_are_as_short_as_the_nearest_taps_allow(rt: HostRuntime) -> Result<(), Fail> {
    let alloc = rt.alloc();
    assert_eq!(rt;
        told(alloc, read_layout(alloc, SHORT.as_bytes())?)?,
        (2, 600)
    );
    assert_eq!(rt;
        told(alloc, read_layout(alloc, UNEVEN.as_bytes())?)?,
        (3, 467)
    );
    assert_eq!(rt;
        told(alloc, read_layout(alloc, ALONE.as_bytes())?)?,
        (4096, 3)
    );
    assert_eq!(rt; told(alloc, demo(alloc, 8)?)?, (38, 10527));
    Ok(())
}

/// Whether a part has these edges.
fn has_edges(alloc: Global, plan: &Plan, part: u32, edges: &[u32]) -> Result<bool, Fail>
    requires { part < parts plan.now }
{
    Ok(edges_of(alloc, plan, part)?.as_slice() == edges)
}

/// Whether a parcel is the one of edge 1 with which a run begins: two half bits of Idle.
fn is_idle(parcel: &Parcel) -> bool {
    parcel.edge == 1
        && parcel.window == 0
        && !parcel.to_repeater
        && !parcel.spoiled
        && parcel.symbols.as_slice() == [Sym::Idle, Sym::Idle].as_slice()
}

/// Whether segment 1 begins with that parcel alone.
fn opens_idle(alloc: Global, plan: &Plan) -> Result<bool, Fail>
    requires { 1 < length plan.now.layout.segments }
{
    let parcels = opening(alloc, plan, 1)?;
    match parcels.as_slice() {
        [parcel] => Ok(is_idle(parcel)),
        _ => Ok(false),
    }
}

/// Each segment has one port, and the repeater, which is part 2, both.
#[test]
fn parts_have_their_edges(rt: HostRuntime) -> Result<(), Fail> {
    let plan = plan_of(rt.alloc(), SHORT)?;
    if plan.layout.segments.len() == 2 && plan.layout.repeaters.len() == 1 {
        assert!(rt; has_edges(rt.alloc(), &plan, 0, &[0])?);
        assert!(rt; has_edges(rt.alloc(), &plan, 1, &[1])?);
        assert!(rt; has_edges(rt.alloc(), &plan, 2, &[0, 1])?);
        assert!(rt; opens_idle(rt.alloc(), &plan)?);
    }
    Ok(())
}
