//! How parts are dealt over workers.
use layout::Layout;
use layout_file::read_layout;
use lists::OutOfMemory;
use part_dealing::owners;
use std::alloc::Global;
use std::test::Fail;

/// Two segments with a station each, and the repeater between them.
const TWO_SEGMENTS: &str = r#"format = 1
seed = 1
until_bits = 130
segment = [{ name = "x" }, { name = "y" }]
station = [{ name = "a", segment = "x", at = 0 }, { name = "b", segment = "y", at = 30 }]
repeater = [{ name = "r", delay = 16, port = [{ segment = "x", at = 20 }, { segment = "y", at = 0 }] }]
"#;

/// A line of four segments, whose repeaters aren't in the line's order.
const FOUR_SEGMENTS: &str = r#"format = 1
seed = 1
until_bits = 130
segment = [{ name = "a" }, { name = "b" }, { name = "c" }, { name = "d" }]
repeater = [
    { name = "r", delay = 16, port = [{ segment = "c", at = 20 }, { segment = "d", at = 0 }] },
    { name = "s", delay = 16, port = [{ segment = "b", at = 20 }, { segment = "c", at = 0 }] },
    { name = "t", delay = 16, port = [{ segment = "a", at = 20 }, { segment = "b", at = 0 }] },
]
"#;

/// A layout of this text.
fn layout_of(alloc: Global, text: &str) -> Result<Layout, Fail> {
    match read_layout(alloc, text.as_bytes()) {
        Ok(layout) => Ok(layout),
        Err(_) => Err(Fail::from("a fault")),
    }
}

/// With two workers the segments of one repeater are on different workers.
#[test]
fn two_segments_are_apart(rt: HostRuntime) -> Result<(), Fail> {
    let alloc = rt.alloc();
    let layout = layout_of(alloc, TWO_SEGMENTS)?;
    let owners = owners(alloc, &layout, 2)?;
    assert!(rt; owners.len() == 3 && owners[0] == 0 && owners[1] == 1);
    Ok(())
}

/// Whether the parts are dealt over so many workers like this.
fn is_dealt(
    alloc: Global,
    layout: &Layout,
    workers: u32,
    expected: &[u32],
) -> Result<bool, OutOfMemory> {
    let owners = owners(alloc, layout, workers)?;
    if owners.len() != expected.len() {
        return Ok(false);
    }
    for i in 0..owners.len() {
        if i < expected.len() && owners[i] != expected[i] {
            return Ok(false);
        }
    }
    Ok(true)
}

/// Each worker gets a run of the line, which is walked from its first segment on.
#[test]
fn a_line_is_cut_into_runs(rt: HostRuntime) -> Result<(), Fail> {
    let alloc = rt.alloc();
    let layout = layout_of(alloc, FOUR_SEGMENTS)?;
    assert!(rt; is_dealt(alloc, &layout, 1, &[0, 0, 0, 0, 0, 0, 0])?);
    assert!(rt; is_dealt(alloc, &layout, 2, &[0, 0, 1, 1, 1, 1, 0])?);
    assert!(rt; is_dealt(alloc, &layout, 7, &[0, 2, 4, 6, 5, 3, 1])?);
    Ok(())
}
