//! Layouts that are lengthened, by their slack and by one half bit more.
ghost use Rattle.std.specs.Prelude.{◌<◌, IfOk, length};
ghost use Rattle.layout.specs.Sound.{IsSound};

use layout::Layout;
use layout_file::read_layout;
use path_checker::{PathVerdict, check_paths};
use path_slack::{delay_fits, gap_fits, lengthen_delay, lengthen_gap};
use std::alloc::Global;
use std::test::Fail;

/// The layout of a file, which has no fault.
fn read(alloc: Global, text: &str) -> Result<Layout, Fail>
    ensures { IfOk result IsSound }
{
    match read_layout(alloc, text.as_bytes()) {
        Ok(layout) => Ok(layout),
        Err(_) => Err(Fail::from("a fault")),
    }
}

/// Two stations on one segment.
const TWO_STATIONS: &str = "\
format = 1
seed = 1
until_bits = 700
segment = [{name = \"x\"}]
station = [{name = \"a\", segment = \"x\", at = 0}, {name = \"b\", segment = \"x\", at = 10}]
";

/// A station on each of two segments, which a repeater joins.
const TWO_HOPS: &str = "\
format = 1
seed = 1
until_bits = 700
segment = [{name = \"x\"}, {name = \"y\"}]
station = [{name = \"a\", segment = \"x\", at = 0}, {name = \"b\", segment = \"y\", at = 30}]
repeater = [{name = \"r\", delay = 16, port = [{segment = \"x\", at = 20}, {segment = \"y\", at = 0}]}]
";

/// The verdict of a layout in which a gap has grown, and None where a place is out of bounds.
fn with_longer_gap(
    alloc: Global,
    layout: &Layout,
    segment: u32,
    high: u32,
    x: u32,
) -> Result<Option<PathVerdict>, Fail>
    requires { IsSound layout.now }
{
    if !gap_fits(layout, segment, high, x) {
        return Ok(None);
    }
    let longer = lengthen_gap(alloc, layout, segment, high, x)?;
    Ok(Some(check_paths(alloc, &longer)?))
}

/// The verdict of a layout in which a delay has grown, and None where the delay is out of bounds.
fn with_longer_delay(
    alloc: Global,
    layout: &Layout,
    repeater: u32,
    x: u32,
) -> Result<Option<PathVerdict>, Fail>
    requires sound { IsSound layout.now }
    requires repeater { repeater < length layout.now.repeaters }
{
    if !delay_fits(layout, repeater, x) {
        return Ok(None);
    }
    let slower = lengthen_delay(alloc, layout, repeater, x)?;
    Ok(Some(check_paths(alloc, &slower)?))
}

/// The verdict for the first two stations.
fn within(worst: u32) -> PathVerdict {
    PathVerdict::Within { worst, a: 0, b: 1 }
}

/// The verdict of two stations whose gap has grown.
fn longer_verdict(alloc: Global, x: u32) -> Result<Option<PathVerdict>, Fail> {
    let layout = read(alloc, TWO_STATIONS)?;
    with_longer_gap(alloc, &layout, 0, 10, x)
}

/// The verdict of two hops with a slower repeater.
fn slower_verdict(alloc: Global, x: u32) -> Result<Option<PathVerdict>, Fail> {
    let layout = read(alloc, TWO_HOPS)?;
    if layout.repeaters.len() == 0 {
        return Ok(None);
    }
    with_longer_delay(alloc, &layout, 0, x)
}

#[test]
fn examples_are_lengthened(rt: HostRuntime) -> Result<(), Fail> {
    let alloc = rt.alloc();
    let over = PathVerdict::Over {
        worst: 1024,
        a: 0,
        b: 1,
    };
    let gaps = [(405, Some(within(1022))), (406, Some(over)), (1991, None)];
    for (x, wanted) in gaps {
        assert_eq!(rt; longer_verdict(alloc, x)?, wanted, "{x}");
    }
    for (x, wanted) in [(184, Some(within(692))), (185, None)] {
        assert_eq!(rt; slower_verdict(alloc, x)?, wanted, "{x}");
    }
    Ok(())
}
