//! A layout of as many sends as there may be, for which a layout file has no room.
ghost use Rattle.std.specs.Prelude.{◌≡◌, ◌<◌, ◌≤◌, All, IfOk, length};
ghost use Rattle.layout.specs.Limits.{most_sends};
ghost use Rattle.layout.specs.Sound.{IsSound, IsSoundSend};

use case_support::no_loads;
use layout::{Layout, SendLine, SendLines};
use layout_file::read_layout;
use lists::{List, OutOfMemory};
use load_plan::{Plan, make_plan};
use std::alloc::Global;
use std::test::Fail;

const TWO_STATIONS: &str = r#"format = 1
seed = 1
until_bits = 700
segment = [{ name = "x" }]
station = [{ name = "a", segment = "x", at = 0 }, { name = "b", segment = "x", at = 10 }]
"#;

/// A send of the second station, as short as may be.
fn send(alloc: Global, at: u32) -> Result<SendLine, OutOfMemory>
    requires { at ≤ most_sends }
    ensures { IfOk result (IsSoundSend 1 2) }
{
    let mut octets = List::new(alloc);
    octets.extend(&[255, 255, 255, 255, 255, 255, 2, 0, 0, 0, 0, 0, 8, 0])?;
    Ok(SendLine {
        station: 1,
        at: at as u64,
        octets,
    })
}

/// So many sends, each ready a half bit after the one before it.
fn sends(alloc: Global, count: u32) -> Result<SendLines, OutOfMemory>
    requires { count ≤ most_sends }
    ensures count { IfOk result (λ sends. length sends ≡ count) }
    ensures sound { IfOk result (All (IsSoundSend 1 2)) }
{
    let mut sends = List::new(alloc);
    for at in 0..count {
        sends.push(send(alloc, at)?)?;
    }
    Ok(sends)
}

/// The layout with so many sends.
fn with_sends(alloc: Global, layout: Layout, count: u32) -> Result<Layout, OutOfMemory>
    requires sound { IsSound layout }
    requires format { layout.format ≡ 1 }
    requires stations { length layout.stations ≡ 2 }
    requires count { count ≤ most_sends }
    ensures sound { IfOk result IsSound }
    ensures stations { IfOk result (λ l. length l.stations ≡ 2) }
{
    Ok(Layout {
        format: layout.format,
        seed: layout.seed,
        until_bits: layout.until_bits,
        segments: layout.segments,
        stations: layout.stations,
        repeaters: layout.repeaters,
        sends: sends(alloc, count)?,
    })
}

/// The plan of two stations of which the second has so many sends.
fn plan_of_sends(alloc: Global, count: u32) -> Result<Plan, Fail>
    requires { count ≤ most_sends }
    ensures { IfOk result (λ plan. length plan.queues ≡ 2) }
{
    let layout = read_layout(alloc, TWO_STATIONS.as_bytes())?;
    if layout.format != 1 || layout.stations.len() != 2 {
        return Err(Fail::from("another layout"));
    }
    let layout = with_sends(alloc, layout, count)?;
    Ok(make_plan(alloc, layout, no_loads(alloc, 2)?)?)
}

/// How many frames a station has to send, and when the last of them is ready.
fn last_frame(plan: &Plan, station: usize) -> (u32, Option<u64>)
    requires { station < length plan.now.queues }
{
    let queue = plan.queues.get(station);
    let count = queue.len();
    if count == 0 {
        return (0, None);
    }
    (count, Some(queue.get(count - 1).at))
}

#[test]
fn the_most_sends_are_planned(rt: HostRuntime) -> Result<(), Fail> {
    let plan = plan_of_sends(rt.alloc(), 65_536)?;
    assert_eq!(rt; last_frame(&plan, 0), (0, None));
    assert_eq!(rt; last_frame(&plan, 1), (65_536, Some(65_535)));
    Ok(())
}
