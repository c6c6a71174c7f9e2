//! What taps hear by their lines, with numbers worked out by hand.
ghost use Rattle.std.specs.Prelude.{◌≡◌, ◌≤◌, IfSome, length};
ghost use Rattle.tap_lines.specs.TapLines.{IsOnlySource, IsReachOf};
ghost use Rattle.tap_lines.specs.TapLists.{AreLoudTaps};

use lists::OutOfMemory;
use manchester_line::Sym;
use std::alloc::Global;
use tap_lines::{Line, LoudTaps, class_ahead, farthest, hear_listed, piece_of};

/// A line at place 0 that emits Idle, three signals and Idle.
fn loud_line(alloc: Global) -> Result<Line, OutOfMemory> {
    let mut line = Line::new(alloc, 0, 4, 20, 8)?;
    line.extend(&[Sym::Idle, Sym::Hi, Sym::Lo, Sym::Hi, Sym::Idle]);
    Ok(line)
}

/// A line at place 10 that emits Idle five times.
fn quiet_line(alloc: Global) -> Result<Line, OutOfMemory> {
    let mut line = Line::new(alloc, 10, 4, 20, 8)?;
    line.rest(5);
    Ok(line)
}

/// Whether tap 1 hears one signal of tap 0's line in half bit 13, and no more is known of what either hears.
fn is_heard(lines: &[Line], source: Option<usize>, loud: &LoudTaps) -> bool
    requires taps { length lines.now ≡ 2 }
    requires reach { IsReachOf 10 4 lines.now }
    requires source { IfSome source (IsOnlySource 3 lines.now) }
    requires loud { AreLoudTaps 3 lines.now loud.now.taps }
{
    let piece = match piece_of(lines, source, 1, 4, 10, 13, 1) {
        Some(piece) => piece == [Sym::Hi].as_slice(),
        None => false,
    };
    piece
        && piece_of(lines, source, 1, 4, 10, 13, 2).is_none()
        && piece_of(lines, source, 0, 4, 10, 13, 1).is_none()
        && class_ahead(lines, loud, 0, 4, 10, 13, 5, false) == 5
        && class_ahead(lines, loud, 1, 4, 10, 13, 5, true) == 1
}

/// Whether from half bit 3 on tap 0 alone is loud, and is heard so, and from half bit 4 on none is.
fn is_only_heard(lines: &[Line], loud: &mut LoudTaps) -> bool
    requires taps { length lines.now ≡ 2 }
    requires room { 2 ≤ loud.old.room }
{
    if farthest(lines, 4) != 10 {
        return false;
    }
    loud.find(lines, 4);
    let none = loud.only() == None;
    loud.find(lines, 3);
    let source = loud.only();
    none && source == Some(0) && is_heard(lines, source, loud)
}

/// Two taps 10 half bits apart: from half bit 0 on the first emits Idle, three signals and Idle, the other Idle, five
/// times. A window has 4 half bits.
#[test]
fn one_line_is_heard_by_the_other_tap(rt: HostRuntime) -> Result<(), OutOfMemory> {
    let lines = [loud_line(rt.alloc())?, quiet_line(rt.alloc())?];
    let mut loud = LoudTaps::new(rt.alloc(), 2)?;
    assert!(rt; is_only_heard(&lines, &mut loud));
    Ok(())
}

/// A line at place 20 that emits Idle 17 times.
fn listener_line(alloc: Global) -> Result<Line, OutOfMemory> {
    let mut line = Line::new(alloc, 20, 4, 20, 20)?;
    line.rest(17);
    Ok(line)
}

/// A line at place 0 that emits four signals, and then Idle.
fn first_line(alloc: Global) -> Result<Line, OutOfMemory> {
    let mut line = Line::new(alloc, 0, 4, 20, 20)?;
    line.extend(&[Sym::Hi, Sym::Lo, Sym::Hi, Sym::Lo]);
    line.rest(13);
    Ok(line)
}

/// A line at place 10 that emits Idle, then four signals, and Idle.
fn second_line(alloc: Global) -> Result<Line, OutOfMemory> {
    let mut line = Line::new(alloc, 10, 4, 20, 20)?;
    line.rest(13);
    line.extend(&[Sym::Hi, Sym::Lo, Sym::Hi, Sym::Lo]);
    line.rest(1);
    Ok(line)
}

/// Whether from half bit 17 on no tap is loud, from 4 on tap 2 alone, and from 0 on taps 1 and 2.
fn are_found(lines: &[Line], loud: &mut LoudTaps) -> bool
    requires { length lines.now ≤ loud.old.room }
    ensures { AreLoudTaps 0 lines.now loud.new.taps }
{
    loud.find(lines, 17);
    let none = loud.len() == 0;
    loud.find(lines, 4);
    let one = loud.only() == Some(2);
    loud.find(lines, 0);
    none && one && loud.len() == 2 && loud.only() == None && loud.tap(0) == 1 && loud.tap(1) == 2
}

/// Whether all taps hear a signal or Idle from half bit 20 on, and for as long as they must.
fn hear_now(lines: &[Line], loud: &LoudTaps) -> bool
    requires taps { length lines.now ≡ 3 }
    requires reach { IsReachOf 20 4 lines.now }
    requires loud { AreLoudTaps 0 lines.now loud.now.taps }
{
    class_ahead(lines, loud, 0, 4, 20, 20, 10, true) == 7
        && class_ahead(lines, loud, 1, 4, 20, 20, 10, false) == 3
        && class_ahead(lines, loud, 2, 4, 20, 20, 10, false) == 10
}

/// Whether tap 0 hears what it must in the eight half bits from 20 on.
fn hears_piece(lines: &[Line], loud: &LoudTaps) -> bool
    requires taps { length lines.now ≡ 3 }
    requires reach { IsReachOf 20 4 lines.now }
    requires loud { AreLoudTaps 0 lines.now loud.now.taps }
{
    let mut piece = [Sym::Clash; 8];
    hear_listed(lines, loud, 0, 4, 20, 20, &mut piece);
    piece
        == [
            Sym::Hi,
            Sym::Lo,
            Sym::Hi,
            Sym::Clash,
            Sym::Lo,
            Sym::Hi,
            Sym::Lo,
            Sym::Idle,
        ]
}

/// Whether the taps are found and hear what they must.
fn are_heard(lines: &[Line], loud: &mut LoudTaps) -> bool
    requires taps { length lines.now ≡ 3 }
    requires room { 3 ≤ loud.old.room }
{
    if farthest(lines, 4) != 20 {
        return false;
    }
    are_found(lines, loud) && hear_now(lines, loud) && hears_piece(lines, loud)
}

/// Tap 0 listens at place 20. Tap 1, at place 0, emits signals in half bits 0 to 3, and tap 2, at place 10, in half
/// bits 13 to 16. So tap 0 hears the first 20 half bits later, in 20 to 23, and the others 10 half bits later, in 23
/// to 26: in 23 they clash. Tap 1 hears tap 2 from half bit 23 on.
#[test]
fn a_tap_hears_two_lines_one_after_another(rt: HostRuntime) -> Result<(), OutOfMemory> {
    let alloc = rt.alloc();
    let lines = [
        listener_line(alloc)?,
        first_line(alloc)?,
        second_line(alloc)?,
    ];
    let mut loud = LoudTaps::new(alloc, 3)?;
    assert!(rt; are_heard(&lines, &mut loud));
    Ok(())
}
