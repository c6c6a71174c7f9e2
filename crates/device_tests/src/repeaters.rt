ghost use Rattle.std.specs.Prelude.{◌≡◌, length};

use lists::OutOfMemory;
use manchester_line::{Sym, header_sym, jam_sym};
use port_partition::PortGuard;
use repeater_core::{Mode, Repeater};

/// The first half bit, from 0, at which the output is not the 100 symbols heard and 92 of the jam, one half bit late.
fn first_wrong_extension(repeater: &mut Repeater) -> Option<u32>
    requires { length repeater.old.guards ≡ 2 }
    ensures { length repeater.new.guards ≡ 2 }
{
    let mut emits = [Sym::Idle; 2];
    let mut decided = [Sym::Idle; 2];
    for t in 0..194 {
        let heard = if t < 100 { header_sym(t) } else { Sym::Idle };
        let want = match t {
            1..=100 => header_sym(t - 1),
            101..=192 => jam_sym(t - 101),
            _ => Sym::Idle,
        };
        let events = repeater.step(&[heard, Sym::Idle], &mut emits, &mut decided);
        if emits[0] != Sym::Idle || emits[1] != want || events.halted != 0 {
            return Some(t);
        }
    }
    None
}

#[test]
fn a_short_reception_is_made_longer(rt: HostRuntime) -> Result<(), OutOfMemory> {
    let mut repeater = Repeater::new(rt.alloc(), 2, 1)?;
    assert_eq!(rt; first_wrong_extension(&mut repeater), None);
    assert_eq!(rt; repeater.mode(), Mode::Idle);
    assert!(rt; !repeater.guard(1).closed);
    Ok(())
}

/// The first half bit, from 0, at which a jabber's output or its halting is not as it must be.
fn first_wrong_jabber(repeater: &mut Repeater) -> Option<u32>
    requires { length repeater.old.guards ≡ 2 }
{
    let mut emits = [Sym::Idle; 2];
    let mut decided = [Sym::Idle; 2];
    for t in 0..100_301 {
        let heard = if t < 100_300 { Sym::Hi } else { Sym::Idle };
        let events = repeater.step(&[heard, Sym::Idle], &mut emits, &mut decided);
        let as_it_must = match t {
            1..=100_000 => emits[1] != Sym::Idle,
            100_193..=100_300 => emits[1] == Sym::Hi,
            _ => emits[1] == Sym::Idle,
        };
        let halted = if t == 100_000 { 2 } else { 0 };
        if !as_it_must || events.halted != halted {
            return Some(t);
        }
    }
    None
}

#[test]
fn a_jabber_is_halted_for_192_half_bits(rt: HostRuntime) -> Result<(), OutOfMemory> {
    let mut repeater = Repeater::new(rt.alloc(), 2, 1)?;
    assert_eq!(rt; first_wrong_jabber(&mut repeater), None);
    Ok(())
}

fn walk(repeater: &mut Repeater, hears: &[Sym; 3], times: u32) -> Mode
    requires { length repeater.old.guards ≡ 3 }
    ensures { length repeater.new.guards ≡ 3 }
{
    let mut emits = [Sym::Idle; 3];
    let mut decided = [Sym::Idle; 3];
    for t in 0..times {
        repeater.step(hears, &mut emits, &mut decided);
    }
    repeater.mode()
}

/// What three ports hear, for how many half bits, and the mode after them.
type Leg = ([Sym; 3], u32, Mode);

const QUIET: [Sym; 3] = [Sym::Idle, Sym::Idle, Sym::Idle];

const FIRST: [Sym; 3] = [Sym::Hi, Sym::Idle, Sym::Idle];

const SECOND: [Sym; 3] = [Sym::Idle, Sym::Hi, Sym::Idle];

const CLASH: [Sym; 3] = [Sym::Clash, Sym::Idle, Sym::Idle];

const TWO: [Sym; 3] = [Sym::Hi, Sym::Hi, Sym::Idle];

/// The first leg of a walk that leads to another mode.
fn first_wrong_leg(repeater: &mut Repeater, legs: &[Leg]) -> Option<usize>
    requires { length repeater.old.guards ≡ 3 }
    ensures { length repeater.new.guards ≡ 3 }
{
    for (place, (hears, times, after)) in legs.iter().enumerate() {
        if walk(repeater, hears, *times) != *after {
            return Some(place);
        }
    }
    None
}

/// The lines of the mode table, one after another: those that lead from a reception and from a collision, and then those
/// that lead from the reception of a port into a clash or to its end.
#[test]
fn each_line_of_the_mode_table_is_taken(rt: HostRuntime) -> Result<(), OutOfMemory> {
    let mut repeater = Repeater::new(rt.alloc(), 3, 1)?;
    let legs = [
        (QUIET, 1, Mode::Idle),
        (FIRST, 2, Mode::Repeat { n: 0, i: 1 }),
        (QUIET, 1, Mode::Extend { n: 0, i: 2, j: 0 }),
        (QUIET, 1, Mode::Extend { n: 0, i: 3, j: 1 }),
        (FIRST, 2, Mode::RxClash { n: 0, i: 1 }),
        (QUIET, 190, Mode::RxClash { n: 0, i: 191 }),
        (QUIET, 1, Mode::Idle),
        (CLASH, 1, Mode::RxClash { n: 0, i: 0 }),
        (SECOND, 1, Mode::TxClash { i: 0 }),
        (QUIET, 191, Mode::TxClash { i: 191 }),
        (QUIET, 1, Mode::Idle),
        (TWO, 193, Mode::TxClash { i: 192 }),
        (SECOND, 1, Mode::OnePort { n: 1, i: 0 }),
        (SECOND, 1, Mode::OnePort { n: 1, i: 1 }),
        (FIRST, 1, Mode::TxClash { i: 0 }),
        (TWO, 192, Mode::TxClash { i: 192 }),
        (SECOND, 1, Mode::OnePort { n: 1, i: 0 }),
        (QUIET, 1, Mode::Idle),
        (FIRST, 1, Mode::Repeat { n: 0, i: 0 }),
        (SECOND, 1, Mode::TxClash { i: 0 }),
        (QUIET, 192, Mode::Idle),
        (FIRST, 1, Mode::Repeat { n: 0, i: 0 }),
        (CLASH, 1, Mode::RxClash { n: 0, i: 0 }),
        (QUIET, 192, Mode::Idle),
        (FIRST, 1, Mode::Repeat { n: 0, i: 0 }),
        (QUIET, 1, Mode::Extend { n: 0, i: 1, j: 0 }),
        (SECOND, 1, Mode::TxClash { i: 0 }),
        (QUIET, 192, Mode::Idle),
        (FIRST, 197, Mode::Repeat { n: 0, i: 192 }),
        (QUIET, 1, Mode::Idle),
        (FIRST, 2, Mode::Repeat { n: 0, i: 1 }),
        (QUIET, 191, Mode::Idle),
    ];
    assert_eq!(rt; first_wrong_leg(&mut repeater, &legs), None);
    Ok(())
}

#[test]
fn a_repeater_goes_on_with_its_rests(rt: HostRuntime) -> Result<(), OutOfMemory> {
    assert_eq!(rt; Repeater::new(rt.alloc(), 2, 7)?.calm(), 4_096);
    let guards = [PortGuard::new(), PortGuard::new()];
    let repeater = Repeater::resume(rt.alloc(), 7, &guards, &[0, 12])?;
    assert_eq!(rt; (repeater.rest(0), repeater.rest(1)), (0, 12));
    assert_eq!(rt; (repeater.mode(), repeater.calm()), (Mode::Idle, 4_096));
    Ok(())
}
