use cable_segment::Cable;
use lists::OutOfMemory;
use manchester_line::Sym;

/// Taps at 0, 10 and 20: tap 0 sends Hi in half bit 0 and tap 1 sends Lo in half bit 10, so both reach
/// tap 2 in half bit 20 and clash there.
#[test]
fn what_three_taps_hear(rt: HostRuntime) -> Result<(), OutOfMemory> {
    let mut cable = Cable::new(rt.alloc(), &[0, 10, 20], 0)?;
    assert_eq!(rt; cable.distance(2, 0), 20);
    for t in 0..31u32 {
        let heard = [cable.heard(0), cable.heard(1), cable.heard(2)];
        let want = match t {
            10 => [Sym::Idle, Sym::Hi, Sym::Idle],
            20 => [Sym::Lo, Sym::Idle, Sym::Clash],
            _ => [Sym::Idle, Sym::Idle, Sym::Idle],
        };
        assert_eq!(rt; heard, want, "half bit {t}");
        if t == 0 {
            cable.emit(0, Sym::Hi);
        }
        if t == 10 {
            cable.emit(1, Sym::Lo);
        }
        cable.advance();
    }
    Ok(())
}
