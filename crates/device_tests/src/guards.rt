use port_partition::{GuardEvent, PortGuard};

#[test]
fn a_row_closes_and_a_clean_run_lets_open(rt: HostRuntime) {
    let mut guard = PortGuard::new();
    for _ in 0..30 {
        assert_eq!(rt; guard.step(true, true, true), GuardEvent::None);
        assert_eq!(rt; guard.step(false, false, false), GuardEvent::None);
    }
    assert_eq!(rt; guard.step(true, true, true), GuardEvent::Closed);
    for _ in 0..1_023 {
        assert_eq!(rt; guard.step(true, false, false), GuardEvent::None);
    }
    let mut early = guard;
    assert_eq!(rt; early.step(false, false, false), GuardEvent::None);
    assert!(rt; early.closed);
    assert_eq!(rt; guard.step(true, false, false), GuardEvent::None);
    let mut later = guard;
    assert_eq!(rt; later.step(true, false, false), GuardEvent::None);
    assert_eq!(rt; later.step(false, false, false), GuardEvent::Opened);
    assert_eq!(rt; guard.step(false, false, false), GuardEvent::Opened);
    assert!(rt; !guard.closed);
}

#[test]
fn one_collision_closes_at_its_2049th_half_bit(rt: HostRuntime) {
    let mut guard = PortGuard::new();
    for _ in 0..2_048 {
        assert_eq!(rt; guard.step(true, true, false), GuardEvent::None);
    }
    assert_eq!(rt; guard.step(true, true, false), GuardEvent::Closed);
}
