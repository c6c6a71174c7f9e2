use backoff_draw::Draws;

/// Where both stations draw 0 after their first collision they start again together. The least such
/// seed is known from an implementation of ChaCha8 that is not ours.
#[test]
fn the_least_seed_with_two_first_draws_of_zero(rt: HostRuntime) {
    let least = (0..100).find(|seed| {
        Draws::new(*seed, 0).draw(1) == 0 && Draws::new(*seed, 1).draw(1) == 0
    });
    assert_eq!(rt; least, Some(8));
}
