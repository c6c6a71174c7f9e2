use mac_parameters::{
    ATTEMPT_LIMIT, BACKOFF_LIMIT, BIT_512, CHECK_SEQUENCE, FRAGMENT_EXTENSION, GREATEST_FRAME,
    HALF_BITS_A_BIT, HALF_BITS_AN_OCTET, INTERFRAME_GAP, JAM_SIZE, LEAST_FRAME, LEAST_OCTETS,
    MOST_OCTETS_TAGGED, MOST_OCTETS_UNTAGGED, NANOSECONDS_A_HALF_BIT, PREAMBLE, SHORTEST_LINE_TEXT,
    SHORTEST_SENDING, SLOT_TIME, most_octets,
};

/// Each number is that of the standard's own unit: bits, octets or microseconds (IEEE 802.3, table 4-2 and clause 3).
#[test]
fn numbers_are_the_standards(rt: HostRuntime) {
    for (ours, standards) in [
        (SLOT_TIME, 512 * HALF_BITS_A_BIT),
        (INTERFRAME_GAP, 9_600 / NANOSECONDS_A_HALF_BIT as u32),
        (ATTEMPT_LIMIT, 16),
        (BACKOFF_LIMIT, 10),
        (JAM_SIZE, 32 * HALF_BITS_A_BIT),
        (LEAST_FRAME, 512 / 8),
        (LEAST_OCTETS, LEAST_FRAME - CHECK_SEQUENCE),
        (MOST_OCTETS_UNTAGGED, 1_518 - CHECK_SEQUENCE),
        (MOST_OCTETS_TAGGED, MOST_OCTETS_UNTAGGED + 4),
        (GREATEST_FRAME, MOST_OCTETS_TAGGED + CHECK_SEQUENCE),
        (PREAMBLE, (7 + 1) * HALF_BITS_AN_OCTET),
        (
            SHORTEST_LINE_TEXT,
            PREAMBLE + LEAST_FRAME * HALF_BITS_AN_OCTET,
        ),
        (SHORTEST_SENDING, PREAMBLE + JAM_SIZE),
        (BIT_512, 511 * HALF_BITS_A_BIT),
        (FRAGMENT_EXTENSION, 96 * HALF_BITS_A_BIT),
        (most_octets(false), MOST_OCTETS_UNTAGGED),
        (most_octets(true), MOST_OCTETS_TAGGED),
    ] {
        assert_eq!(rt; ours, standards);
    }
}
