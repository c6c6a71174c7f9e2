//! The layouts of demo, of which the program says the size and what comes of them.
use demo_layout::demo;
use layout::Layout;
use std::test::Fail;

/// One number more in a sum of numbers in which their order counts.
fn mixed(sum: u64, number: u64) -> u64 {
    sum.wrapping_mul(1_099_511_628_211).wrapping_add(number)
}

/// These octets more, and how many they are.
fn mixed_octets(sum: u64, octets: &[u8]) -> u64 {
    let mut sum = mixed(sum, octets.len() as u64);
    for octet in octets {
        sum = mixed(sum, *octet as u64);
    }
    sum
}

/// The names, the taps and the delays of a layout in one number.
fn sum_of_rows(layout: &Layout) -> u64 {
    let mut sum = 0u64;
    for row in layout.segments.as_slice() {
        sum = mixed_octets(sum, row.name.as_str().as_bytes());
    }
    for row in layout.stations.as_slice() {
        sum = mixed_octets(sum, row.name.as_str().as_bytes());
        sum = mixed(mixed(sum, row.segment as u64), row.at as u64);
    }
    for row in layout.repeaters.as_slice() {
        sum = mixed_octets(sum, row.name.as_str().as_bytes());
        sum = mixed(sum, row.delay as u64);
        for port in row.ports.as_slice() {
            sum = mixed(mixed(sum, port.segment as u64), port.at as u64);
        }
    }
    sum
}

/// What a layout sends in one number.
fn sum_of_sends(layout: &Layout) -> u64 {
    let mut sum = 0u64;
    for row in layout.sends.as_slice() {
        sum = mixed(mixed(sum, row.station as u64), row.at);
        sum = mixed_octets(sum, row.octets.as_slice());
    }
    sum
}

/// All rows and sends together are those that another program makes.
#[test]
fn sums_are_those_of_another_program(rt: HostRuntime) -> Result<(), Fail> {
    for (number, rows, sends) in [
        (1, 15_752_108_699_552_667_551, 10_705_987_325_392_290_513),
        (8, 9_262_475_495_024_172_267, 11_482_698_123_653_277_456),
        (128, 6_982_317_642_988_504_469, 6_050_207_110_835_608_444),
    ] {
        let layout = demo(rt.alloc(), number)?;
        assert_eq!(rt;
            (sum_of_rows(&layout), sum_of_sends(&layout)),
            (rows, sends)
        );
    }
    Ok(())
}
