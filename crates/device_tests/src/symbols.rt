use manchester_line::{
    Decoder, Heard, Sym, encode_into, half_of, header_sym, jam_sym, line_sym, mix,
};

/// The seven octets of the preamble and the start frame delimiter (clause 3).
const PREAMBLE: [u8; 8] = [0x55, 0x55, 0x55, 0x55, 0x55, 0x55, 0x55, 0xD5];

#[test]
fn the_preamble_ends_with_the_delimiter(rt: HostRuntime) {
    let mut out = [Sym::Idle; 256];
    let length = encode_into(&PREAMBLE, &mut out);
    assert_eq!(rt; length, 256);
    for i in 0..128 {
        assert_eq!(rt; out[i + 128], header_sym(i as u32));
        assert_eq!(rt; out[i + 128], line_sym(&PREAMBLE, i as u32 + 128));
    }
    assert_eq!(rt; line_sym(&PREAMBLE, 256), Sym::Idle);
}

#[test]
fn halves_jam_and_mixes(rt: HostRuntime) {
    assert_eq!(rt;
        [half_of(true, false), half_of(true, true)],
        [Sym::Lo, Sym::Hi]
    );
    assert_eq!(rt;
        [jam_sym(4), jam_sym(1), jam_sym(2), jam_sym(3)],
        [Sym::Lo, Sym::Hi, Sym::Hi, Sym::Lo]
    );
    assert_eq!(rt;
        [
            mix(Sym::Hi, Sym::Hi),
            mix(Sym::Idle, Sym::Lo),
            mix(Sym::Idle, Sym::Idle)
        ],
        [Sym::Clash, Sym::Lo, Sym::Idle]
    );
}

#[test]
fn a_decoder_reads_octets_and_spare_bits(rt: HostRuntime) {
    let mut decoder = Decoder::new();
    // The bits 1, 1, then 0x31 from its least bit on, and then 1.
    for bit in [
        true, true, true, false, false, false, true, true, false, false, true,
    ] {
        decoder.push(half_of(bit, false));
        decoder.push(half_of(bit, true));
    }
    let heard = Heard {
        octets: 1,
        spare: 1,
        spoiled: false,
        halves: 22,
    };
    assert_eq!(rt; decoder.heard(), heard);
    assert_eq!(rt; decoder.octets(), [0x31].as_slice());
    decoder.push(Sym::Clash);
    assert_eq!(rt; decoder.heard().spoiled, true);
    decoder.clear();
    assert_eq!(rt; decoder.heard().halves, 0);
}
