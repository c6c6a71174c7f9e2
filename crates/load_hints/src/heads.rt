//! The head of a capture, and what begins as no capture that is read.

use crate::captures::tell_kept;
use input_hints::Message;

/// What begins as no capture that is read, and how a capture is made of it.
const FORMS: [(&[u8], &str); 8] = [
    (
        &[0x0a, 0x0d, 0x0d, 0x0a],
        "it is a pcapng file: editcap -F pcap OLD NEW makes a capture of it",
    ),
    (&[0x1f, 0x8b], "it is packed by gzip: gunzip unpacks it"),
    (
        &[0x28, 0xb5, 0x2f, 0xfd],
        "it is packed by zstd: unzstd unpacks it",
    ),
    (b"\xfd7zX", "it is packed by xz: unxz unpacks it"),
    (b"BZh", "it is packed by bzip2: bunzip2 unpacks it"),
    (b"PK", "it is a zip file: unzip unpacks it"),
    (&[0x34, 0xcd, 0xb2, 0xa1], OLDER_FORM),
    (&[0xa1, 0xb2, 0xcd, 0x34], OLDER_FORM),
];

const OLDER_FORM: &str =
    "it is of an older form of pcap: editcap -F pcap OLD NEW makes a capture of it";

pub fn other_form(head: &[u8]) -> &'static str {
    for (front, said) in FORMS {
        if head.starts_with(front) {
            return said;
        }
    }
    "it is no capture in the classic form of pcap; editcap -F pcap OLD NEW makes one of other captures"
}

/// The octet at a place, or 0.
pub fn octet_at(octets: &[u8], place: usize) -> u8 {
    octets.get(place).copied().unwrap_or(0)
}

/// The number in the four octets from a place on, or 0 where they aren't whole.
pub fn number_in(is_little: bool, octets: &[u8], place: usize) -> u32 {
    let four = match octets.get(place..) {
        Some([a, b, c, d, ..]) => [*a, *b, *c, *d],
        _ => [0; 4],
    };
    if is_little {
        u32::from_le_bytes(four)
    } else {
        u32::from_be_bytes(four)
    }
}

/// The name of a link type.
fn link_name(link: u32) -> &'static str {
    match link {
        0 => ", loopback",
        6 => ", Token Ring",
        9 => ", PPP",
        12 | 14 | 101 => ", IP without Ethernet",
        105 => ", 802.11 wireless",
        113 => ", Linux cooked, as of the interface any",
        127 => ", 802.11 wireless with radiotap",
        228 => ", IPv4 without Ethernet",
        229 => ", IPv6 without Ethernet",
        276 => ", Linux cooked 2, as of the interface any",
        _ => "",
    }
}

pub fn is_little(head: &[u8]) -> bool {
    let first = octet_at(head, 0);
    first == 0xd4 || first == 0x4d
}

pub fn tell_link(out: &mut Message, head: &[u8]) {
    let link = number_in(is_little(head), head, 20);
    if !tell_kept(out, link) {
        out.add("its link type is ");
        out.add_number(u64::from(link));
        out.add(link_name(link));
        out.add(", and a station sends Ethernet, 1");
    }
}

pub fn tell_version(out: &mut Message, head: &[u8]) {
    let is_little = is_little(head);
    let version = number_in(is_little, head, 4);
    let (high, low) = (version >> 16, version & 0xffff);
    out.add("its version is ");
    out.add_number(u64::from(if is_little { low } else { high }));
    out.add(".");
    out.add_number(u64::from(if is_little { high } else { low }));
    out.add(", and 2.4 is read; editcap -F pcap OLD NEW makes one of it");
}

/// Tells of a load that is shorter than the head of a capture.
pub fn tell_short(out: &mut Message, size: usize) {
    if size == 0 {
        out.add("it is empty");
    } else {
        out.add("it has ");
        out.add_number(size as u64);
        out.add(" octets, and the head of a capture has 24");
    }
}
