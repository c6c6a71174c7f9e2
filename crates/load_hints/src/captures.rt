//! What is wrong with a capture's link type and with its records.

use crate::records::{end_of, walk_over};
use input_hints::Message;
use outside::Store;

/// The octets of check sequence that frames keep, as an Ethernet capture's link type says it: four bits count pairs of
/// them, where a further bit is set.
fn kept_octets(link: u32) -> u32 {
    if link & 0x0400_ffff == 0x0400_0001 {
        (link >> 28) * 2
    } else {
        0
    }
}

/// Tells of frames that keep their check sequence, and whether they do. editcap chops it off: without -L every record
/// would say that octets of it are missing.
pub fn tell_kept(out: &mut Message, link: u32) -> bool {
    let kept = u64::from(kept_octets(link));
    if kept == 0 {
        return false;
    }
    out.add("its link type says that frames keep their check sequence of ");
    out.add_number(kept);
    out.add(" octets: editcap -F pcap -L -C -");
    out.add_number(kept);
    out.add(" OLD NEW drops it");
    true
}

/// Where a record of a load begins, and where the load ends.
#[derive(Clone, Copy)]
struct Reach {
    begin: u64,
    end: u64,
}

fn reach_of<S: Store>(store: &mut S, load: &str, number: u64) -> Option<Reach> {
    let begin = match walk_over(store, load, number.saturating_sub(1), 0) {
        Some(walk) => walk.next,
        None => 0,
    };
    let end = end_of(store, load, begin)?;
    Some(Reach { begin, end })
}

/// Tells of a record that says too great a length.
fn tell_long(out: &mut Message, number: u64, reach: Reach) {
    out.add("record ");
    out.add_number(number);
    out.add(" that begins at octet ");
    out.add_number(reach.begin);
    out.add(" says that it has more than 262144 octets: the file is damaged");
}

/// Tells of a record that is cut off.
fn tell_cut(out: &mut Message, number: u64, reach: Reach) {
    out.add("it ends at octet ");
    out.add_number(reach.end);
    out.add(", within record ");
    out.add_number(number);
    out.add(" that begins at octet ");
    out.add_number(reach.begin);
    out.add(": was it still being written, or copied in part?");
}

/// Tells of a record that is cut off, or that says too great a length, and whether its place is known.
pub fn tell_record<S: Store>(
    out: &mut Message,
    store: &mut S,
    load: &str,
    code: u64,
    number: u64,
) -> bool {
    match reach_of(store, load, number) {
        Some(reach) => {
            if code == 5 {
                tell_long(out, number, reach);
            } else {
                tell_cut(out, number, reach);
            }
            true
        }
        None => false,
    }
}
