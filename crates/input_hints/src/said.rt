//! What is said of the keys of a layout file. A rule is a line: the table, the key and the sentence. `-` stands for any
//! table or key, and the first rule that fits counts.

use crate::places::NamedPlace;

/// The keys that a table may have, one blank between them.
const KEYS: &str = "segment - name
station - name segment at load
repeater - name delay port
send - station at octets
- - format seed until_bits segment station repeater send";

/// What a key wants where it has another type, and its range.
pub const WANTED: &str =
    "send at a whole number of half bits, without quotes or a point, 0 to 2000000000; a half bit is 50 ns
- at a whole number of half bits, without quotes or a point, 0 to 2000; a half bit is 50 ns
- delay a whole number of half bits, without quotes or a point, 1 to 200; a half bit is 50 ns
- format 1, or 2 for frames with a tag and for lose_bits
- seed a whole number, without quotes or a point, 0 to 9223372036854775807
- until_bits a whole number of bits, without quotes or a point, 1 to 1000000000; a bit is 100 ns
- lose_bits a whole number of bits, without quotes or a point, 0 to 48
file segment at least one table, as [[segment]]
file - tables, each with its name in two brackets, as [[station]]
- port at least two tables, as [[repeater.port]]
- octets hexadecimal digits in quotes, two an octet
- - a text in quotes";

/// What a name is.
pub const NAMES: &str = "- load a load is the name of a file, of 1 to 255 octets, none of them zero
- - a name has 1 to 32 of a to z, A to Z, 0 to 9, '_' and '-'";

/// The limit that a file is beyond.
pub const LIMITS: &str = "- segment there are at most 256 segments
- station there are at most 1024 stations
- repeater there are at most 128 repeaters
- port a repeater has at most 32 ports
- send there are at most 65536 sends; a load, a capture that a station sends, has room for more
- until_bits until_bits times the number of devices is at most 4000000000: make the run shorter
- - a layout file has at most 1048576 octets";

/// What has a name already.
pub const EARLIER: &str = "segment - an earlier segment has this name
- - an earlier station or repeater has this name";

/// What a rule says, where it fits.
fn said_by<'a>(rule: &'a str, table: &str, key: &str) -> Option<&'a str> {
    let (of_table, rest) = rule.split_once(' ')?;
    let (of_key, said) = rest.split_once(' ')?;
    if (of_table == "-" || of_table == table) && (of_key == "-" || of_key == key) {
        Some(said)
    } else {
        None
    }
}

/// What the first of some rules says that fits.
pub fn said_in<'a>(rules: &'a str, table: &str, key: &str) -> &'a str {
    for rule in rules.lines() {
        if let Some(said) = said_by(rule, table, key) {
            return said;
        }
    }
    ""
}

/// The keys that the table of a place may have, one blank between them.
pub fn keys_of(place: &NamedPlace<'_>, format: i64) -> &'static str {
    if place.port > 0 && place.table == "repeater" {
        return "segment at";
    }
    if format == 2 && place.table == "station" {
        return "name segment at load lose_bits";
    }
    said_in(KEYS, place.table, "-")
}
