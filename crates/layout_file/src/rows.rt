//! The tests that look at one row alone.
ghost use Rattle.std.specs.Prelude.{◌≡◌, map, option_map};
ghost use Rattle.toml.specs.View.{view, table_view};
ghost use Rattle.layout_file.specs.Arounds.{around};
ghost use Rattle.layout_file.specs.RowFaults.{is_among, is_of_kind, is_well_named, is_within, is_enough, is_in_range, names_segment, names_station, is_well_framed, passes, is_missing, is_unknown_key, fails, failing_key, faulty_key, fault_at, first_at, first_of};
ghost use Rattle.layout_file.specs.Sites.{seen};

use crate::fault::{Key, LayoutCode, LayoutFault};
use crate::rules::{Rule, ValueKind, rules};
use crate::sites::Site;
use crate::texts::{is_frame, is_load, is_name};
use crate::tree::{count_tables, has_stranger, natural, value};
use toml::{Table as TomlTable, Value};

/// A test of one row.
#[derive(Clone, Copy)]
pub enum RowTest {
    UnknownKey,
    Missing,
    WrongType,
    BadName,
    OutOfRange,
    NoSuchSegment,
    NoSuchStation,
    BadFrame,
}

impl RowTest {
    ghost use Rattle.layout_file.specs.RowFaults.{code_of_test};

    /// The code of the test's faults.
    pub fn code(&self) -> LayoutCode
        ensures { result ≡ code_of_test self.now }
    {
        match self {
            RowTest::UnknownKey => LayoutCode::UnknownKey,
            RowTest::Missing => LayoutCode::Missing,
            RowTest::WrongType => LayoutCode::WrongType,
            RowTest::BadName => LayoutCode::BadName,
            RowTest::OutOfRange => LayoutCode::OutOfRange,
            RowTest::NoSuchSegment => LayoutCode::NoSuchSegment,
            RowTest::NoSuchStation => LayoutCode::NoSuchStation,
            RowTest::BadFrame => LayoutCode::BadFrame,
        }
    }
}

/// What a row's tests know of the whole document.
#[derive(Clone, Copy)]
pub struct Surroundings<'a> {
    /// The file's format is 2.
    pub two: bool,
    pub segments: &'a [&'a str],
    pub stations: &'a [&'a str],
}

/// One of the names is this one.
pub fn is_among(name: &str, names: &[&str]) -> bool
    ensures { result ≡ is_among name.now (map (λ s. s.now) names.now) }
{
    for other in names {
        if *other == name {
            return true;
        }
    }
    false
}

/// The value is of the type that its key asks for.
fn is_of_kind(kind: ValueKind, value: &Value) -> bool
    ensures { result ≡ is_of_kind kind (view value.now) }
{
    match (kind, value) {
        (ValueKind::Whole(_, _), Value::Integer(_)) => true,
        (ValueKind::Name, Value::String(_)) => true,
        (ValueKind::Load, Value::String(_)) => true,
        (ValueKind::SegmentName, Value::String(_)) => true,
        (ValueKind::StationName, Value::String(_)) => true,
        (ValueKind::Frame(_), Value::String(_)) => true,
        (ValueKind::Rows(_), Value::Array(items)) => count_tables(items.as_slice()).is_some(),
        _ => false,
    }
}

/// A name is a name, and a load keeps its rule.
fn is_well_named(kind: ValueKind, value: &Value) -> bool
    ensures { result ≡ is_well_named kind (view value.now) }
{
    match (kind, value) {
        (ValueKind::Name, Value::String(text)) => is_name(text.as_str()),
        (ValueKind::Load, Value::String(text)) => is_load(text.as_str()),
        _ => true,
    }
}

fn is_within(least: u64, most: u64, number: Option<u64>) -> bool
    ensures { result ≡ is_within least most number }
{
    match number {
        Some(n) => least <= n && n <= most,
        None => false,
    }
}

fn is_enough(least: u64, rows: Option<u64>) -> bool
    ensures { result ≡ is_enough least rows }
{
    match rows {
        Some(n) => least <= n,
        None => true,
    }
}

/// A number is within its bounds, and an array has rows enough.
fn is_in_range(kind: ValueKind, value: &Value) -> bool
    ensures { result ≡ is_in_range kind (view value.now) }
{
    match (kind, value) {
        (ValueKind::Whole(least, most), Value::Integer(_)) => is_within(
            least,
            most,
            natural(value),
        ),
        (ValueKind::Rows(least), Value::Array(items)) => {
            is_enough(least, count_tables(items.as_slice()))
        }
        _ => true,
    }
}

/// A text that names a segment names one of these.
fn names_segment(segments: &[&str], kind: ValueKind, value: &Value) -> bool
    ensures { result ≡ names_segment (map (λ s. s.now) segments.now) kind (view value.now) }
{
    match (kind, value) {
        (ValueKind::SegmentName, Value::String(text)) => is_among(text.as_str(), segments),
        _ => true,
    }
}

/// A text that names a station names one of these.
fn names_station(stations: &[&str], kind: ValueKind, value: &Value) -> bool
    ensures { result ≡ names_station (map (λ s. s.now) stations.now) kind (view value.now) }
{
    match (kind, value) {
        (ValueKind::StationName, Value::String(text)) => is_among(text.as_str(), stations),
        _ => true,
    }
}

/// A send's octets are digits of octets enough and not too many.
fn is_well_framed(kind: ValueKind, value: &Value) -> bool
    ensures { result ≡ is_well_framed kind (view value.now) }
{
    match (kind, value) {
        (ValueKind::Frame(most), Value::String(text)) => is_frame(most, text.as_str()),
        _ => true,
    }
}

fn passes(surroundings: &Surroundings, test: RowTest, kind: ValueKind, value: &Value) -> bool
    ensures { result ≡ passes (around surroundings.now) test kind (view value.now) }
{
    match test {
        RowTest::UnknownKey | RowTest::Missing => true,
        RowTest::WrongType => is_of_kind(kind, value),
        RowTest::BadName => is_well_named(kind, value),
        RowTest::OutOfRange => is_in_range(kind, value),
        RowTest::NoSuchSegment => names_segment(surroundings.segments, kind, value),
        RowTest::NoSuchStation => names_station(surroundings.stations, kind, value),
        RowTest::BadFrame => is_well_framed(kind, value),
    }
}

fn is_missing(test: RowTest) -> bool
    ensures { result ≡ is_missing test }
{
    matches!(test, RowTest::Missing)
}

fn is_unknown_key(test: RowTest) -> bool
    ensures { result ≡ is_unknown_key test }
{
    matches!(test, RowTest::UnknownKey)
}

fn fails(surroundings: &Surroundings, test: RowTest, rule: &Rule, held: Option<&Value>) -> bool
    ensures { result ≡ fails (around surroundings.now) test rule.now (option_map (λ v. view v.now) held.entry) }
{
    match held {
        Some(value) => !passes(surroundings, test, rule.kind, value),
        None => is_missing(test) && rule.required,
    }
}

/// The key of the first rule that fails the test.
fn failing_key(
    surroundings: &Surroundings,
    test: RowTest,
    rules: &[Rule],
    members: &TomlTable,
) -> Option<Key>
    ensures { result ≡ failing_key (around surroundings.now) test rules.now (table_view members.now) }
{
    for rule in rules {
        if fails(surroundings, test, rule, value(members, rule.key)) {
            return Some(rule.key);
        }
    }
    None
}

/// The first key of a table that fails the test.
fn faulty_key(
    surroundings: &Surroundings,
    test: RowTest,
    rules: &[Rule],
    members: &TomlTable,
) -> Option<Key>
    ensures { result ≡ faulty_key (around surroundings.now) test rules.now (table_view members.now) }
{
    if !is_unknown_key(test) {
        return failing_key(surroundings, test, rules, members);
    }
    if has_stranger(members, rules) {
        Some(Key::None)
    } else {
        None
    }
}

#[tactic(auto, unfolding(crate::specs::RowFaults::fault_at))]
fn fault_at(surroundings: &Surroundings, test: RowTest, site: &Site) -> Option<LayoutFault>
    ensures { result ≡ fault_at (around surroundings.now) test (seen site.now) }
{
    let rules = rules(surroundings.two, site.shape);
    match faulty_key(surroundings, test, rules, site.members) {
        Some(key) => Some(site.fault(test.code(), key)),
        None => None,
    }
}

fn first_at(surroundings: &Surroundings, test: RowTest, sites: &[Site]) -> Option<LayoutFault>
    ensures { result ≡ first_at (around surroundings.now) test (map seen sites.now) }
{
    for site in sites {
        if let Some(fault) = fault_at(surroundings, test, site) {
            return Some(fault);
        }
    }
    None
}

/// The first fault of these tests: for each test all tables are tried before the next test.
pub fn first_of(
    surroundings: &Surroundings,
    tests: &[RowTest],
    sites: &[Site],
) -> Option<LayoutFault>
    ensures { result ≡ first_of (around surroundings.now) tests.now (map seen sites.now) }
{
    for test in tests {
        if let Some(fault) = first_at(surroundings, *test, sites) {
            return Some(fault);
        }
    }
    None
}
