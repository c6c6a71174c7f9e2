//! What a table of a document holds at a key.
ghost use Rattle.std.specs.Prelude.{◌≡◌, ◌+◌, option_map, option_and_then, length, IfOk, map, unwrap_or, []};
ghost use Rattle.toml.specs.Data.{as_str};
ghost use Rattle.toml.specs.View.{view, table_view, items_view};
ghost use Rattle.layout_file.specs.Tree.{held, tables, rows_at, text_at, natural, number_at, is_listed, has_stranger, names_of, names_at};

use crate::fault::Key;
use crate::rules::Rule;
use lists::{OutOfMemory, Text};
use std::alloc::Global;
use toml::{Table as TomlTable, Value};

/// The value at a key.
pub fn value<'a>(table: &'a TomlTable, key: Key) -> Option<&'a Value>
    ensures { option_map (λ v. view v.now) result ≡ held (table_view table.now) key }
{
    table.get(key.name())
}

/// How many tables an array lists, if it lists nothing else.
pub fn count_tables(items: &[Value]) -> Option<u64>
    ensures { result ≡ option_map length (tables (items_view items.now)) }
{
    for item in items {
        if item.as_table().is_none() {
            return None;
        }
    }
    Some(items.len() as u64)
}

/// The rows at a key: none where there is no array of tables.
pub fn rows<'a>(
    alloc: Global,
    table: &'a TomlTable,
    key: Key,
) -> Result<Vec<&'a TomlTable>, OutOfMemory>
    ensures { IfOk result (λ rows. map (λ t. table_view t.now) rows.items ≡ rows_at (table_view table.now) key) }
{
    match value(table, key) {
        Some(Value::Array(items)) => tables_of(alloc, items.as_slice()),
        _ => Ok(Vec::new(alloc)),
    }
}

fn tables_of<'a>(alloc: Global, items: &'a [Value]) -> Result<Vec<&'a TomlTable>, OutOfMemory>
    ensures { IfOk result (λ rows. map (λ t. table_view t.now) rows.items ≡ unwrap_or (tables (items_view items.now)) []) }
{
    let mut rows = Vec::new(alloc);
    for item in items {
        match item.as_table() {
            Some(table) => rows.push(table)?,
            None => return Ok(Vec::new(alloc)),
        }
    }
    Ok(rows)
}

/// The text at a key: empty where there is none.
pub fn text<'a>(table: &'a TomlTable, key: Key) -> &'a str
    ensures { result.now ≡ text_at (table_view table.now) key }
{
    match value(table, key) {
        Some(Value::String(text)) => text.as_str(),
        _ => "",
    }
}

/// The text at a key of its own, where there is one.
pub fn optional_text(
    alloc: Global,
    table: &TomlTable,
    key: Key,
) -> Result<Option<Text>, OutOfMemory>
    ensures { IfOk result (λ text. text ≡ option_and_then as_str (held (table_view table.now) key)) }
{
    match value(table, key) {
        Some(Value::String(text)) => Ok(Some(Text::new(alloc, text.as_str())?)),
        _ => Ok(None),
    }
}

/// A whole number that is not below 0.
pub fn natural(value: &Value) -> Option<u64>
    ensures { result ≡ natural (view value.now) }
{
    match value {
        Value::Integer(number) => {
            if *number >= 0 {
                Some(*number as u64)
            } else {
                None
            }
        }
        _ => None,
    }
}

/// The whole number at a key: 0 where there is none, or one below 0.
pub fn number(table: &TomlTable, key: Key) -> u64
    ensures { result ≡ number_at (table_view table.now) key }
{
    match value(table, key) {
        Some(value) => natural(value).unwrap_or(0),
        None => 0,
    }
}

/// The same number in 32 bits. One that needs more answers want of memory: no key may hold it.
pub fn short_number(table: &TomlTable, key: Key) -> Result<u32, OutOfMemory>
    ensures { IfOk result (λ n. n ≡ number_at (table_view table.now) key) }
{
    match u32::try_from(number(table, key)) {
        Ok(number) => Ok(number),
        Err(_) => Err(OutOfMemory),
    }
}

fn is_listed(rules: &[Rule], key: &str) -> bool
    ensures { result ≡ is_listed rules.now key.now }
{
    rules.iter().any(|rule| key == rule.key.name())
}

/// Some key has no rule.
pub fn has_stranger(table: &TomlTable, rules: &[Rule]) -> bool
    ensures { result ≡ has_stranger rules.now (table_view table.now) }
{
    for key in table.keys() {
        if !is_listed(rules, key.as_str()) {
            return true;
        }
    }
    false
}

/// The names of rows.
pub fn names<'a>(alloc: Global, rows: &[&'a TomlTable]) -> Result<Vec<&'a str>, OutOfMemory>
    ensures { IfOk result (λ v. map (λ s. s.now) v.items ≡ names_of (map (λ t. table_view t.now) rows.now)) }
{
    let mut names = Vec::new(alloc);
    for row in rows {
        names.push(text(*row, Key::Name))?;
    }
    Ok(names)
}

/// The names of the rows at a key.
pub fn names_in<'a>(
    alloc: Global,
    table: &'a TomlTable,
    key: Key,
) -> Result<Vec<&'a str>, OutOfMemory>
    ensures { IfOk result (λ v. map (λ s. s.now) v.items ≡ names_at (table_view table.now) key) }
{
    names(alloc, &rows(alloc, table, key)?)
}

/// How many rows there are at a key.
pub fn count_rows(alloc: Global, table: &TomlTable, key: Key) -> Result<usize, OutOfMemory>
    ensures { IfOk result (λ n. n ≡ length (rows_at (table_view table.now) key)) }
{
    Ok(rows(alloc, table, key)?.len())
}

/// The number after this one.
pub fn next_number(number: u32) -> Result<u32, OutOfMemory>
    ensures { IfOk result (λ n. n ≡ number + 1) }
{
    number.checked_add(1).ok_or(OutOfMemory)
}
