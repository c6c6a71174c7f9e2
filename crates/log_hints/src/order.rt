//! The order of a layout's devices, in which a state has their rows.

use input_hints::{document_of, row_named, rows_of};
use lists::OutOfMemory;
use outside::Store;
use std::alloc::Global;
use toml::Table;

/// The place of a device in the order, from 1: stations come before repeaters.
fn order_of(document: &Table, name: &str) -> Option<usize> {
    let stations = rows_of(document, "station");
    match row_named(stations, name) {
        Some(row) => Some(row),
        None => {
            let row = row_named(rows_of(document, "repeater"), name)?;
            Some(row.saturating_add(stations.len()))
        }
    }
}

/// Whether a device comes before another one in a layout.
pub fn comes_before<S: Store>(
    alloc: Global,
    store: &mut S,
    layout: &str,
    name: &str,
    other: &str,
) -> Result<bool, OutOfMemory> {
    let Some(document) = document_of(alloc, layout, store)? else {
        return Ok(false);
    };
    match (order_of(&document, name), order_of(&document, other)) {
        (Some(first), Some(second)) => Ok(first < second),
        _ => Ok(false),
    }
}
