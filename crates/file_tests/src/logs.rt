//! Lists of rows that are merged.
use collision_log::{Body, Row, Rows, RowsList, merge};
use lists::OutOfMemory;
use std::alloc::Global;

/// Two rows of a device at each of these times.
fn rows_at(alloc: Global, device: u32, times: [u64; 2]) -> Result<Rows, OutOfMemory> {
    let mut rows = Rows::new(alloc);
    for t in times {
        for body in [Body::Clash, Body::Closed { port: 1 }] {
            rows.push(Row { t, device, body })?;
        }
    }
    Ok(rows)
}

/// The rows of device 1 and of device 0, merged.
fn merged(alloc: Global) -> Result<Rows, OutOfMemory> {
    let mut lists = RowsList::new(alloc);
    lists.push(rows_at(alloc, 1, [5, 7])?)?;
    lists.push(rows_at(alloc, 0, [5, 6])?)?;
    merge(alloc, lists)
}

/// Whether rows have these times and devices, and the first one is a clash.
fn are_placed(rows: &[Row], places: &[(u64, u32)]) -> bool {
    rows.len() == places.len()
        && rows
            .iter()
            .zip(places)
            .all(|(row, place)| (row.t, row.device) == *place)
        && rows.first().is_some_and(|row| row.body == Body::Clash)
}

#[test]
fn logs_are_merged(rt: HostRuntime) -> Result<(), OutOfMemory> {
    let rows = merged(rt.alloc())?;
    let places = [
        (5, 0),
        (5, 0),
        (5, 1),
        (5, 1),
        (6, 0),
        (6, 0),
        (7, 1),
        (7, 1),
    ];
    assert!(rt; are_placed(rows.as_slice(), &places));
    Ok(())
}
