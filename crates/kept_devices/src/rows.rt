//! The row of an event.
ghost use Rattle.std.specs.Prelude.{◌≡◌, ◌++◌, OnOk};
ghost use Rattle.network.specs.Rows.{row_of};

use collision_log::{Body, Row, Rows};
use lists::OutOfMemory;

/// Writes the row of an event of half bit `t`, if there is one. Devices count from 0.
pub fn push_row(
    rows: &mut Rows,
    t: u64,
    device: u32,
    event: Option<Body>,
) -> Result<(), OutOfMemory>
    ensures { OnOk result (rows.new ≡ rows.old ++ row_of t device event) }
{
    match event {
        Some(body) => rows.push(Row { t, device, body }),
        None => Ok(()),
    }
}
