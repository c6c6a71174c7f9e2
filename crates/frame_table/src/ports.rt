//! When the ports of repeaters are open.
ghost use Rattle.std.specs.Prelude.{◌≡◌, ◌<◌, ◌+◌, ◌*◌, ◌^◌, IfOk, length, nat_lt};
ghost use Rattle.std.specs.List.Sorted.{IsNonDecreasingBy};
ghost use Rattle.frame_table.specs.Ports.{change_by, changes_of, is_open};

use crate::events::Event;
use collision_log::Body;
use lists::{List, OutOfMemory};
use std::alloc::Global;

/// The half bit in which a port was closed or opened, and whether it is open after that.
#[derive(Clone, Copy)]
pub struct Change {
    pub t: u64,
    pub open_after: bool,
}

/// The changes of a port, in order.
pub type Changes = List<Change>;

/// What becomes of a port, from 1, where it is closed or opened.
fn change_by(p: u32, t: u64, body: &Body) -> Option<Change>
    ensures { result ≡ change_by p t body.now }
{
    let (port, open_after) = match *body {
        Body::Closed { port } => (port, false),
        Body::Opened { port } => (port, true),
        _ => return None,
    };
    if port != p {
        return None;
    }
    Some(Change { t, open_after })
}

/// What becomes of a port, from 1, by the events of its repeater.
pub fn changes_of(alloc: Global, p: u32, events: &[Event]) -> Result<Changes, OutOfMemory>
    ensures { IfOk result (λ cs. cs ≡ changes_of p events.now) }
{
    let mut changes = Changes::new(alloc);
    for event in events {
        let Some(change) = change_by(p, event.t, &event.body) else {
            continue;
        };
        changes.push(change)?;
    }
    Ok(changes)
}

/// Whether a port with these changes is open in half bit `t`.
pub fn is_open(t: u64, changes: &[Change]) -> bool
    requires { IsNonDecreasingBy (λ c. c.t) changes.now }
    ensures { result ≡ is_open t changes.now }
{
    let count = changes.partition_point(
        |c: &Change| -> bool
            ensures { result ≡ nat_lt c.now.t t }
        { c.t < t },
    );
    if count == 0 {
        return true;
    }
    changes[count - 1].open_after
}
