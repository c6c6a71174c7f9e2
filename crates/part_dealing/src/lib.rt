//! Which worker gets which part of a plan, and where the parcels of its parts go. Nothing here starts a thread or
//! waits.
#![tactic(auto)]

mod dealing;
mod duties;

pub use dealing::{Outlet, count_edges, leads_out, other_end, outlets_of, owner_of, owners};
pub use duties::{Duties, Duty, last_segment};
