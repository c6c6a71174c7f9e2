//! The network of a plan as a definition, half bit by half bit, and the laws that hold of every plan.
#![tactic(auto)]

mod laws;
mod outputs;

pub use laws::{
    attempts_are_lawful, attempts_are_logged, cables_carry, history_is_time, plans_hold_frames,
    ports_emit_late, repeaters_repeat, taps_hear_others,
};
pub use outputs::{Captures, Outputs, Taken, TakenList};
