//! A station's sender: deference, collisions, jam and backoff, half bit by half bit.
#![tactic(auto)]

mod cases;
mod deference;
mod laws;
mod phase;
mod state;
mod transmitter;
mod turn;

pub use cases::symbol_at;
pub use deference::Defer;
pub use laws::{
    attempts_are_lawful, calm_senders_emit, calm_sendings_last, deaf_gaps_are_kept, gaps_are_kept,
};
pub use phase::Phase;
pub use state::SenderState;
pub use transmitter::{SendStep, Transmitter};
