//! The texts of the forms that report: how far a layout's gaps and delays can grow, and what taps hear.
#![tactic(auto)]

mod probe_texts;
mod slack_texts;
mod wave_texts;

pub use probe_texts::text_of_tap;
pub use slack_texts::slack_text;
pub use wave_texts::text_of_waves;
