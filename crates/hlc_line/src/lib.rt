//! The lines of a script, and the events that they spell.
#![tactic(auto)]

mod laws;
mod line;

pub use laws::one_event_for_a_line;
pub use line::{owned_event, read_line};
