//! Scripts: the lines of events, the lines of replies, and a whole run from bytes to bytes.
#![tactic(auto)]

mod asked;
mod exact;
mod reply;
mod run;

pub use asked::answer_asked;
pub use reply::{put_refusal, put_reply};
pub use run::{RunEnd, answer_input, run_script};
