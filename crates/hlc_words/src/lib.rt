//! The words after the program's name, and what they ask for.
#![tactic(auto)]

mod asked;
mod exact;
mod plan;
mod words;

pub use asked::{refuse_words, words_asked};
pub use plan::StormPlan;
pub use words::{BadWords, Words, read_words};
