//! What is said of a refusal on standard error: the line, its words and what was expected, or how the program is used.
#![tactic(auto)]

// The text, the input that is kept for it, and a line of that.
mod kept;
mod line;
mod sentence;

// What is wrong with a line, a word, or the words after the program's name.
mod form;
mod look;
mod usage;
mod word;

// The end of a run, and what follows it.
mod ending;
mod explained;

pub use explained::explain;
pub use kept::{Kept, Last};
pub use line::{bad_line, line_behind};
pub use look::{LineLook, line_look};
pub use sentence::{SENTENCE_LIMIT, Sentence};
pub use usage::{USAGE, explains};
