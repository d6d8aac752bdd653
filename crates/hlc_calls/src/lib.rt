//! What the calls of the C library do with an open store. Each answer is 0, the number of a refusal, or a number above
//! 100. What else it has to say is in a word or in bytes.
#![tactic(auto)]

pub mod answers;
pub mod certificates;
pub mod checkpoints;
mod codes;
pub mod digest;
pub mod entries;
pub mod items;
pub mod joins;
pub mod log;
pub mod outputs;
pub mod reads;
pub mod records;
pub mod snapshots;
pub mod status;
pub mod vacuum;

pub use hlc_core::Stamp;
