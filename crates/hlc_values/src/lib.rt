//! Values whose equality and copies are exactly what contracts see, lists of such values, and values that may be empty.
#![tactic(auto)]

mod bounds;
mod exact;
mod filled;
mod listed;

pub use bounds::{NUMBER_BOUND, numbers_are_below_the_last_word};
pub use exact::Exact;
pub use filled::Filled;
pub use listed::Listed;
pub use std::alloc::AllocError as NoMemory;
