//! How many rows, keys and bytes a table has.
#![tactic(auto)]

mod exact;
mod sizes;

pub use sizes::{Sizes, length_of};
