//! The order of the rows of one key: their stamps and nodes are stored side by side in arrival order, and an index of
//! the first of them by stamp and node makes reads fast.
#![tactic(auto)]

mod newest;
mod order;

pub use newest::{count_from, count_indexed, newest_from, newest_of_first};
pub use order::{extend_index, index_again};
