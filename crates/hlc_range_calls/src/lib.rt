//! What the calls of the C library that list do with an open store: listings, parts of them from either end, the
//! differences between two snapshots, and the rows of a key. None takes memory.
#![tactic(auto)]

pub mod changes;
pub mod list;
pub mod scan;
pub mod scan_back;
pub mod versions;
