//! The rows of one key as columns side by side, in as little memory as they need.
#![tactic(auto)]

mod column;
mod few;
mod flags;
mod lanes;
mod lists;
mod rows;
mod single;
mod versions;

pub use column::Column;
pub use hlc_clock::Stamp;
pub use hlc_rows::{Bytes, Row};
pub use hlc_values::NoMemory;
pub use lanes::{Lanes, copy_of};
pub use rows::Rows;
pub use versions::{Versions, versions_of};
