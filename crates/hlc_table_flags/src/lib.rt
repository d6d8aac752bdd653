//! Flags: a list of them with one bit for each, and lent ones.
#![tactic(auto)]

mod flags;
mod list;

pub use flags::Flags;
pub use hlc_values::NoMemory;
pub use list::FlagList;
