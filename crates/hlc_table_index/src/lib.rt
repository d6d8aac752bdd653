//! An ordered map from keys to values, made for look-ups: leaves of keys with their first bytes side by side.
#![tactic(auto)]

mod head;
mod index;
mod leaf;
mod leaves;

pub use hlc_bytes::Bytes;
pub use hlc_values::NoMemory;
pub use index::Index;
