//! The bytes of a key or a value, stored in place where they are few.
#![tactic(auto)]

mod bytes;
mod exact;
mod mark;
mod short;

pub use bytes::{Bytes, value_slice};
pub use mark::ValueOrMark;
pub use short::{MAX_SHORT_BYTES, max_short_bytes_are_30};
