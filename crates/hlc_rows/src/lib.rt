//! Stored rows, the row that answers a read, and the writes that make rows.
#![tactic(auto)]

mod exact;
mod laws;
mod limits;
mod row;
mod write;
mod writes;

pub use hlc_bytes::{Bytes, MAX_SHORT_BYTES, ValueOrMark, max_short_bytes_are_30, value_slice};
pub use hlc_clock::Stamp;
pub use laws::{
    newest_is_greatest, newest_is_unique, newest_stays, no_newest_no_row, other_keys_do_not_count,
};
pub use limits::{
    BodyFault, MAX_KEY_BYTES, MAX_VALUE_BYTES, MAX_WRITES, max_key_bytes_are_255,
    max_value_bytes_are_65535, max_writes_are_256, write_fault,
};
pub use row::Row;
pub use write::{Write, batch_fault};
pub use writes::{Writes, Written};
