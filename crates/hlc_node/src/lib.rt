//! Items of a node's link, messages, and the core of a node that makes them.
#![tactic(auto)]

mod exact;
mod item;
mod item_ref;
mod node;

pub use hlc_rows::{
    BodyFault, Bytes, MAX_KEY_BYTES, MAX_SHORT_BYTES, MAX_VALUE_BYTES, MAX_WRITES, Row, Stamp,
    ValueOrMark, Write, Writes, Written, batch_fault, max_key_bytes_are_255,
    max_short_bytes_are_30, max_value_bytes_are_65535, max_writes_are_256, newest_is_greatest,
    newest_is_unique, newest_stays, no_newest_no_row, other_keys_do_not_count, value_slice,
    write_fault,
};
pub use hlc_values::Listed;
pub use item::{Body, Item, Message, body_fault};
pub use item_ref::{Content, ItemRef};
pub use node::{NodeCore, NodeFault, RefusedBatch, RefusedWrite};
