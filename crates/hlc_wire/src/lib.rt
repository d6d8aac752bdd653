//! Items and messages as bytes: each has one encoding, which is written and read back, and no other
//! bytes are read.
#![tactic(auto)]

mod batch;
mod exact;
mod fault;
mod fields;
mod item;
mod message;
mod placing;

pub use batch::writes_of;
pub use fault::{DecodeError, EncodeError, WireFault};
pub use fields::{
    flag_at, key_at, put_flag, put_key, put_value, slice_at, u16_at, u32_at, u64_at, value_at,
};
pub use hlc_node::{Body, BodyFault, Bytes, Item, ItemRef, Listed, Message, Write, Writes};
pub use item::{
    MAX_BATCH_BYTES, MAX_ITEM_BYTES, copy_item, decode_item, encode_item, item_ref_at, item_size,
    max_batch_bytes_are_16843285, max_item_bytes_are_65814, put_item,
};
pub use message::{
    MESSAGE_BYTES, decode_message, encode_message, message_at, message_bytes_are_11, put_message,
};
pub use placing::put_bytes;
