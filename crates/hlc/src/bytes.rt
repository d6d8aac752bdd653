//! Items, messages and checkpoints as bytes.

pub use hlc_saved::{
    CheckpointReader, CheckpointWriter, Decoded, ResumeError, Resumed, Saver, SaverError,
    StoreWriter, copy_by_bytes, decode_checkpoint, encode_checkpoint, marks_tell_changes, resume,
    save, savings_are_of_one_state,
};
pub use hlc_wire::{
    DecodeError, EncodeError, MAX_BATCH_BYTES, MAX_ITEM_BYTES, MESSAGE_BYTES, WireFault,
    decode_item, decode_message, encode_item, encode_message,
};
