//! Checkpoints as bytes in a frame: each has one encoding, which is written and read back, and no
//! other bytes are read. So a store moves from one machine to another, or to a disk and back.
#![tactic(auto)]

mod bytes;
mod decode;
mod exact;
mod fault;
mod laws;
mod leaf;
mod mark;
mod parts;
mod reader;
mod saving;
mod savings;
mod size;
mod stage;
mod store_writer;
mod writer;

pub use decode::{Decoded, decode_checkpoint};
pub use fault::{ResumeError, SaverError};
pub use hlc_core::{Checkpoint, Core, RestoreFault, Row};
pub use hlc_values::NoMemory;
pub use hlc_wire::{DecodeError, WireFault};
pub use laws::{marks_tell_changes, pieces_are_the_bytes, savings_are_of_one_state};
pub use reader::CheckpointReader;
pub use saving::{Resumed, copy_by_bytes, resume, save};
pub use savings::Saver;
pub use store_writer::StoreWriter;
pub use writer::{CheckpointWriter, encode_checkpoint};
