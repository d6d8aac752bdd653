//! A store that C owns through a handle: a pointer and a flag. Zero bytes are a closed handle. A copy of the handle
//! reads the store, beside other copies. A restore and a saving that are under way have such a handle too, and so have
//! the bytes that a call made.
#![tactic(auto)]

mod found;
mod loose;
mod output;
mod reader;
mod restoring;
mod saving;
mod sends;
mod slot;
mod store;

pub use found::{LentBytes, find_lent};
pub use output::Output;
pub use reader::{LentCore, LentRoom, Reader};
pub use restoring::Restoring;
pub use saving::Saving;
pub use sends::handles_may_change_threads;
pub use slot::Slot;
pub use store::{Store, opened};

/// The type that C sees at the pointer.
#[repr(C)]
pub struct Opaque {
    word: u64,
}
