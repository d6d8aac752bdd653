//! Values to pass in.
use hlc_core::{Bytes, Core};
use std::process::Abort;
use std::test::*;

/// Returns a copy of the text.
pub(crate) fn bytes<H: Abort + AllocGlobal>(rt: &H, text: &[u8]) -> Bytes {
    Bytes::from_slice(rt.alloc(), text).expect(rt, "memory")
}

/// Returns a store of one node.
pub(crate) fn new_store<H: Abort + AllocGlobal>(rt: &H) -> Core {
    Core::new(rt.alloc(), 1).ok().expect(rt, "a store")
}
