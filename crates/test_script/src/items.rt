//! Values to pass in.
use hlc_core::Bytes;
use std::process::Abort;
use std::test::*;

/// Returns a copy of the text.
pub(crate) fn bytes<H: Abort + AllocGlobal>(rt: &H, text: &[u8]) -> Bytes {
    Bytes::from_slice(rt.alloc(), text).expect(rt, "memory")
}
