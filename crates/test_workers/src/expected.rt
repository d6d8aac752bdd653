//! Compares results with expected ones.
use hlc_core::CoreReply;
use hlc_server::Receipt;
use std::alloc::Global;
use std::fmt::Debug;
use std::process::Abort;
use std::test::*;
use test_support::makers::bytes;

/// Checks that the value is the expected one. A function of its own is proved once.
pub(crate) fn must_be<T: PartialEq + Debug + Drop, R: Abort>(rt: &R, ended: T, expected: T) {
    assert_eq!(rt; ended, expected);
}

/// Checks the reply in a receipt.
pub(crate) fn replied<R: Abort>(rt: &R, receipt: &Receipt, expected: CoreReply) {
    must_be(rt, &receipt.reply, &expected);
}

/// Returns the answer of a read that finds a value of one byte.
pub(crate) fn answer<R: Abort>(rt: &R, alloc: Global, value: u8) -> CoreReply {
    CoreReply::Answer(Some(bytes(alloc, value).expect(rt, "memory")))
}
