//! How the program says which request for memory is to be refused: by requests of sizes that no memory has, which
//! `tests/refuse.c` knows, loaded before the C library. Where it is not loaded, no request is refused.
use std::alloc::Global;

/// Refuses the request that comes this many requests later, if this number is added.
const REFUSE: u64 = 1 << 60;

/// Asks whether a request was refused, and refuses none from then on. It succeeds where one was.
const WAS_REFUSED: u64 = 1 << 61;

/// Lets the request of this number be refused, counted from 1.
pub(crate) fn refuse(rt: &HostRuntime, number: u64) {
    let _ = request(rt.alloc(), REFUSE + number.min(1 << 30));
}

/// Returns whether a request was refused since, and lets none be refused any more.
pub(crate) fn end_refusing(rt: &HostRuntime) -> bool {
    request(rt.alloc(), WAS_REFUSED)
}

/// Returns whether there is memory of this size.
fn request(alloc: Global, size: u64) -> bool {
    Vec::<u8>::with_capacity(alloc, size as usize).is_ok()
}
