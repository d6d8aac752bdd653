//! Each handle may go to another thread: what it owns is the same in every thread.

use crate::{Output, Reader, Restoring, Saving, Store};

/// Takes a type whose values may go to another thread.
fn may_go<T: Send>() {}

/// A store, a reader, an output, a restore and a saving may go from one thread to another, between two calls.
pub fn handles_may_change_threads() {
    may_go::<Store>();
    may_go::<Reader>();
    may_go::<Output>();
    may_go::<Restoring>();
    may_go::<Saving>();
}
