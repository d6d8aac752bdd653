//! The open snapshot.

use hlc_clock::Stamp;

/// An open snapshot: its id, and the stamp at which it is read.
#[derive(Clone, Copy, PartialEq, Eq, Debug)]
pub struct Snapshot {
    pub id: u64,
    pub stamp: Stamp,
}
