//! The events of a store.

use hlc_clock::Stamp;
use hlc_node::{Bytes, Item};

/// An event of a store: a call, as a value.
#[derive(Clone, PartialEq, Eq, Debug, Drop)]
pub enum CoreEvent {
    /// An item arrives over its node's link.
    Accept(Item),
    /// A node joins, with the next number.
    Join,
    /// A snapshot is opened at this stamp.
    OpenAt(Stamp),
    /// A snapshot is opened at the floor.
    OpenFloor,
    /// A key is read in an open snapshot.
    Read {
        id: u64,
        key: Bytes,
    },
    /// All keys with a value are read in the open snapshot with this id.
    List(u64),
    /// The open snapshot with this id is closed.
    Close(u64),
    /// Rows up to the floor that no reader needs any more are dropped.
    Vacuum,
    /// A node joins, with the next number, and starts at this stamp.
    JoinAt(Stamp),
    /// Rows up to this stamp that no reader needs any more are dropped.
    VacuumTo(Stamp),
    /// Part of a vacuum to the stamp: such rows of the first stored keys above `after`, at most `limit` keys, are
    /// dropped. The first part begins with the empty key.
    VacuumPart {
        at: Stamp,
        after: Bytes,
        limit: usize,
    },
}
