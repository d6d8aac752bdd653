//! Why the life of a store stopped before its end.

use hlc::ranges::{MachineFault, RangesFault, RefusedRouting};
use hlc::{Item, NoMemory};
use std::alloc::AllocFailed;

/// Why a step stopped before its end. `?` turns the fault of each call into one of these.
#[derive(Clone, Copy, PartialEq, Eq, Debug)]
pub enum Stopped {
    /// Memory ran out.
    NoMemory,
    /// The bytes, or what became of them, are no checkpoint.
    NoCheckpoint,
    /// There is no such node, or it has retired.
    NoNode,
    /// A machine, a node or a store refused a call.
    Refused,
    /// The two ranges were not joined into one store.
    NotJoined,
    /// An increment or a log does not lead on from an older checkpoint.
    NotLater,
    /// A store cannot be read at the stamp: it is above the floor, or below the horizon.
    NotReadable,
}

impl From<NoMemory> for Stopped {
    fn from(_: NoMemory) -> Stopped {
        Stopped::NoMemory
    }
}

impl<T: Drop> From<AllocFailed<T>> for Stopped {
    fn from(_: AllocFailed<T>) -> Stopped {
        Stopped::NoMemory
    }
}

impl From<RefusedRouting> for Stopped {
    fn from(_: RefusedRouting) -> Stopped {
        Stopped::Refused
    }
}

impl From<MachineFault> for Stopped {
    fn from(_: MachineFault) -> Stopped {
        Stopped::Refused
    }
}

impl From<(RangesFault, Item)> for Stopped {
    fn from(_: (RangesFault, Item)) -> Stopped {
        Stopped::Refused
    }
}
