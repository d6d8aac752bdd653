//! Why the program stopped before its end.

use hlc::ranges::{MachineFault, RangesFault, RefusedBatchRouting, RefusedRouting};
use hlc::{ClockFault, CoreFault, Item, NoMemory, NoSnapshot, RestoreFault, Stamp};
use std::alloc::AllocFailed;

/// Why the program stopped. `?` turns the fault of each call into one of these.
#[derive(Clone, Copy, PartialEq, Eq, Debug)]
pub(crate) enum Stopped {
    /// The boundaries do not ascend, or there are more or fewer stores than ranges.
    NotDivided,
    /// A machine or the stores refused a call: the number of the refusal.
    Refused(u32),
    /// A checkpoint was not restored.
    NotRestored,
}

impl From<NoMemory> for Stopped {
    fn from(_: NoMemory) -> Stopped {
        Stopped::Refused(15)
    }
}

impl<T: Drop> From<AllocFailed<T>> for Stopped {
    fn from(_: AllocFailed<T>) -> Stopped {
        Stopped::Refused(15)
    }
}

impl From<NoSnapshot> for Stopped {
    fn from(_: NoSnapshot) -> Stopped {
        Stopped::Refused(10)
    }
}

impl From<ClockFault> for Stopped {
    fn from(fault: ClockFault) -> Stopped {
        Stopped::Refused(fault.code())
    }
}

impl From<CoreFault> for Stopped {
    fn from(fault: CoreFault) -> Stopped {
        Stopped::Refused(fault.code())
    }
}

impl From<MachineFault> for Stopped {
    fn from(fault: MachineFault) -> Stopped {
        Stopped::Refused(fault.code())
    }
}

impl From<RefusedRouting> for Stopped {
    fn from(refused: RefusedRouting) -> Stopped {
        Stopped::Refused(refused.why.code())
    }
}

impl From<RefusedBatchRouting> for Stopped {
    fn from(refused: RefusedBatchRouting) -> Stopped {
        Stopped::Refused(refused.why.code())
    }
}

impl From<RangesFault> for Stopped {
    fn from(fault: RangesFault) -> Stopped {
        Stopped::Refused(fault.code())
    }
}

impl From<(RangesFault, Item)> for Stopped {
    fn from(refused: (RangesFault, Item)) -> Stopped {
        Stopped::Refused(refused.0.code())
    }
}

impl From<(RangesFault, Vec<(u16, Stamp)>)> for Stopped {
    fn from(refused: (RangesFault, Vec<(u16, Stamp)>)) -> Stopped {
        Stopped::Refused(refused.0.code())
    }
}

impl From<RestoreFault> for Stopped {
    fn from(_: RestoreFault) -> Stopped {
        Stopped::NotRestored
    }
}
