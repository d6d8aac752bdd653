//! Why the program stopped before its end.
ghost use Rattle.std.specs.Prelude.{◌≡◌};
ghost use Rattle.hlc.specs.Store.{core_code};
ghost use Rattle.example_embed.specs.declared.stopped.Stopped.TheVariants.{NotIssued, Refused, NotShown};

use hlc::certificate::NotShown;
use hlc::{CoreFault, Item, NoMemory, NoSnapshot, NodeFault, RefusedWrite};

/// Why the program stopped. `?` turns the fault of each call into one of these.
#[derive(Clone, Copy, PartialEq, Eq, Debug)]
pub(crate) enum Stopped {
    /// A node issued no item.
    NotIssued,
    /// The store refused a call: the number of its fault.
    Refused(u32),
    /// A certificate does not show that its rows are the fewest. That of a vacuum always does.
    NotShown,
}

impl From<NoMemory> for Stopped {
    ghost from_gives = { λ shortage stopped. stopped ≡ Refused 15 };

    fn from(_: NoMemory) -> Stopped {
        Stopped::Refused(15)
    }
}

impl From<NoSnapshot> for Stopped {
    ghost from_gives = { λ shortage stopped. stopped ≡ Refused 10 };

    fn from(_: NoSnapshot) -> Stopped {
        Stopped::Refused(10)
    }
}

impl From<CoreFault> for Stopped {
    ghost from_gives = { λ fault stopped. stopped ≡ Refused (core_code fault) };

    fn from(fault: CoreFault) -> Stopped {
        Stopped::Refused(fault.code())
    }
}

impl From<(CoreFault, Item)> for Stopped {
    ghost from_gives = { λ refused stopped. stopped ≡ Refused (core_code refused.0) };

    fn from(refused: (CoreFault, Item)) -> Stopped {
        Stopped::from(refused.0)
    }
}

impl From<NodeFault> for Stopped {
    ghost from_gives = { λ fault stopped. stopped ≡ NotIssued };

    fn from(_: NodeFault) -> Stopped {
        Stopped::NotIssued
    }
}

impl From<RefusedWrite> for Stopped {
    ghost from_gives = { λ refused stopped. stopped ≡ NotIssued };

    fn from(_: RefusedWrite) -> Stopped {
        Stopped::NotIssued
    }
}

impl From<NotShown> for Stopped {
    ghost from_gives = { λ reason stopped. stopped ≡ NotShown };

    fn from(_: NotShown) -> Stopped {
        Stopped::NotShown
    }
}
