//! Why a core refuses a call.
ghost use Rattle.std.specs.Prelude.{◌≡◌};
ghost use Rattle.hlc_events.specs.Faults.{core_code, core_word};

use hlc_clock::Stamp;
use hlc_heads::JoinFault;
use hlc_intake::LinkFault;
use hlc_node::BodyFault;
use hlc_snapshot::SnapshotFault;
use hlc_values::NoMemory;
use std::error::Error;
use std::fmt;

/// Why a core refuses a call. Out of memory is `NoMemory`, in whatever part of the core it happens.
#[derive(Clone, Copy, PartialEq, Eq, Debug)]
pub enum CoreFault {
    /// No node has this number; or the number of nodes of a new core is not 1 to 64.
    NoNode,
    /// The item is not the next one of its link.
    Link(LinkFault),
    /// No item may have this body.
    Body(BodyFault),
    /// No node joins.
    Join(JoinFault),
    /// The stamp is above the floor.
    AboveFloor { floor: Stamp },
    /// The stamp is below that of the last vacuum.
    BelowHorizon { horizon: Stamp },
    /// No snapshot is opened.
    Snapshot(SnapshotFault),
    /// No open snapshot has that id.
    NoSnapshot,
    /// Out of memory.
    NoMemory,
}

impl CoreFault {
    /// Returns the number of this refusal in outputs: 1, 6 to 15, 26 or 27.
    pub fn code(self) -> u32
        ensures { result ≡ core_code self }
    {
        match self {
            CoreFault::NoNode => 1,
            CoreFault::Link(fault) => fault.code(),
            CoreFault::Body(fault) => fault.code(),
            CoreFault::Join(fault) => fault.code(),
            CoreFault::AboveFloor { .. } => 8,
            CoreFault::BelowHorizon { .. } => 9,
            CoreFault::Snapshot(fault) => fault.code(),
            CoreFault::NoSnapshot => 10,
            CoreFault::NoMemory => 15,
        }
    }

    /// Returns the number or the word of the stamp in this refusal, or 0.
    pub fn word(self) -> u64
        ensures { result ≡ core_word self }
    {
        match self {
            CoreFault::Link(fault) => fault.word(),
            CoreFault::Join(fault) => fault.word(),
            CoreFault::AboveFloor { floor } => floor.bits(),
            CoreFault::BelowHorizon { horizon } => horizon.bits(),
            CoreFault::NoNode
            | CoreFault::Body(_)
            | CoreFault::Snapshot(_)
            | CoreFault::NoSnapshot
            | CoreFault::NoMemory => 0,
        }
    }
}

impl fmt::Display for CoreFault {
    ghost use Rattle.std.specs.Prelude.{Some};
    ghost use Rattle.hlc_events.specs.Faults.{core_text};

    ghost output = { λ fault. Some (core_text fault) };

    fn fmt<W: fmt::Write>(&self, f: &mut fmt::Formatter<W>) -> fmt::Result {
        match self {
            CoreFault::NoNode => f.write_str("no such node, or not 1 to 64 nodes"),
            CoreFault::Link(fault) => fault.fmt(f),
            CoreFault::Body(fault) => fault.fmt(f),
            CoreFault::Join(fault) => fault.fmt(f),
            CoreFault::AboveFloor { floor } => write!(f, "the stamp is above the floor, {floor}"),
            CoreFault::BelowHorizon { horizon } => {
                write!(f, "the stamp is below that of the last vacuum, {horizon}")
            }
            CoreFault::Snapshot(fault) => fault.fmt(f),
            CoreFault::NoSnapshot => f.write_str("no open snapshot has that id"),
            CoreFault::NoMemory => f.write_str("out of memory"),
        }
    }
}

impl Error for CoreFault {}

impl From<LinkFault> for CoreFault {
    ghost use Rattle.hlc_events.specs.declared.fault.CoreFault.TheVariants.{Link};

    ghost from_gives = { λ fault core. core ≡ Link fault };

    fn from(fault: LinkFault) -> CoreFault {
        CoreFault::Link(fault)
    }
}

impl From<JoinFault> for CoreFault {
    ghost use Rattle.hlc_events.specs.declared.fault.CoreFault.TheVariants.{Join};

    ghost from_gives = { λ fault core. core ≡ Join fault };

    fn from(fault: JoinFault) -> CoreFault {
        CoreFault::Join(fault)
    }
}

impl From<SnapshotFault> for CoreFault {
    ghost use Rattle.hlc_events.specs.Faults.{of_registry};

    ghost from_gives = { λ fault core. core ≡ of_registry fault };

    fn from(fault: SnapshotFault) -> CoreFault {
        match fault {
            SnapshotFault::NoMemory => CoreFault::NoMemory,
            fault => CoreFault::Snapshot(fault),
        }
    }
}

impl From<NoMemory> for CoreFault {
    ghost use Rattle.hlc_events.specs.declared.fault.CoreFault.TheVariants.{NoMemory};

    ghost from_gives = { λ _ core. core ≡ NoMemory };

    fn from(_fault: NoMemory) -> CoreFault {
        CoreFault::NoMemory
    }
}

/// No node has this number.
#[derive(Clone, Copy, PartialEq, Eq, Debug)]
pub struct NoNode;

impl fmt::Display for NoNode {
    ghost use Rattle.std.specs.Prelude.{Some, codes};

    ghost output = { λ _. Some (codes "no node has this number") };

    fn fmt<W: fmt::Write>(&self, f: &mut fmt::Formatter<W>) -> fmt::Result {
        f.write_str("no node has this number")
    }
}

impl Error for NoNode {}
