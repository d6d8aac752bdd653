//! Why a registry refuses a call.
ghost use Rattle.std.specs.Prelude.{◌≡◌};
ghost use Rattle.hlc_snapshot.specs.Faults.{snapshot_code};

use std::error::Error;
use std::fmt;

/// Why no snapshot is opened.
#[derive(Clone, Copy, PartialEq, Eq, Debug)]
pub enum SnapshotFault {
    /// 1,024 snapshots are open.
    TooManySnapshots,
    /// No further id is left.
    NumbersSpent,
    /// Out of memory.
    NoMemory,
}

impl SnapshotFault {
    /// Returns the number of this refusal: 11, 14 or 15.
    pub fn code(self) -> u32
        ensures { result ≡ snapshot_code self }
    {
        match self {
            SnapshotFault::TooManySnapshots => 11,
            SnapshotFault::NumbersSpent => 14,
            SnapshotFault::NoMemory => 15,
        }
    }
}

impl fmt::Display for SnapshotFault {
    ghost use Rattle.std.specs.Prelude.{Some};
    ghost use Rattle.hlc_snapshot.specs.Faults.{snapshot_text};

    ghost output = { λ fault. Some (snapshot_text fault) };

    fn fmt<W: fmt::Write>(&self, f: &mut fmt::Formatter<W>) -> fmt::Result {
        match self {
            SnapshotFault::TooManySnapshots => f.write_str("1,024 snapshots are open"),
            SnapshotFault::NumbersSpent => f.write_str("no snapshot id is left"),
            SnapshotFault::NoMemory => f.write_str("out of memory"),
        }
    }
}

impl Error for SnapshotFault {}

/// No open snapshot has that id.
#[derive(Clone, Copy, PartialEq, Eq, Debug)]
pub struct NoSnapshot;

impl fmt::Display for NoSnapshot {
    ghost use Rattle.std.specs.Prelude.{Some, codes};

    ghost output = { λ _. Some (codes "no open snapshot has that id") };

    fn fmt<W: fmt::Write>(&self, f: &mut fmt::Formatter<W>) -> fmt::Result {
        f.write_str("no open snapshot has that id")
    }
}

impl Error for NoSnapshot {}
