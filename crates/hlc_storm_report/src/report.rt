//! What a storm found, and why it may have no report.

use hlc_core::{Listing, Stamp};
use hlc_server::{SettleFault, WorkEnd};
use hlc_values::NoMemory;

/// What a storm found, once its receipts settled.
#[derive(Debug, Drop)]
pub struct StormReport {
    /// How many items of each node were accepted, by node.
    pub accepted: Vec<u64>,
    /// The floor (closed timestamp) after the last of them.
    pub floor: Stamp,
    /// The keys that have a value at the floor, with their values, in byte order.
    pub pairs: Listing,
    /// How many rows the last vacuum kept.
    pub kept: u64,
}

/// Why a storm has no report.
#[derive(Clone, Copy, Debug, PartialEq, Eq)]
pub enum StormFault {
    /// A worker did not do all its work. This is the end of the first such worker: feeders by node, then readers, then
    /// the vacuum.
    Work(WorkEnd),
    /// The receipts don't settle.
    Settle(SettleFault),
    /// Out of memory, which includes a writer that ran out of memory, or a thread could not be started.
    NoMemory,
}

impl From<SettleFault> for StormFault {
    ghost use Rattle.std.specs.Prelude.{◌≡◌};
    ghost use Rattle.hlc_storm_report.specs.declared.report.StormFault.{StormFault};

    ghost from_gives = { λ unsettled fault. fault ≡ StormFault.Settle unsettled };

    fn from(unsettled: SettleFault) -> StormFault {
        StormFault::Settle(unsettled)
    }
}

impl From<NoMemory> for StormFault {
    ghost use Rattle.std.specs.Prelude.{◌≡◌};
    ghost use Rattle.hlc_storm_report.specs.declared.report.StormFault.{StormFault};

    ghost from_gives = { λ shortage fault. fault ≡ StormFault.NoMemory };

    fn from(_error: NoMemory) -> StormFault {
        StormFault::NoMemory
    }
}
