//! The open snapshots of a table, and the points of a vacuum.
#![tactic(auto)]

mod exact;
mod fault;
mod laws;
mod registry;
mod snapshot;

pub use fault::{NoSnapshot, SnapshotFault};
pub use hlc_clock::Stamp;
pub use hlc_values::NoMemory;
pub use laws::{
    closing_takes_out_one_snapshot, ids_are_never_used_again, max_open_snapshots_are_1024,
    opening_adds_one_snapshot, points_are_unique, registers_stay_registers,
};
pub use registry::{MAX_OPEN_SNAPSHOTS, Registry, is_register};
pub use snapshot::Snapshot;
