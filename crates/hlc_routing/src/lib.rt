//! Several stores with one key space: each key belongs to one of them, and a read at one stamp of all is consistent.
#![tactic(auto)]

mod all;
mod division;
mod exact;
mod fault;
mod laws;
mod listing;
mod machine;
mod opened;
mod placing;
mod ranges;
mod snapshot;

pub use division::{Division, MAX_STORES, max_stores_are_1024, the_hash_is_fnv_1a};
pub use fault::RangesFault;
pub use hlc_core::{Accepted, Checkpoint, Core, CoreFault, Item, Report, Stamp};
pub use laws::{
    events_keep_machines, events_keep_stores, first_machines_begin_a_run, joins_make_machines,
    new_stores_begin_a_run, parts_begin_ranges, parts_take_over, states_begin_a_run,
    steps_keep_machines,
};
pub use machine::{Machine, MachineFault, RefusedBatchRouting, RefusedRouting};
pub use placing::PlacingFault;
pub use ranges::Ranges;
pub use snapshot::RangesSnapshot;
