//! Several stores with one key space: which store has a key, their consistent cut, a snapshot of all of them, and
//! machines that write to them; and a checkpoint divided at a key, or joined of two.

pub use hlc_ranges::{
    cuts_are_consistent, cuts_are_final, cuts_go_on, events_extend_runs, items_extend_runs,
    keys_stay_in_their_store, stamps_follow_events, steps_extend_runs,
};
pub use hlc_routing::{
    Division, MAX_STORES, Machine, MachineFault, PlacingFault, Ranges, RangesFault, RangesSnapshot,
    RefusedBatchRouting, RefusedRouting, events_keep_machines, events_keep_stores,
    first_machines_begin_a_run, joins_make_machines, max_stores_are_1024, new_stores_begin_a_run,
    parts_begin_ranges, parts_take_over, states_begin_a_run, steps_keep_machines,
    the_hash_is_fnv_1a,
};
pub use hlc_split::{MergeFault, merge, split};
