//! The sequential store: items are accepted in the order of each link, snapshots open from the horizon (GC threshold)
//! to the floor (closed timestamp), a read returns the newest accepted value, and a vacuum keeps the fewest and
//! cheapest rows with the same answers.
#![tactic(auto)]

mod exact;
mod laws;
mod link;
mod listing;
mod planned;
mod reply;
mod rows;
mod step;
mod store;
mod vacuum;

pub use hlc_checkpoint::{Checked, Checkpoint, Growing, RestoreFault};
pub use hlc_clock::Stamp;
pub use hlc_columns::{Answers, AnswersBack, Changes, ReadView, Sizes, Versions};
pub use hlc_events::{CertificateFault, CoreEvent, CoreFault, NoNode};
pub use hlc_heads::{Accepted, JoinFault};
pub use hlc_intake::{Intake, LinkFault};
pub use hlc_node::{Body, BodyFault, Bytes, Item, ItemRef, Row};
pub use hlc_snapshot::{NoSnapshot, Snapshot, SnapshotFault};
pub use hlc_vacuum::{BoxedReport, Numbers, Points, Report, Witnesses};
pub use hlc_values::NoMemory;
pub use hlc_witness::Witness;
pub use laws::{
    a_join_is_one_at_the_floor, accepted_writes_are_a_row_set, answers_stay, checkpoints_restore,
    differences_lead_on, each_checkpoint_has_a_past, floor_is_the_least_head,
    histories_are_faithful, joins_keep_the_floor, later_items_are_above_the_floor,
    open_snapshots_are_at_most_the_floor, retired_nodes_leave_the_greatest_stamp,
    the_floor_never_falls, there_is_one_listing,
};
pub use listing::{Listing, Pair};
pub use planned::Planned;
pub use reply::CoreReply;
pub use store::Core;
