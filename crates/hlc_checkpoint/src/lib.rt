//! A checkpoint: the whole state of a store, as plain values; the first reason why some values are not a checkpoint;
//! a checkpoint whose rows come one by one; the table of which a store is made; a table's rows in order;
//! and the state of a store, lent.
#![tactic(auto)]

mod checked;
mod checkpoint;
mod exact;
mod growing;
mod restoring;
mod row_ref;
mod sorted;
mod store_ref;

pub use checked::Checked;
pub use checkpoint::{Checkpoint, RestoreFault};
pub use growing::Growing;
pub use hlc_clock::Stamp;
pub use hlc_intake::Intake;
pub use hlc_rows::{Bytes, Row};
pub use hlc_snapshot::Snapshot;
pub use hlc_values::NoMemory;
pub use restoring::{table_of, table_of_moved};
pub use row_ref::{RowRef, list_column};
pub use sorted::{sort, sorted_rows, sorted_rows_above, sorted_rows_to};
pub use store_ref::{Leaves, StoreRef};
