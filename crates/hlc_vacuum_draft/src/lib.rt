//! The plan of a vacuum, key by key: which rows of a column to keep, so that the fewest answer alike at some points;
//! and the report of a vacuum.
#![tactic(auto)]

mod boxed;
mod changes;
mod draft;
mod exact;
mod gaps;
mod key_plan;
mod points;
mod report;
mod witnesses;

pub use boxed::BoxedReport;
pub use changes::{Changes, Unlisted};
pub use draft::{Draft, append_list};
pub use hlc_table_column::Column;
pub use hlc_values::NoMemory;
pub use hlc_witness::{Bytes, Row, Stamp, Witness};
pub use key_plan::{KeyPlan, plan_key};
pub use points::{Points, last_of};
pub use report::{Numbers, Report};
pub use witnesses::Witnesses;
