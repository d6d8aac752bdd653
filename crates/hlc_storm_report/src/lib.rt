//! The store of a storm, how its workers ended, and what it found, or why it has no report; and its printing. No thread
//! is started here.
#![tactic(auto)]

mod ends;
mod exact;
mod found;
mod printing;
mod report;
mod store;

pub use ends::{Ends, Lists};
pub use found::report_of;
pub use hlc_core::{Listing, Stamp};
pub use hlc_words::StormPlan;
pub use printing::print_storm;
pub use report::{StormFault, StormReport};
pub use store::new_store;
