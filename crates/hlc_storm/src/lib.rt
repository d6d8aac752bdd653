//! A storm: writers, feeders, readers and a vacuum use one store, each in a thread of its own. Once all have ended,
//! their receipts are settled, and the report says what the store contains.
#![tactic(auto)]

mod exact;
mod gates;
mod joining;
mod starting;
mod storming;
mod working;
mod writing;

pub use gates::StormGates;
pub use hlc_storm_report::{
    Listing, Lists, Stamp, StormFault, StormPlan, StormReport, print_storm,
};
pub use joining::{Started, join_all};
pub use storming::{storm, storm_gated, work};
pub use writing::WriteFault;
