//! The order of a link: only the next item of each node is admitted, and only with an increasing
//! stamp.
#![tactic(auto)]

mod exact;
mod intake;

pub use hlc_clock::Stamp;
pub use intake::{Intake, LinkFault};
