//! A link between two threads: what is taken from it is what was put, in order, and the end comes last.
#![tactic(auto)]

mod ends;
mod exact;
mod laws;
mod rule;

pub use ends::{LinkClosed, LinkReceiver, LinkSender, PutFault, link};
pub use hlc_intake::{Intake, LinkFault, Stamp};
pub use hlc_node::Item;
pub use hlc_values::NoMemory;
pub use laws::link_carries;
pub use rule::Parcel;
