//! The calls of a store as values, and why a store refuses one.
#![tactic(auto)]

mod certificate_fault;
mod event;
mod exact;
mod fault;

pub use certificate_fault::CertificateFault;
pub use event::CoreEvent;
pub use fault::{CoreFault, NoNode};
pub use hlc_clock::Stamp;
pub use hlc_heads::JoinFault;
pub use hlc_intake::LinkFault;
pub use hlc_node::{BodyFault, Bytes, Item};
pub use hlc_snapshot::SnapshotFault;
pub use hlc_values::NoMemory;
