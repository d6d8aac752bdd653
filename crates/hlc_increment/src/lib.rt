//! Incremental checkpoints: the state of a store without the rows at or below a stamp, by which an older checkpoint
//! becomes a newer one.
#![tactic(auto)]

mod advancing;
mod bytes;
mod exact;
mod increment;
mod later;

pub use advancing::{AdvanceFault, advance};
pub use bytes::{DecodedIncrement, decode_increment, encode_increment};
pub use hlc_core::{Checkpoint, Core, RestoreFault, Row, Stamp};
pub use increment::{Increment, IncrementFault};
