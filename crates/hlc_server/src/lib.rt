//! A store that threads share: one lock, a trail of the calls under it, and receipts that can be checked against the
//! trail.
#![tactic(auto)]

mod caller;
mod calling;
mod end;
mod entry;
mod exact;
mod guarded;
mod lock;
mod locked;
mod settle;
mod shared;
mod trail;
mod writing;

pub use caller::{Called, Caller};
pub use calling::{step_guarded, vacuum_guarded};
pub use end::{Served, WorkEnd};
pub use entry::{CallResult, Entry, NotDone, Receipt};
pub use guarded::Guarded;
pub use hlc_core::{Bytes, Core, CoreEvent, CoreReply, Item, Stamp};
pub use settle::{SettleFault, Settled, settle_guarded};
pub use shared::Shared;
pub use trail::Trail;
