//! The log that the replicas of a store share: its records as bytes, what a store makes of them, and recovery from a
//! checkpoint and the log.
#![tactic(auto)]

mod apply;
mod exact;
mod laws;
mod record;
mod recovery;

pub use apply::{Applied, RecordFault, apply_records};
pub use hlc_core::{Core, CoreFault, Item, ItemRef, Stamp};
pub use hlc_saved::ResumeError;
pub use hlc_wire::{DecodeError, EncodeError, WireFault};
pub use laws::{a_log_may_be_read_again, recovered_stores_answer_as_replicas};
pub use record::{
    Record, RecordRef, decode_record, encode_record, put_record, record_ref_at, record_size,
};
pub use recovery::{Recovered, recover};
