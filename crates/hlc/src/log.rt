//! The log that the replicas of a store share: its records as bytes, applying them, and recovery; and increments, by
//! which an older checkpoint becomes a newer one.

pub use hlc_increment::{
    AdvanceFault, DecodedIncrement, Increment, IncrementFault, advance, decode_increment,
    encode_increment,
};
pub use hlc_log::{
    Applied, Record, RecordFault, Recovered, a_log_may_be_read_again, apply_records, decode_record,
    encode_record, recover, recovered_stores_answer_as_replicas,
};
