//! The replies of a world to its events.
ghost use Rattle.std.specs.Prelude.{◌≡◌};

use crate::refusal::Refusal;
use hlc_clock::Stamp;
use hlc_core::{Listing, Report};
use hlc_node::Bytes;
use hlc_values::NoMemory;

/// The reply of a world to an event.
#[derive(PartialEq, Eq, Debug, Drop)]
pub enum Reply {
    /// The node issued the item of this number, with this stamp.
    Stamped { stamp: Stamp, item: u64 },
    /// A node of this number joined, and its clock starts at this stamp.
    Joined { node: u16, start: Stamp },
    /// The message of this number was sent, with this stamp.
    Sent { stamp: Stamp, message: u64 },
    /// The message was received, with this stamp.
    Received { stamp: Stamp },
    /// The snapshot was observed, with this stamp.
    Observed { stamp: Stamp },
    /// The item was accepted; this is its stamp.
    Accepted { stamp: Stamp },
    /// The snapshot of this id was opened, at this stamp.
    Snapshot { id: u64, stamp: Stamp },
    /// The value of the key, or none.
    Answer { value: Option<Bytes> },
    /// All keys that have a value, in byte order, with their values.
    Listing { pairs: Listing },
    /// The snapshot was closed; this was its stamp.
    Closed { stamp: Stamp },
    /// The floor is at this stamp.
    Floor { stamp: Stamp },
    /// The vacuum took place; this is its report.
    Vacuumed { report: Report },
    /// This many rows are stored.
    Rows { count: u128 },
    /// The event did not take place.
    Refused(Refusal),
}

impl Clone for Reply {
    ghost use Rattle.hlc_world.specs.Plain.{IsPlainReply};

    ghost is_clone = { λ reply copy. copy ≡ reply };

    ghost is_infallible = { λ reply. IsPlainReply reply };

    /// Returns a copy. Only a value, a listing and a report take memory.
    fn clone(&self) -> Result<Reply, NoMemory> {
        match self {
            Reply::Stamped { stamp, item } => Ok(Reply::Stamped {
                stamp: *stamp,
                item: *item,
            }),
            Reply::Joined { node, start } => Ok(Reply::Joined {
                node: *node,
                start: *start,
            }),
            Reply::Sent { stamp, message } => Ok(Reply::Sent {
                stamp: *stamp,
                message: *message,
            }),
            Reply::Received { stamp } => Ok(Reply::Received { stamp: *stamp }),
            Reply::Observed { stamp } => Ok(Reply::Observed { stamp: *stamp }),
            Reply::Accepted { stamp } => Ok(Reply::Accepted { stamp: *stamp }),
            Reply::Snapshot { id, stamp } => Ok(Reply::Snapshot {
                id: *id,
                stamp: *stamp,
            }),
            Reply::Answer { value: None } => Ok(Reply::Answer { value: None }),
            Reply::Answer { value: Some(value) } => Ok(Reply::Answer {
                value: Some(value.clone()?),
            }),
            Reply::Listing { pairs } => Ok(Reply::Listing {
                pairs: pairs.clone()?,
            }),
            Reply::Closed { stamp } => Ok(Reply::Closed { stamp: *stamp }),
            Reply::Floor { stamp } => Ok(Reply::Floor { stamp: *stamp }),
            Reply::Vacuumed { report } => Ok(Reply::Vacuumed {
                report: report.clone()?,
            }),
            Reply::Rows { count } => Ok(Reply::Rows { count: *count }),
            Reply::Refused(refusal) => Ok(Reply::Refused(*refusal)),
        }
    }
}
