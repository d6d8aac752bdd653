//! The events of a world.
ghost use Rattle.std.specs.Prelude.{◌≡◌};

use hlc_bytes::Bytes;
use hlc_clock::Stamp;
use hlc_values::NoMemory;

/// An event of a world. Its keys and values are bytes, or values that represent bytes.
#[derive(PartialEq, Eq, Debug, Drop)]
pub enum Event<B = Bytes> {
    /// A node writes a value to a key, at this reading of its physical clock.
    Write {
        node: u16,
        reading: u64,
        key: B,
        value: B,
    },
    /// A node deletes a key: it writes a deletion mark (tombstone).
    Delete {
        node: u16,
        reading: u64,
        key: B,
    },
    /// A node issues a report, an item that only says how far the node's stamps have come.
    Report {
        node: u16,
        reading: u64,
    },
    /// A node issues its last item. Every later event at this node is refused.
    Retire {
        node: u16,
        reading: u64,
    },
    /// A node joins: it is assigned the next number, and its clock starts at the floor.
    Join,
    /// A node sends a message. Messages are numbered from 0 across the whole world.
    Send {
        node: u16,
        reading: u64,
    },
    /// A node receives the message of this number. It may be received any number of times.
    Receive {
        node: u16,
        reading: u64,
        message: u64,
    },
    /// A node observes an open snapshot: its later writes come after all that is read there.
    Observe {
        node: u16,
        reading: u64,
        id: u64,
    },
    /// The item of this number on a node's link arrives at the store. It may arrive early, late or many times.
    Deliver {
        node: u16,
        number: u64,
    },
    /// A snapshot is opened at this stamp.
    OpenAt {
        stamp: Stamp,
    },
    /// A snapshot is opened at the floor (closed timestamp).
    OpenFloor,
    /// A key is read in an open snapshot.
    Read {
        id: u64,
        key: B,
    },
    /// All keys with a value are read in an open snapshot.
    List {
        id: u64,
    },
    /// An open snapshot is closed.
    Close {
        id: u64,
    },
    /// The floor is asked for. Each item that is accepted later has a stamp above it.
    Floor,
    /// The store is vacuumed at the floor: rows that no reader needs any more are dropped.
    Vacuum,
    /// The number of stored rows is asked for.
    Rows,
}

impl Clone for Event<Bytes> {
    ghost use Rattle.hlc_world_event.specs.Events.{IsPlainEvent};

    ghost is_clone = { λ event copy. copy ≡ event };

    ghost is_infallible = { λ event. IsPlainEvent event };

    /// Returns a copy. Only a key and a value take memory.
    fn clone(&self) -> Result<Event, NoMemory> {
        match self {
            Event::Write {
                node,
                reading,
                key,
                value,
            } => Ok(Event::Write {
                node: *node,
                reading: *reading,
                key: key.clone()?,
                value: value.clone()?,
            }),
            Event::Delete { node, reading, key } => Ok(Event::Delete {
                node: *node,
                reading: *reading,
                key: key.clone()?,
            }),
            Event::Report { node, reading } => Ok(Event::Report {
                node: *node,
                reading: *reading,
            }),
            Event::Retire { node, reading } => Ok(Event::Retire {
                node: *node,
                reading: *reading,
            }),
            Event::Join => Ok(Event::Join),
            Event::Send { node, reading } => Ok(Event::Send {
                node: *node,
                reading: *reading,
            }),
            Event::Receive {
                node,
                reading,
                message,
            } => Ok(Event::Receive {
                node: *node,
                reading: *reading,
                message: *message,
            }),
            Event::Observe { node, reading, id } => Ok(Event::Observe {
                node: *node,
                reading: *reading,
                id: *id,
            }),
            Event::Deliver { node, number } => Ok(Event::Deliver {
                node: *node,
                number: *number,
            }),
            Event::OpenAt { stamp } => Ok(Event::OpenAt { stamp: *stamp }),
            Event::OpenFloor => Ok(Event::OpenFloor),
            Event::Read { id, key } => Ok(Event::Read {
                id: *id,
                key: key.clone()?,
            }),
            Event::List { id } => Ok(Event::List { id: *id }),
            Event::Close { id } => Ok(Event::Close { id: *id }),
            Event::Floor => Ok(Event::Floor),
            Event::Vacuum => Ok(Event::Vacuum),
            Event::Rows => Ok(Event::Rows),
        }
    }
}
