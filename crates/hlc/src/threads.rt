//! A store that threads share, the links that bring it items, the board that shows the floor (closed timestamp) to
//! readers without a lock, and the loops of threads that feed, read and vacuum.

pub use hlc_floor::{Board, Feeder, FloorPass, NodesOutOfRange};
pub use hlc_link::{LinkClosed, LinkReceiver, LinkSender, Parcel, PutFault, link};
pub use hlc_server::{
    CallResult, Called, Caller, Entry, NotDone, Receipt, SettleFault, Settled, Shared, Trail,
};
pub use hlc_workers::{
    Fed, FreeGate, Gate, Reader, Served, WorkEnd, feed, serve_reader, serve_vacuum,
};
