//! The entries of a trail, and the receipts that callers get.

use hlc_core::{CoreEvent, CoreReply};

/// An entry of the trail: a call that was made.
#[derive(Clone, PartialEq, Eq, Debug, Drop)]
pub struct Entry {
    /// The number of the caller.
    pub caller: u16,
    pub event: CoreEvent,
    pub reply: CoreReply,
}

/// The receipt that a caller gets for its call.
#[derive(Clone, PartialEq, Eq, Debug, Drop)]
pub struct Receipt {
    /// The number of the caller.
    pub caller: u16,
    /// How many calls of all callers came before.
    pub number: u64,
    pub event: CoreEvent,
    pub reply: CoreReply,
}

/// Why a call was not made.
#[derive(Clone, Copy, PartialEq, Eq, Debug)]
pub enum NotDone {
    /// As many calls were made as a `u64` can count.
    NumbersSpent,
    /// Out of memory.
    NoMemory,
}

/// The receipt of a call; or the reason why it was not made, and its event.
pub type CallResult = Result<Receipt, (NotDone, CoreEvent)>;
