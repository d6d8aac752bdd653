//! How a worker ends, and what it returns.
use crate::caller::Caller;
use crate::entry::{NotDone, Receipt};
use std::sync::ledger::Ledger;

/// How a worker ended.
#[derive(Clone, Copy, PartialEq, Eq, Debug)]
pub enum WorkEnd {
    /// All work was done.
    Done,
    /// The gate stopped the worker: it answered false.
    Held,
    /// The link is closed: it refused a call.
    Closed,
    /// A call of the store was not made, or there was no memory to prepare it.
    Spent(NotDone),
}

/// What a worker that only calls the store returns: its caller, its receipts in the order of its calls, and how it
/// ended.
#[derive(Drop)]
pub struct Served<L: Ledger> {
    pub caller: Caller<L>,
    pub receipts: Vec<Receipt>,
    pub end: WorkEnd,
}
