//! A caller of a shared store, with its receipts.
use crate::expected::must_be;
use hlc_core::{CoreEvent, CoreReply};
use hlc_server::{Called, Caller, Receipt, SettleFault, Shared};
use std::alloc::Global;
use std::process::Abort;
use std::sync::Wait;
use std::sync::ledger::Ledger;
use std::test::*;
use std::thread::Threads;

/// A caller with the receipts of the calls that it made so far.
#[derive(Drop)]
pub(crate) struct Client<L: Ledger> {
    pub(crate) caller: Caller<L>,
    pub(crate) receipts: Vec<Receipt>,
}

/// Makes the call for this event.
fn call<L: Ledger, R: Wait + Threads + Sync>(
    rt: &R,
    shared: &Shared<L>,
    caller: Caller<L>,
    event: CoreEvent,
) -> Called<L> {
    match event {
        CoreEvent::Accept(item) => shared.accept(rt, caller, item),
        CoreEvent::Join => shared.join(rt, caller),
        CoreEvent::OpenAt(stamp) => shared.open(rt, caller, stamp),
        CoreEvent::OpenFloor => shared.open_floor(rt, caller),
        CoreEvent::Read { id, key } => shared.read(rt, caller, id, key),
        CoreEvent::List(id) => shared.list(rt, caller, id),
        CoreEvent::Close(id) => shared.close(rt, caller, id),
        CoreEvent::Vacuum => shared.vacuum(rt, caller),
        event => {
            let mut caller = caller;
            let returned = shared.call_by_threads(rt, &mut caller, event);
            (caller, returned)
        }
    }
}

impl<L: Ledger> Client<L> {
    /// Returns a caller that has made no call.
    pub(crate) fn new(alloc: Global, caller: Caller<L>) -> Client<L> {
        Client {
            caller,
            receipts: Vec::new(alloc),
        }
    }

    /// Makes the call for this event, and stores its receipt if it was made.
    pub(crate) fn asks<R: Wait + Threads + Abort + Sync>(
        self,
        rt: &R,
        shared: &Shared<L>,
        event: CoreEvent,
    ) -> Client<L> {
        let Client {
            caller,
            mut receipts,
        } = self;
        let (caller, returned) = call(rt, shared, caller, event);
        keep(rt, &mut receipts, returned.ok());
        Client { caller, receipts }
    }

    /// Checks that this is the last reply that the caller got.
    pub(crate) fn got<R: Abort>(&self, rt: &R, expected: CoreReply) {
        let receipt = self.receipts.last().expect(rt, "a call that was made");
        must_be(rt, &receipt.reply, &expected);
    }

    /// Returns the id of the snapshot in the last reply, 0 where there is none.
    pub(crate) fn opened(&self) -> u64 {
        match self.receipts.last() {
            Some(receipt) => match &receipt.reply {
                CoreReply::Opened { id, stamp: _ } => *id,
                _ => 0,
            },
            None => 0,
        }
    }
}

/// Stores the receipt of a call, if it was made.
fn keep<R: Abort>(rt: &R, receipts: &mut Vec<Receipt>, returned: Option<Receipt>) {
    if let Some(receipt) = returned {
        receipts.push(receipt).ok().expect(rt, "memory");
    }
}

/// A caller with its receipts, for settling.
pub(crate) type Paid<L> = (Caller<L>, Vec<Receipt>);

/// Settles, and returns how many calls there were.
pub(crate) fn settled_calls<L: Ledger>(
    shared: Shared<L>,
    lists: Vec<Paid<L>>,
) -> Result<u64, SettleFault> {
    shared.settle(lists).map(|settled| settled.entries)
}

/// Returns the lists of these clients, for settling.
pub(crate) fn lists_of<L: Ledger, R: Abort>(
    rt: &R,
    alloc: Global,
    clients: Vec<Client<L>>,
) -> Vec<Paid<L>> {
    let mut lists = Vec::new(alloc);
    for client in clients {
        let Client { caller, receipts } = client;
        lists.push((caller, receipts)).ok().expect(rt, "memory");
    }
    lists
}
