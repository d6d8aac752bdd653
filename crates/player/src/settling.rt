//! Settles all calls of a store.
use crate::host::Host;
use crate::lines::Lines;
use crate::play::{play_new, say};
use crate::stored::Stored;
use hlc_server::{Caller, Receipt, SettleFault, Settled};
use std::alloc::Global;
use std::sync::ledger::Ledger;
use std::thread::Threads;

/// Returns the receipts of the one caller, if there is memory for their list.
pub(crate) fn lists_of<L: Ledger>(
    alloc: Global,
    caller: Option<Caller<L>>,
    receipts: Vec<Receipt>,
) -> Vec<(Caller<L>, Vec<Receipt>)> {
    let mut lists = Vec::new(alloc);
    if let Some(caller) = caller {
        let _ = lists.push((caller, receipts));
    }
    lists
}

/// Prints how many calls the trail has, or why they don't settle, and plays calls of the store.
pub(crate) fn play_settled<R: Threads + Sync>(
    host: &Host<'_, R>,
    lines: &mut Lines<'_>,
    settled: Result<Settled, SettleFault>,
) {
    let core = match settled {
        Err(fault) => say(host.rt, "unsettled", &fault).and(None),
        Ok(settled) => say(host.rt, "settled", &settled.entries).and(Some(settled.core)),
    };
    play_new(host, lines, Stored::of(core));
}
