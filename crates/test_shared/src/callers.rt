//! The small callers in the READMEs of `hlc_link`, `hlc_floor`, `hlc_server` and `hlc_workers`, with what they rely on.
ghost use Rattle.std.specs.Prelude.{◌≡◌, ◌↔◌, ◌+◌, ◌<◌, ◌≤◌, ℕ, length, slice_index, IsTrue, IfOk, IfSome};
ghost use Rattle.hlc_server.specs.declared.end.WorkEnd.{WorkEnd};

use hlc_clock::Stamp;
use hlc_floor::{Board, FloorPass};
use hlc_link::LinkSender;
use hlc_node::Item;
use hlc_server::{Caller, Receipt, SettleFault, Shared};
use hlc_workers::{FreeGate, Served, serve_vacuum};
use std::alloc::{AllocError, Global};
use std::sync::Wait;
use std::sync::ledger::Ledger;
use std::thread::Threads;

/// Puts one more item and then the end, and returns how many items the link carries.
pub(crate) fn put_last<R: Wait>(rt: &R, sender: LinkSender, item: Item) -> Option<u64>
    ensures { IfSome result (λ count. count ≡ length sender.put + 1) }
{
    let mut sender = sender;
    sender.put(rt, item).ok()?;
    sender.finish(rt).ok()
}

/// Returns whether every node of a board has come so far.
pub(crate) fn has_come(board: &Board, pass: &mut FloorPass, stamp: Stamp) -> bool
    requires { pass.old.board ≡ board.now }
    ensures { IsTrue result
        ↔ ((node : ℕ) → node < board.now.words → stamp ≤ slice_index pass.new.seen node) }
{
    stamp <= board.floor(pass)
}

/// Settles the receipts of a store with one caller, and returns how many calls there were. Where they settle, none is
/// missing.
pub(crate) fn count_calls<L: Ledger>(
    alloc: Global,
    shared: Shared<L>,
    caller: Caller<L>,
    receipts: Vec<Receipt>,
) -> Result<Result<u64, SettleFault>, AllocError>
    ensures { IfOk result (λ settled. IfOk settled (λ calls. calls ≡ length receipts.items)) }
{
    let mut lists = Vec::new(alloc);
    lists.push((caller, receipts))?;
    Ok(shared.settle(lists).map(|settled| settled.entries))
}

/// Vacuums a store four times, with no gate.
pub(crate) fn vacuum_often<L: Ledger, R: Wait + Threads + Sync>(
    rt: &R,
    alloc: Global,
    shared: &Shared<L>,
    caller: Caller<L>,
) -> Served<L>
    ensures { result.end ≡ WorkEnd.Done → result.caller.share ≡ caller.share + 4 }
{
    serve_vacuum(rt, alloc, shared, caller, 4, &FreeGate)
}
