//! The workers of a storm.
ghost use Rattle.std.specs.Prelude.{◌≡◌, ◌≢◌, ◌<◌, ℕ, false, true, None, length, map, replicate, vec_len, Option};
ghost use Rattle.hlc_node.specs.declared.item.Item.{Item as AnItem};
ghost use Rattle.hlc_floor.specs.Views.{FloorPassView};
ghost use Rattle.hlc_link.specs.Ends.{ReceiverView};
ghost use Rattle.hlc_events.specs.declared.event.CoreEvent.{CoreEvent as AnEvent};
ghost use Rattle.hlc_server.specs.declared.end.WorkEnd.{WorkEnd};
ghost use Rattle.hlc_workers.specs.{Paid.IsPaid, Paid.event_of, Rounds.HasServed, Feeding.TookAll, Feeding.fed_all};

use hlc_core::Bytes;
use hlc_floor::{Board, Feeder, FloorPass};
use hlc_link::LinkReceiver;
use hlc_server::{Caller, Shared};
use hlc_workers::{Fed, Gate, Reader, Served, feed, serve_reader, serve_vacuum};
use std::alloc::Global;
use std::sync::Wait;
use std::sync::ledger::Ledger;
use std::thread::Threads;

/// The number of rounds of a reader, and of vacuums of the worker of the vacuum.
const ROUNDS: u64 = 16;

/// What the worker of a link starts with: its caller, the receiving end, and its feeder of the board.
#[derive(Drop)]
pub(crate) struct Feeding<'a, L: Ledger> {
    pub(crate) caller: Caller<L>,
    pub(crate) link: LinkReceiver,
    pub(crate) board: &'a Board,
    pub(crate) feeder: Feeder,
    ghost of_board: { feeder.board ≡ board.now },
}

/// What a reader starts with: its caller, and its pass of the board.
#[derive(Drop)]
pub(crate) struct Looking<'a, L: Ledger> {
    pub(crate) caller: Caller<L>,
    pub(crate) board: &'a Board,
    pub(crate) pass: FloorPass,
    ghost of_board: { pass.board ≡ board.now },
}

/// Runs the worker of a link, and returns its result and its feeder, raised to what was accepted. Its end of the link
/// is dropped in its thread, so that no writer waits for a feeder that has ended.
pub(crate) fn feed_link<L: Ledger, G: Gate, R: Wait>(
    rt: &R,
    alloc: Global,
    shared: &Shared<L>,
    place: Feeding<'_, L>,
    gate: &G,
) -> (Served<L>, Feeder)
    ensures share { IsPaid place.entry.caller result.0.caller result.0.receipts.items }
    ensures items { (link : ReceiverView) × (left : Option AnItem)
        × TookAll place.entry.link.taken link.taken result.0.receipts.items left
        × (result.0.end ≡ WorkEnd.Done → (link.ended ≡ true) × (left ≡ None)) }
    ensures raised { result.1 ≡ fed_all place.entry.feeder result.0.receipts.items }
    ensures stopped { result.0.end ≡ WorkEnd.Held
        → G.may_answer gate.now (vec_len result.0.receipts) false }
    ensures passed { (turn : ℕ) → turn < length result.0.receipts.items
        → G.may_answer gate.now turn true }
{
    let Feeding {
        caller,
        link,
        board,
        feeder,
    } = place;
    let Fed {
        caller,
        link: _,
        feeder,
        receipts,
        left: _,
        end,
    } = feed(rt, alloc, shared, caller, link, board, Some(feeder), gate);
    let Some(feeder) = feeder else { unreachable!() };
    let served = Served {
        caller,
        receipts,
        end,
    };
    (served, feeder)
}

/// Runs the worker of a reader.
pub(crate) fn read_keys<L: Ledger, G: Gate, R: Wait>(
    rt: &R,
    alloc: Global,
    shared: &Shared<L>,
    place: Looking<'_, L>,
    keys: &[Bytes],
    gate: &G,
) -> Served<L>
    ensures share { IsPaid place.entry.caller result.caller result.receipts.items }
    ensures done { result.end ≡ WorkEnd.Done
        → (pass : FloorPassView) × HasServed keys.now 16 place.entry.pass pass result.receipts.items }
    ensures stopped { result.end ≡ WorkEnd.Held
        → G.may_answer gate.now (vec_len result.receipts) false }
    ensures open { result.end ≢ WorkEnd.Closed }
    ensures passed { (turn : ℕ) → turn < length result.receipts.items
        → G.may_answer gate.now turn true }
{
    let Looking {
        caller,
        board,
        pass,
    } = place;
    let Reader {
        caller,
        pass: _,
        receipts,
        end,
    } = serve_reader(rt, alloc, shared, caller, board, pass, keys, ROUNDS, gate);
    Served {
        caller,
        receipts,
        end,
    }
}

/// Runs the worker of the vacuum.
pub(crate) fn vacuum_rows<L: Ledger, G: Gate, R: Wait + Threads + Sync>(
    rt: &R,
    alloc: Global,
    shared: &Shared<L>,
    caller: Caller<L>,
    gate: &G,
) -> Served<L>
    ensures share { IsPaid caller result.caller result.receipts.items }
    ensures done { result.end ≡ WorkEnd.Done
        → map event_of result.receipts.items ≡ replicate 16 AnEvent.Vacuum }
    ensures stopped { result.end ≡ WorkEnd.Held
        → G.may_answer gate.now (vec_len result.receipts) false }
    ensures open { result.end ≢ WorkEnd.Closed }
    ensures passed { (turn : ℕ) → turn < length result.receipts.items
        → G.may_answer gate.now turn true }
{
    serve_vacuum(rt, alloc, shared, caller, ROUNDS, gate)
}
