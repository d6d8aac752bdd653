//! A store and a board of one node, and their seats.
ghost use Rattle.std.specs.Prelude.{◌≡◌, ◌<◌};

use hlc_floor::{Board, Feeder, FloorPass};
use hlc_server::{Caller, Receipt, SettleFault, Shared};
use std::alloc::Global;
use std::process::Abort;
use std::sync::ledger::{Blank, Ledger};
use std::test::*;

/// A store of one node, with a board.
#[derive(Drop)]
pub struct Scene<L: Ledger> {
    pub shared: Shared<L>,
    pub board: Board,
}

/// The callers of a scene's store, and the feeder and the one pass of its board.
#[derive(Drop)]
pub struct Seats<L: Ledger> {
    pub callers: Vec<Caller<L>>,
    pub feeder: Feeder,
    pub pass: FloorPass,
}

/// A caller with its receipts, for settling.
pub type Paid<L> = (Caller<L>, Vec<Receipt>);

/// Returns a new store with this many callers, and a new board.
pub fn new_scene<L: Ledger, R: Abort>(
    rt: &R,
    alloc: Global,
    blank: Blank,
    callers: u16,
    audit: bool,
) -> (Scene<L>, Seats<L>)
    requires ledger { (blank.name ≡ L.name) × (blank.parts ≡ L.parts) }
    requires callers { (0 < callers) × (blank.parts ≡ callers) }
    ensures feeder { result.1.feeder.board ≡ result.0.board }
    ensures pass { result.1.pass.board ≡ result.0.board }
{
    let made = Board::new(alloc, 1, 1).expect(rt, "memory");
    let (board, mut feeders, mut passes) = made.expect(rt, "a board");
    let (shared, callers) = Shared::<L>::new(alloc, blank, 1, callers, audit).expect(rt, "a store");
    let feeder = feeders.remove(0);
    let pass = passes.remove(0);
    let seats = Seats {
        callers,
        feeder,
        pass,
    };
    (Scene { shared, board }, seats)
}

/// Settles, and returns how many calls there were.
pub(crate) fn settled_calls<L: Ledger>(
    shared: Shared<L>,
    lists: Vec<Paid<L>>,
) -> Result<u64, SettleFault> {
    shared.settle(lists).map(|settled| settled.entries)
}
