//! The feeders and the passes of a board.
ghost use Rattle.std.specs.Prelude.{◌≡◌};
ghost use Rattle.hlc_floor.specs.Views.{FeedersOf, PassesOf};

use hlc_core::Accepted;
use hlc_floor::{Board, Feeder, FloorPass};
use std::alloc::Global;

/// A feeder of this board.
#[derive(Drop)]
pub(crate) struct Raising<'a> {
    board: &'a Board,
    feeder: Feeder,
    ghost of_board: { feeder.board ≡ board.now },
}

/// A pass of this board.
#[derive(Drop)]
pub(crate) struct Looking<'a> {
    board: &'a Board,
    pass: FloorPass,
    ghost of_board: { pass.board ≡ board.now },
}

/// Returns the feeders with their board, the last one first. Where memory runs out, some are missing.
pub(crate) fn raising_all<'a>(
    alloc: Global,
    board: &'a Board,
    feeders: Vec<Feeder>,
) -> Vec<Raising<'a>>
    requires { FeedersOf board.now feeders.items }
{
    let mut feeders = feeders;
    let mut all = Vec::new(alloc);
    for _ in 0..feeders.len() {
        let Some(feeder) = feeders.pop() else {
            break;
        };
        drop(all.push(Raising { board, feeder }));
    }
    all
}

/// Returns the passes with their board. Where memory runs out, some are missing.
pub(crate) fn looking_all<'a>(
    alloc: Global,
    board: &'a Board,
    passes: Vec<FloorPass>,
) -> Vec<Looking<'a>>
    requires { PassesOf board.now passes.items }
{
    let mut passes = passes;
    let mut all = Vec::new(alloc);
    for _ in 0..passes.len() {
        let Some(pass) = passes.pop() else {
            break;
        };
        drop(all.push(Looking { board, pass }));
    }
    all
}

impl Raising<'_> {
    /// Returns the node whose word it raises.
    pub(crate) fn node(&self) -> u16 {
        self.feeder.node()
    }

    /// Raises the board if what was accepted is of the feeder's node, and above what the feeder raised.
    pub(crate) fn raise_if(&mut self, accepted: Option<Accepted>) {
        if let Some(accepted) = accepted {
            if accepted.node() == self.feeder.node() && self.feeder.raised() < accepted.stamp() {
                self.board.raise(&mut self.feeder, &accepted);
            }
        }
    }
}

/// Looks often at the floor of a board, and returns the greatest floor that was seen.
pub(crate) fn look_often(looking: Looking<'_>, looks: u64) -> u64 {
    let Looking { board, pass } = looking;
    let mut pass = pass;
    let mut greatest = 0;
    for _ in 0..looks {
        greatest = greatest.max(board.floor(&mut pass).bits());
    }
    greatest
}
