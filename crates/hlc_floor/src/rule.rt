//! The rule of a board's table, and its kinds of step.
use atomic_table::{Play, Split, TableRule};
use std::collections::LinkedList;

/// The state of a seat of the board. It appears in the rule alone: no value of it is made.
pub struct Place {
    /// It owns the numbers from this one ..
    pub from: u64,
    /// .. and below this one.
    pub to: u64,
    /// The stamp that it raised last.
    pub raised: u64,
    /// For each node the stamp that it saw last.
    pub seen: LinkedList<u64>,
    /// For each node the stamps that its loads found there, the first of them first.
    pub found: LinkedList<LinkedList<u64>>,
}

/// The rule of a board: it is true between any two steps.
pub struct Fresh;

impl TableRule<(), Place, u64> for Fresh {
    ghost use Rattle.hlc_floor.specs.Board.{IsFresh, uncut};

    ghost holds = { λ nodes state. IsFresh nodes state };

    ghost first = { λ nodes. uncut nodes 0 };
}

/// A step of a feeder: a larger stamp is stored in its node's word.
pub struct Raise;

impl Play<(), Place> for Raise {
    ghost use Rattle.hlc_floor.specs.Board.{Raises};

    ghost then = { Raises };
}

/// A step of a pass: one word is loaded.
pub struct Look;

impl Play<(), Place> for Look {
    ghost use Rattle.hlc_floor.specs.Board.{Looks};

    ghost then = { Looks };
}

/// The least number that a seat owns is split off, for a feeder.
pub struct CutFeeder;

impl Split<Place> for CutFeeder {
    ghost use Rattle.hlc_floor.specs.Board.{without_first, feeder_place};

    ghost left = { without_first };

    ghost right = { λ place. feeder_place place.from place.raised };
}

/// A pass is split off, which owns no number.
pub struct CutPass;

impl Split<Place> for CutPass {
    ghost use Rattle.hlc_floor.specs.Board.{pass_place};

    ghost left = { λ place. place };

    ghost right = { λ place. pass_place place.seen place.found };
}
