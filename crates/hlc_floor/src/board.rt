//! A board, with one word for each node. After it is made, no call on it waits or needs memory.
ghost use Rattle.std.specs.Prelude.{◌≡◌, ℕ, ◌<◌, ◌≤◌, [], ◌∷◌, ◌++◌, slice_index, replicate, IfOk, IfErr};
ghost use Rattle.hlc_heads.specs.declared.heads.TheConstants.{MAX_INITIAL_NODES};
ghost use Rattle.hlc_floor.specs.Views.{post, posts, word_of, blind, LooksAt, IsLeast};
ghost use Rattle.hlc_floor.specs.Board.{uncut, found_at};

use crate::rule::{CutFeeder, CutPass, Fresh, Look, Place, Raise};
use atomic_table::{Seat, Table};
use hlc_clock::Stamp;
use hlc_heads::{Accepted, MAX_INITIAL_NODES, NodesOutOfRange};
use hlc_values::NoMemory;
use std::alloc::Global;
use std::marker::Model;

/// The maximum number of words.
const WORDS: usize = MAX_INITIAL_NODES as usize;

/// A board: for each node at the start one word, the stamp of an accepted item of that node, 0.0 at first. A node that
/// has retired no longer holds the floor back: its word is the greatest one. A node that joined has no word. Threads
/// share a board. In contracts it is the identity of the board; `words` is the number of its nodes.
///
/// Its words may lag behind the store: a feeder raises a word after the store accepted the item.
#[derive(Drop)]
pub struct Board {
    table: Table<(), Place, u64, Fresh, Global>,
    nodes: u16,
}

impl Model for Board {
    ghost use Rattle.std.specs.Prelude.{◌≡◌, ◌<◌, ◌≤◌};
    ghost use Rattle.atomic_table.specs.Seated.{TableId, table_id_coded};
    ghost use Rattle.hlc_heads.specs.declared.heads.TheConstants.{MAX_INITIAL_NODES};

    ghost Value = { TableId };

    ghost coded = { table_id_coded };

    ghost view = { λ board. board.table.shared.table_id };

    ghost invariant = { λ board. (board.table.shared.key ≡ board.nodes)
        × (board.table.shared.table_id.words ≡ board.nodes) × (0 < board.nodes)
        × (board.nodes ≤ MAX_INITIAL_NODES) };
}

/// Raises the word of one node; there is one feeder for each node of a board. In contracts it is
/// its board, its node, and the word that it raised last.
#[derive(Drop)]
pub struct Feeder {
    seat: Seat<(), Place>,
    node: u16,
    raised: Stamp,
}

impl Model for Feeder {
    ghost use Rattle.std.specs.Prelude.{◌≡◌, ◌<◌, []};
    ghost use Rattle.hlc_floor.specs.Views.{FeederView, post};
    ghost use Rattle.hlc_floor.specs.Board.{feeder_place};

    ghost Value = { FeederView };

    ghost view = { λ feeder. post feeder.seat.table_id feeder.node feeder.raised };

    ghost invariant = { λ feeder. (feeder.seat.me ≡ (feeder_place feeder.node feeder.raised, []))
        × (feeder.node < feeder.seat.table_id.words) };
}

/// Loads the words of a board. In contracts it is its board, and for each node the stamp that it
/// saw last and the stamps that its loads found, the first of them first.
#[derive(Drop)]
pub struct FloorPass {
    seat: Seat<(), Place>,
}

impl Model for FloorPass {
    ghost use Rattle.std.specs.Prelude.{◌≡◌, [], length};
    ghost use Rattle.hlc_floor.specs.Views.{FloorPassView, sight};
    ghost use Rattle.hlc_floor.specs.Board.{pass_place};

    ghost Value = { FloorPassView };

    ghost view = { λ pass. sight pass.seat.table_id pass.seat.me.0.seen pass.seat.me.0.found };

    ghost invariant = { λ pass.
        (pass.seat.me ≡ (pass_place pass.seat.me.0.seen pass.seat.me.0.found, []))
        × (length pass.seat.me.0.seen ≡ pass.seat.table_id.words)
        × (length pass.seat.me.0.found ≡ pass.seat.table_id.words) };
}

impl Feeder {
    /// Returns the node whose word it raises.
    pub fn node(&self) -> u16
        ensures { result ≡ self.now.node }
    {
        self.node
    }

    /// Returns the word that it raised last, or 0.0 if it raised none.
    pub fn raised(&self) -> Stamp
        ensures { result ≡ self.now.raised }
    {
        self.raised
    }
}

/// Returns the word that the board shows for an accepted item.
fn word_of(accepted: &Accepted) -> Stamp
    ensures word { result ≡ word_of accepted.now }
    ensures above { accepted.now.stamp ≤ result }
{
    let stamp = accepted.stamp();
    if accepted.retires() {
        return Stamp::from_bits(u64::MAX);
    }
    stamp
}

/// The table of a board.
type BoardTable = Table<(), Place, u64, Fresh, Global>;

/// Splits a feeder for each node off the first seat, in order of the nodes.
fn cut_feeders(
    alloc: Global,
    table: &BoardTable,
    first: &mut Seat<(), Place>,
    nodes: u16,
) -> Result<Vec<Feeder>, NoMemory>
    requires table { (table.now.shared.key ≡ nodes) × (table.now.shared.table_id.words ≡ nodes)
        × (0 < nodes) }
    requires seat { (first.old.table_id ≡ table.now.shared.table_id)
        × (first.old.me ≡ (uncut nodes 0, [])) }
    ensures seat { IfOk result (λ _.
        (first.new.table_id ≡ table.now.shared.table_id)
        × (first.new.me ≡ (uncut nodes nodes, []))) }
    ensures feeders { IfOk result (λ made. made.items ≡ posts table.now.shared.table_id nodes) }
{
    let mut feeders = Vec::with_capacity(alloc, nodes as usize)?;
    for node in 0..nodes {
        let seat = table.shared.split_seat::<CutFeeder>(first);
        feeders.push(Feeder {
            seat,
            node,
            raised: Stamp::ZERO,
        })?;
    }
    Ok(feeders)
}

/// Splits this many passes off the first seat; none of them has seen a word yet.
fn cut_passes(
    alloc: Global,
    table: &BoardTable,
    first: &mut Seat<(), Place>,
    nodes: u16,
    passes: usize,
) -> Result<Vec<FloorPass>, NoMemory>
    requires table { (table.now.shared.key ≡ nodes) × (table.now.shared.table_id.words ≡ nodes)
        × (0 < nodes) }
    requires seat { (first.old.table_id ≡ table.now.shared.table_id)
        × (first.old.me ≡ (uncut nodes nodes, [])) }
    ensures { IfOk result
        (λ made. made.items ≡ replicate passes (blind table.now.shared.table_id)) }
{
    let mut all = Vec::with_capacity(alloc, passes)?;
    for _pass in 0..passes {
        let seat = table.shared.split_seat::<CutPass>(first);
        all.push(FloorPass { seat })?;
    }
    Ok(all)
}

impl Board {
    /// Makes a board of this many nodes, whose words are 0.0; a feeder for each node, in order; and
    /// this many passes, at most 64, which have seen no word.
    ///
    /// Refused, in this order: not 1 to 64 nodes; out of memory.
    pub fn new(
        alloc: Global,
        nodes: u16,
        passes: usize,
    ) -> Result<Result<(Board, Vec<Feeder>, Vec<FloorPass>), NodesOutOfRange>, NoMemory>
        requires { passes ≤ 64 }
        ensures board { IfOk result (λ made. IfOk made (λ parts. parts.0.words ≡ nodes)) }
        ensures feeders { IfOk result
            (λ made. IfOk made (λ parts. parts.1.items ≡ posts parts.0 nodes)) }
        ensures passes { IfOk result
            (λ made. IfOk made (λ parts. parts.2.items ≡ replicate passes (blind parts.0))) }
        ensures err { IfOk result
            (λ made. IfErr made (λ _. (1 ≤ nodes) × (nodes ≤ MAX_INITIAL_NODES) → ⊥)) }
        ensures memory { IfErr result (λ _. (1 ≤ nodes) × (nodes ≤ MAX_INITIAL_NODES)) }
    {
        if nodes == 0 || nodes > MAX_INITIAL_NODES {
            return Ok(Err(NodesOutOfRange));
        }
        let words = [0; WORDS];
        let about = u64::from(nodes);
        let (table, mut first) = Table::of_words(alloc, &words[..nodes as usize], &about)?;
        let feeders = cut_feeders(alloc, &table, &mut first, nodes)?;
        let all = cut_passes(alloc, &table, &mut first, nodes, passes)?;
        Ok(Ok((Board { table, nodes }, feeders, all)))
    }

    /// Stores the stamp of an accepted item in the word of the feeder's node, or the greatest word if the item was the
    /// node's last one. The feeder is of this board, the item is of the feeder's node, and its stamp is above the word
    /// raised last. It costs one store.
    pub fn raise(&self, feeder: &mut Feeder, accepted: &Accepted)
        requires board { feeder.old.board ≡ self.now }
        requires node { accepted.now.node ≡ feeder.old.node }
        requires above { feeder.old.raised < accepted.now.stamp }
        ensures { feeder.new ≡ post feeder.old.board feeder.old.node (word_of accepted.now) }
    {
        let word = word_of(accepted);
        self.table
            .shared
            .store::<Raise>(&mut feeder.seat, feeder.node as usize, word.bits());
        feeder.raised = word;
    }

    /// Returns the word of one node, which is below the number of nodes. The pass is of this board. It costs one load.
    /// The result is at or above what the pass saw there before.
    pub fn heard(&self, pass: &mut FloorPass, node: u16) -> Stamp
        requires board { pass.old.board ≡ self.now }
        requires node { node < self.now.words }
        ensures { LooksAt node result pass.old pass.new }
    {
        Stamp::from_bits(
            self.table
                .shared
                .load::<Look>(&mut pass.seat, node as usize),
        )
    }

    /// Loads the word of each node once and returns the least of the stamps seen. The pass is of this board. It costs
    /// one load for each node. The stamp that a pass sees for a node never falls.
    ///
    /// The words are loaded one after another, not at one moment. Each is the stamp of an accepted item, or 0.0, or the
    /// greatest word if the node has retired. So no item of a node at the start that is accepted later has a stamp at
    /// or below the result; an item of a node that joined may.
    pub fn floor(&self, pass: &mut FloorPass) -> Stamp
        requires { pass.old.board ≡ self.now }
        ensures board { pass.new.board ≡ pass.old.board }
        ensures least { IsLeast self.now.words pass.new.seen result }
        ensures finds { (k : ℕ) → k < self.now.words → found_at pass.new.found k
            ≡ found_at pass.old.found k ++ slice_index pass.new.seen k ∷ [] }
        ensures rises { (k : ℕ) → slice_index pass.old.seen k ≤ slice_index pass.new.seen k }
    {
        let nodes = self.nodes;
        let mut least = self.heard(pass, 0).bits();
        for node in 1..nodes {
            least = least.min(self.heard(pass, node).bits());
        }
        Stamp::from_bits(least)
    }
}
