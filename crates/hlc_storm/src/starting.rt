//! The start of a storm's threads. `None` represents a thread that was not started.
ghost use Rattle.std.specs.Prelude.{◌≡◌, ◌+◌, false, length};
ghost use Rattle.hlc_floor.specs.Views.{FeedersOf, PassesOf};
ghost use Rattle.hlc_floor.proofs.PlaceLemmas.{feeders_prop, passes_prop};

use crate::gates::StormGates;
use crate::joining::{Started, Worker, Writer};
use crate::working::{Feeding, Looking, feed_link, read_keys, vacuum_rows};
use crate::writing::write_link;
use hlc_core::Bytes;
use hlc_floor::{Board, Feeder, FloorPass};
use hlc_link::link;
use hlc_server::{Caller, Shared};
use hlc_storm_report::StormPlan;
use hlc_workers::Gate;
use std::alloc::Global;
use std::sync::Wait;
use std::sync::ledger::Ledger;
use std::thread::{Scope, Threads};

/// The capacity of a link, in parcels.
const CAPACITY: usize = 8;

/// The feeders and the passes of a board.
#[derive(Drop)]
pub(crate) struct Seats<'a> {
    pub(crate) board: &'a Board,
    pub(crate) feeders: Vec<Feeder>,
    pub(crate) passes: Vec<FloorPass>,
    ghost feeders_of: { FeedersOf board.now feeders.items } by { feeders_prop board.now feeders.items },
    ghost passes_of: { PassesOf board.now passes.items } by { passes_prop board.now passes.items },
}

/// What all threads of a storm share.
#[derive(Drop)]
pub(crate) struct Crew<'a, L: Ledger, F, D, V, R> {
    pub(crate) rt: &'a R,
    pub(crate) alloc: Global,
    pub(crate) shared: &'a Shared<L>,
    pub(crate) keys: &'a [Bytes],
    pub(crate) plan: StormPlan,
    pub(crate) gates: &'a StormGates<F, D, V>,
}

impl<
    's,
    L: Ledger + Send + Sync + 's,
    F: Gate + Sync + 's,
    D: Gate + Sync + 's,
    V: Gate + Sync + 's,
    R: Threads + Wait + Sync + 's,
> Crew<'s, L, F, D, V, R> {
    /// Starts all threads of a storm. The vacuum has the last of the callers, the readers come before it, and the
    /// feeders first.
    pub(crate) fn start_all<E>(
        &self,
        scope: &Scope<'s, E>,
        callers: Vec<Caller<L>>,
        seats: Seats<'s>,
    ) -> Started<L>
        ensures feeders { result.out_of_memory ≡ false
            → length result.feeders.items ≡ length seats.entry.feeders.items }
        ensures readers { result.out_of_memory ≡ false
            → length result.readers.items ≡ length seats.entry.passes.items }
    {
        let mut callers = callers;
        let Seats {
            board,
            feeders,
            passes,
        } = seats;
        let vacuum = self.start_vacuum(scope, callers.pop());
        let (readers, reader_out_of_memory) = self.start_readers(
            scope,
            &mut callers,
            board,
            passes,
        );
        let (writers, feeders, node_out_of_memory) = self.start_nodes(
            scope,
            &mut callers,
            board,
            feeders,
        );
        Started {
            writers,
            feeders,
            readers,
            vacuum,
            out_of_memory: reader_out_of_memory || node_out_of_memory,
        }
    }

    /// Starts the worker of the vacuum, if there is a caller for it.
    fn start_vacuum<E>(&self, scope: &Scope<'s, E>, caller: Option<Caller<L>>) -> Worker<L> {
        let caller = caller?;
        let (rt, alloc, shared, gate) = (self.rt, self.alloc, self.shared, &self.gates.vacuum);
        scope
            .spawn(move || vacuum_rows(rt, alloc, shared, caller, gate))
            .ok()
    }

    /// Starts a reader for each pass, the last one first, each with the last of the callers that are left. Returns also
    /// whether there was no memory to put one of them into the list.
    fn start_readers<E>(
        &self,
        scope: &Scope<'s, E>,
        callers: &mut Vec<Caller<L>>,
        board: &'s Board,
        passes: Vec<FloorPass>,
    ) -> (Vec<Worker<L>>, bool)
        requires { PassesOf board.now passes.items }
        ensures { result.1 ≡ false → length result.0.items ≡ length passes.items }
    {
        let mut passes = passes;
        let mut readers = Vec::new(self.alloc);
        let mut out_of_memory = false;
        for _place in 0..passes.len() {
            let Some(pass) = passes.pop() else {
                break;
            };
            let reader = self.start_reader(scope, callers.pop(), board, pass);
            out_of_memory = is_one_lost(&mut readers, reader, out_of_memory);
        }
        (readers, out_of_memory)
    }

    /// Starts a reader, if there is a caller for it.
    fn start_reader<E>(
        &self,
        scope: &Scope<'s, E>,
        caller: Option<Caller<L>>,
        board: &'s Board,
        pass: FloorPass,
    ) -> Worker<L>
        requires { pass.board ≡ board.now }
    {
        let caller = caller?;
        let looking = Looking {
            caller,
            board,
            pass,
        };
        let (rt, alloc, shared, gate) = (self.rt, self.alloc, self.shared, &self.gates.readers);
        let keys = self.keys;
        scope
            .spawn(move || read_keys(rt, alloc, shared, looking, keys, gate))
            .ok()
    }

    /// Starts a writer and a feeder for each node, the last one first, each feeder with the last of the callers that
    /// are left. Returns also whether there was no memory to put one of them into its list.
    fn start_nodes<E>(
        &self,
        scope: &Scope<'s, E>,
        callers: &mut Vec<Caller<L>>,
        board: &'s Board,
        feeders: Vec<Feeder>,
    ) -> (Vec<Writer>, Vec<Worker<L>>, bool)
        requires { FeedersOf board.now feeders.items }
        ensures { result.2 ≡ false → length result.1.items ≡ length feeders.items }
    {
        let mut feeders = feeders;
        let mut writers = Vec::new(self.alloc);
        let mut workers = Vec::new(self.alloc);
        let mut out_of_memory = false;
        for _place in 0..feeders.len() {
            let Some(feeder) = feeders.pop() else {
                break;
            };
            let (writer, worker) = self.start_node(scope, callers.pop(), board, feeder);
            out_of_memory = is_one_lost(&mut writers, writer, out_of_memory);
            out_of_memory = is_one_lost(&mut workers, worker, out_of_memory);
        }
        (writers, workers, out_of_memory)
    }

    /// Starts the writer and the feeder of a node, with a new link between them, if there is memory for that and a
    /// caller.
    fn start_node<E>(
        &self,
        scope: &Scope<'s, E>,
        caller: Option<Caller<L>>,
        board: &'s Board,
        feeder: Feeder,
    ) -> (Writer, Worker<L>)
        requires { feeder.board ≡ board.now }
    {
        let (rt, alloc, shared, gate) = (self.rt, self.alloc, self.shared, &self.gates.feeders);
        let plan = self.plan;
        let (Some(caller), Ok((sender, receiver))) = (caller, link(rt, alloc, CAPACITY)) else {
            return (None, None);
        };
        let node = feeder.node();
        let feeding = Feeding {
            caller,
            link: receiver,
            board,
            feeder,
        };
        let writer = scope
            .spawn(move || write_link(rt, alloc, sender, node, plan))
            .ok();
        let worker = scope
            .spawn(move || feed_link(rt, alloc, shared, feeding, gate).0)
            .ok();
        (writer, worker)
    }
}

/// Puts a thread into its list. Returns whether a thread was lost before, or this one is lost because it ran out of
/// memory.
fn is_one_lost<T: Drop>(threads: &mut Vec<T>, thread: T, lost: bool) -> bool
    ensures { result ≡ false
        → (lost ≡ false) × (length threads.new.items ≡ length threads.old.items + 1) }
{
    threads.push(thread).is_err() || lost
}
