//! Runs a storm in a scope of threads.
ghost use Rattle.std.specs.Prelude.{◌≡◌, ◌+◌, true, IfOk, IfErr, length, is_some};
ghost use Rattle.hlc_storm_report.specs.Found.{MayRefuse, MayReport};

use crate::gates::StormGates;
use crate::joining::join_all;
use crate::starting::{Crew, Seats};
use crate::writing::all_keys;
use hlc_floor::Board;
use hlc_server::{Caller, Guarded, Shared, settle_guarded};
use hlc_storm_report::{Lists, StormFault, StormPlan, StormReport, new_store, report_of};
use hlc_workers::{FreeGate, Gate};
use std::alloc::Global;
use std::marker::Brand;
use std::sync::Wait;
use std::sync::ledger::{Blank, Ledger};
use std::thread;
use std::thread::Threads;

/// Runs a storm whose gates never stop a worker.
pub fn storm<R: Threads + Wait + Sync>(
    rt: &R,
    alloc: Global,
    plan: StormPlan,
) -> Result<StormReport, StormFault>
    ensures { MayReport plan result }
{
    let gates = StormGates {
        feeders: FreeGate,
        readers: FreeGate,
        vacuum: FreeGate,
    };
    storm_gated(rt, alloc, plan, &gates)
}

/// Starts each writer, feeder, reader and the vacuum in a thread of its own, joins them, settles, and then lists at the
/// floor (closed timestamp) and makes a last vacuum.
///
/// Write number j of node i, from 0, writes the value `i.j` to the key `k` followed by j modulo the number of keys, at
/// reading j + 1. After its last write the node reports at the next reading. Its link has room for 8 parcels. Each
/// reader makes 16 rounds over all keys, at the floor of a board that the feeders raise, and one worker makes 16
/// vacuums.
///
/// Refused, in this order: out of memory, which includes a writer that ran out of memory, or a thread could not be
/// started; the first worker that was not done, feeders by node, then readers, then the vacuum; receipts that don't
/// settle; out of memory for the report.
pub fn storm_gated<F: Gate + Sync, D: Gate + Sync, V: Gate + Sync, R: Threads + Wait + Sync>(
    rt: &R,
    alloc: Global,
    plan: StormPlan,
    gates: &StormGates<F, D, V>,
) -> Result<StormReport, StormFault>
    ensures { MayReport plan result }
{
    let callers = plan.nodes + plan.readers + 1;
    storm_in::<Brand, F, D, V, R>(rt, alloc, Blank::new(u64::from(callers)), plan, gates)
}

/// Runs a storm with callers of this ledger.
fn storm_in<
    L: Ledger + Send + Sync,
    F: Gate + Sync,
    D: Gate + Sync,
    V: Gate + Sync,
    R: Threads + Wait + Sync,
>(
    rt: &R,
    alloc: Global,
    blank: Blank,
    plan: StormPlan,
    gates: &StormGates<F, D, V>,
) -> Result<StormReport, StormFault>
    requires ledger { (blank.name ≡ L.name) × (blank.parts ≡ L.parts) }
    requires callers { blank.parts ≡ plan.nodes + plan.readers + 1 }
    ensures { MayReport plan result }
{
    let (store, lists) = work::<L, F, D, V, R>(rt, alloc, blank, plan, gates)?;
    let settled = settle_guarded(store, lists)?;
    report_of(alloc, settled.core, plan)
}

/// Does the work of a storm. Returns what was under the lock of its store, and the receipts by caller, one list for
/// each; or the refusal of the first worker that is not done, or out of memory where the store, a link or a thread was
/// not made.
pub fn work<
    L: Ledger + Send + Sync,
    F: Gate + Sync,
    D: Gate + Sync,
    V: Gate + Sync,
    R: Threads + Wait + Sync,
>(
    rt: &R,
    alloc: Global,
    blank: Blank,
    plan: StormPlan,
    gates: &StormGates<F, D, V>,
) -> Result<(Guarded<L>, Lists<L>), StormFault>
    requires ledger { (blank.name ≡ L.name) × (blank.parts ≡ L.parts) }
    requires callers { blank.parts ≡ plan.nodes + plan.readers + 1 }
    ensures audited { IfOk result (λ outcome. is_some outcome.0.trail ≡ true) }
    ensures lists { IfOk result (λ outcome. length outcome.1.items ≡ plan.nodes + plan.readers + 1) }
    ensures faults { IfErr result MayRefuse }
{
    let (store, callers) = new_store::<L>(alloc, blank, &plan)?;
    let shared = Shared::around(store);
    let lists = work_of(rt, alloc, &shared, callers, plan, gates)?;
    Ok((shared.into_guarded(), lists))
}

/// Does the work of these callers of a store, with a new board. Returns the receipts by caller, one list for each.
#[tactic(auto, using(hlc_floor::proofs::PlaceLemmas::feeders_new, hlc_floor::proofs::PlaceLemmas::passes_new))]
fn work_of<
    L: Ledger + Send + Sync,
    F: Gate + Sync,
    D: Gate + Sync,
    V: Gate + Sync,
    R: Threads + Wait + Sync,
>(
    rt: &R,
    alloc: Global,
    shared: &Shared<L>,
    callers: Vec<Caller<L>>,
    plan: StormPlan,
    gates: &StormGates<F, D, V>,
) -> Result<Lists<L>, StormFault>
    ensures lists { IfOk result (λ lists. length lists.items ≡ plan.nodes + plan.readers + 1) }
    ensures faults { IfErr result MayRefuse }
{
    let keys = all_keys(alloc, &plan)?;
    match Board::new(alloc, plan.nodes, plan.readers as usize) {
        Ok(Ok((board, feeders, passes))) => {
            let crew = Crew {
                rt,
                alloc,
                shared,
                keys: keys.as_slice(),
                plan,
                gates,
            };
            let seats = Seats {
                board: &board,
                feeders,
                passes,
            };
            run_all(&crew, callers, seats)
        }
        _ => Err(StormFault::NoMemory),
    }
}

/// Runs all threads of a storm, and returns the receipts by caller: a list for each feeder, each reader and the vacuum.
/// No clause says what is in the lists, since the contract of a thread's join says nothing about its result; settling
/// checks each receipt.
fn run_all<
    L: Ledger + Send + Sync,
    F: Gate + Sync,
    D: Gate + Sync,
    V: Gate + Sync,
    R: Threads + Wait + Sync,
>(
    crew: &Crew<'_, L, F, D, V, R>,
    callers: Vec<Caller<L>>,
    seats: Seats<'_>,
) -> Result<Lists<L>, StormFault>
    ensures lists { IfOk result
        (λ lists. length lists.items
        ≡ length seats.entry.feeders.items + length seats.entry.passes.items + 1) }
    ensures faults { IfErr result MayRefuse }
{
    thread::scope(
        thread::scope_env(),
        crew.rt,
        |scope| -> Result<Lists<L>, StormFault>
            ensures lists { IfOk result
                (λ lists. length lists.items
                ≡ length seats.entry.feeders.items + length seats.entry.passes.items + 1) }
            ensures faults { IfErr result MayRefuse }
        {
            let started = crew.start_all(scope, callers, seats);
            join_all(crew.rt, crew.alloc, started)
        },
    )
}
