//! The end of a storm's threads: all are joined, and how the workers ended is recorded.
ghost use Rattle.std.specs.Prelude.{◌≡◌, ◌≢◌, ◌+◌, All, false, true, length, None, IfOk, IfErr};
ghost use Rattle.hlc_storm_report.specs.Found.{MayRefuse};

use crate::writing::WriteFault;
use hlc_storm_report::{Ends, Lists, StormFault};
use hlc_workers::Served;
use std::alloc::Global;
use std::sync::Wait;
use std::sync::ledger::Ledger;
use std::thread::{JoinHandle, Threads};

/// The thread of a worker.
pub type Worker<L> = Option<JoinHandle<Served<L>>>;

/// The thread of a writer.
pub type Writer = Option<JoinHandle<Result<(), WriteFault>>>;

/// The threads of a storm. `None` represents a thread that was not started. Each list of workers has the one with the
/// last caller first.
#[derive(Drop)]
pub struct Started<L: Ledger> {
    pub writers: Vec<Writer>,
    pub feeders: Vec<Worker<L>>,
    pub readers: Vec<Worker<L>>,
    pub vacuum: Worker<L>,
    /// Whether there was no memory to put a thread into its list.
    pub out_of_memory: bool,
}

/// Joins the writers, and returns whether one was not started, or ran out of memory. The contract says nothing about
/// how a started writer ended, since that of a join says nothing about it.
fn join_writers<R: Threads + Wait>(rt: &R, writers: Vec<Writer>) -> bool
    ensures { result ≡ false → All (λ writer. writer ≢ None) writers.items }
{
    let mut out_of_memory = false;
    for writer in writers {
        out_of_memory = match writer {
            Some(writer) => writer.join(rt) == Err(WriteFault::NoMemory) || out_of_memory,
            None => true,
        };
    }
    out_of_memory
}

/// Joins a worker and records how it ended, or that it was not started.
fn join_worker<L: Ledger, R: Threads + Wait>(rt: &R, worker: Worker<L>, ends: Ends<L>) -> Ends<L>
    ensures list { result.out_of_memory ≡ false
        → length result.lists.items ≡ length ends.lists.items + 1 }
    ensures out_of_memory { result.out_of_memory ≡ false → ends.out_of_memory ≡ false }
{
    match worker {
        Some(worker) => ends.with(worker.join(rt)),
        None => Ends {
            lists: ends.lists,
            first: ends.first,
            out_of_memory: true,
        },
    }
}

/// Joins workers, and records how each ended.
fn join_workers<L: Ledger, R: Threads + Wait>(
    rt: &R,
    workers: Vec<Worker<L>>,
    ends: Ends<L>,
) -> Ends<L>
    ensures lists { result.out_of_memory ≡ false
        → length result.lists.items ≡ length ends.lists.items + length workers.items }
    ensures out_of_memory { result.out_of_memory ≡ false → ends.out_of_memory ≡ false }
{
    let mut ends = ends;
    for worker in workers {
        ends = join_worker(rt, worker, ends);
    }
    ends
}

/// Joins all threads, and returns the receipts by caller. Refused first where it runs out of memory, or a thread was
/// not started.
pub fn join_all<L: Ledger, R: Threads + Wait>(
    rt: &R,
    alloc: Global,
    started: Started<L>,
) -> Result<Lists<L>, StormFault>
    ensures lists { IfOk result
        (λ lists. length lists.items
        ≡ length started.feeders.items + length started.readers.items + 1) }
    ensures memory { IfOk result (λ _. started.out_of_memory ≡ false) }
    ensures writers { IfOk result (λ _. All (λ writer. writer ≢ None) started.writers.items) }
    ensures first { IfErr result
        (λ fault. started.out_of_memory ≡ true → fault ≡ StormFault.NoMemory) }
    ensures faults { IfErr result MayRefuse }
{
    let Started {
        writers,
        feeders,
        readers,
        vacuum,
        out_of_memory,
    } = started;
    let out_of_memory = join_writers(rt, writers) || out_of_memory;
    let ends = join_worker(rt, vacuum, Ends::new(alloc, out_of_memory));
    let ends = join_workers(rt, readers, ends);
    join_workers(rt, feeders, ends).outcome()
}
