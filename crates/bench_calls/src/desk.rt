//! Threads that run concurrently: reads of a shared store, or looks at a floor, on a board, through the shared store,
//! and in a core with nothing but a lock, while one writer passes reports of all nodes in turn to the store.
ghost use Rattle.std.specs.Prelude.{◌≡◌, ◌+◌, ◌≤◌};

use crate::posts::{Looking, Raising, look_often, looking_all, raising_all};
use crate::seat::{CALLS, Seat};
use crate::{NODES, item, nanos};
use hlc_core::{Body, Core, CoreEvent};
use hlc_floor::Board;
use hlc_server::{Caller, Receipt, Shared};
use std::alloc::Global;
use std::rt::Clock;
use std::sync::atomic::{AtomicU64, Ordering};
use std::sync::ledger::{Blank, Ledger};
use std::sync::{Mutex, Wait};
use std::thread;
use std::thread::Threads;
use std::time::Instant;

/// How many looks each reader makes.
pub(crate) const LOOKS: u64 = 300_000;

/// The maximum number of rounds over all nodes that the writer makes.
const ROUNDS: u32 = 1_000_000_000;

/// What the readers do.
#[derive(Clone, Copy)]
pub(crate) enum Work {
    /// Reads of the shared store, without a writer.
    Read,
    /// Looks at the floor of a board.
    Board,
    /// Looks at the floor of the shared store.
    Shared,
    /// Looks at the floor of the core that a lock protects: no receipts, no count of calls, only the lock.
    Lock,
}

/// What all threads share.
#[derive(Drop)]
struct Desk<'a, L: Ledger> {
    shared: &'a Shared<L>,
    lock: &'a Mutex<Core>,
    callers: Mutex<Vec<Caller<L>>>,
    raising: Mutex<Vec<Raising<'a>>>,
    looking: Mutex<Vec<Looking<'a>>>,
    work: Work,
    start: Instant,
    readers: u16,
    /// How many readers are at work.
    left: AtomicU64,
}

/// What a thread did: the nanosecond at which a reader was done, the number of items that the writer passed to the
/// store or the greatest floor that a reader saw, and the receipts.
#[derive(Drop)]
struct Done {
    at: u64,
    count: u64,
    receipts: Vec<Receipt>,
}

/// Passes a report of each node to the store, and raises the board with it after the lock is free.
fn submit_round<L: Ledger, R: Wait>(
    rt: &R,
    shared: &Shared<L>,
    seat: &mut Seat<L>,
    raising: &mut [Raising<'_>],
    number: u32,
) {
    for one in raising {
        let report = CoreEvent::Accept(item(one.node(), number, Body::Report));
        seat.call(rt, shared, report, false);
        one.raise_if(seat.accepted);
    }
}

/// Lets the core that the lock protects accept a report of each node.
fn accept_round<R: Wait>(rt: &R, lock: &Mutex<Core>, number: u32) {
    for node in 0..NODES {
        drop(lock.lock(rt).accept(item(node, number, Body::Report)));
    }
}

/// Makes rounds until all readers are done. Returns how many items were passed to the store.
fn write_until<L: Ledger, R: Wait>(
    rt: &R,
    desk: &Desk<'_, L>,
    seat: &mut Seat<L>,
    raising: &mut [Raising<'_>],
) -> u64 {
    for number in 0..ROUNDS {
        if desk.left.load(Ordering::SeqCst) == 0 {
            return u64::from(number) * u64::from(NODES);
        }
        match desk.work {
            Work::Lock => accept_round(rt, desk.lock, number),
            _ => submit_round(rt, desk.shared, seat, raising, number),
        }
    }
    0
}

/// Looks often at the floor of a core that a lock protects, and returns the greatest floor that was seen.
fn lock_often<R: Wait>(rt: &R, lock: &Mutex<Core>) -> u64 {
    let mut greatest = 0;
    for _ in 0..LOOKS {
        greatest = greatest.max(lock.lock(rt).floor().bits());
    }
    greatest
}

/// Looks often at the floor of a board, where a pass is left.
fn look<L: Ledger, R: Wait>(rt: &R, desk: &Desk<'_, L>) -> u64 {
    match desk.looking.lock(rt).pop() {
        Some(looking) => look_often(looking, LOOKS),
        None => 0,
    }
}

/// Does what a reader does.
fn read<L: Ledger, R: Wait>(rt: &R, alloc: Global, desk: &Desk<'_, L>, seat: &mut Seat<L>) -> u64 {
    match desk.work {
        Work::Board => look(rt, desk),
        Work::Shared => seat.ask_often(rt, desk.shared, LOOKS),
        Work::Lock => lock_often(rt, desk.lock),
        Work::Read => {
            seat.read_all(
                rt,
                alloc,
                desk.shared,
                CALLS / u64::from(desk.readers).max(1),
            );
            0
        }
    }
}

/// Returns a seat with a caller, if one is left.
fn seat_of<L: Ledger, R: Wait>(rt: &R, alloc: Global, desk: &Desk<'_, L>) -> Seat<L> {
    Seat {
        caller: desk.callers.lock(rt).pop(),
        accepted: None,
        floor: 0,
        receipts: Vec::new(alloc),
    }
}

/// Does the work of the thread of this number: the one after the readers is the writer.
fn done_by<L: Ledger, R: Wait + Clock>(
    rt: &R,
    alloc: Global,
    desk: &Desk<'_, L>,
    thread: usize,
) -> Done {
    let mut seat = seat_of(rt, alloc, desk);
    let (mut at, mut count) = (0, 0);
    if thread < usize::from(desk.readers) {
        count = read(rt, alloc, desk, &mut seat);
        at = nanos(rt, desk.start);
        desk.left.fetch_sub(1, Ordering::SeqCst);
    } else {
        count = write_until(rt, desk, &mut seat, &mut desk.raising.lock(rt));
    }
    let Seat { receipts, .. } = seat;
    Done {
        at,
        count,
        receipts,
    }
}

/// Writes the keys that are read, and opens a snapshot.
fn fill<L: Ledger, R: Wait>(rt: &R, alloc: Global, desk: &Desk<'_, L>) {
    let mut seat = seat_of(rt, alloc, desk);
    seat.fill(rt, alloc, desk.shared);
    if let Some(caller) = seat.caller.take() {
        drop(desk.callers.lock(rt).push(caller));
    }
}

/// Returns the nanosecond at which the last reader was done, and the count of the last thread.
fn sum_of(all: &[Done]) -> (u64, u64) {
    let (mut at, mut count) = (0, 0);
    for one in all {
        at = at.max(one.at);
        count = one.count;
    }
    (at, count)
}

/// Runs the threads. Returns the nanoseconds that the readers took, and how many items the writer passed to the store.
fn run<L: Ledger + Send + Sync, R: Threads + Wait + Sync + Clock>(
    rt: &R,
    alloc: Global,
    desk: &Desk<'_, L>,
) -> (u64, u64) {
    let mut threads = usize::from(desk.readers);
    match desk.work {
        Work::Read => fill(rt, alloc, desk),
        _ => threads += 1,
    }
    let begin = nanos(rt, desk.start);
    match thread::map_indices(
        rt,
        alloc,
        threads,
        &|thread| done_by(rt, alloc, desk, thread),
    ) {
        Ok(all) => {
            let (at, count) = sum_of(all.as_slice());
            (at.saturating_sub(begin), count)
        }
        Err(_) => (0, 0),
    }
}

/// Runs as `run` does, but with a board.
#[tactic(auto, using(hlc_floor::proofs::PlaceLemmas::feeders_new, hlc_floor::proofs::PlaceLemmas::passes_new))]
fn run_on_board<L: Ledger + Send + Sync, R: Threads + Wait + Sync + Clock>(
    rt: &R,
    alloc: Global,
    start: Instant,
    shared: &Shared<L>,
    callers: Vec<Caller<L>>,
    lock: &Mutex<Core>,
    work: Work,
    readers: u16,
) -> (u64, u64)
    requires { readers ≤ 64 }
{
    let Ok(Ok((board, feeders, passes))) = Board::new(alloc, NODES, usize::from(readers)) else {
        return (0, 0);
    };
    let looking = looking_all(alloc, &board, passes);
    let raising = raising_all(alloc, &board, feeders);
    let desk = Desk {
        shared,
        lock,
        callers: Mutex::new(callers),
        raising: Mutex::new(raising),
        looking: Mutex::new(looking),
        work,
        start,
        readers,
        left: AtomicU64::new(u64::from(readers)),
    };
    run(rt, alloc, &desk)
}

/// Returns the nanoseconds that this many readers take, and how many items a writer passed to the store meanwhile;
/// zeros where memory runs out.
pub(crate) fn time_in_store<L: Ledger + Send + Sync, R: Threads + Wait + Sync + Clock>(
    rt: &R,
    alloc: Global,
    start: Instant,
    blank: Blank,
    lock: &Mutex<Core>,
    work: Work,
    readers: u16,
    trail: bool,
) -> (u64, u64)
    requires blank { (blank.name ≡ L.name) × (blank.parts ≡ L.parts) }
    requires parts { (blank.parts ≡ readers + 1) × (readers ≤ 64) }
{
    let nodes = match work {
        Work::Read => 1,
        _ => NODES,
    };
    match Shared::<L>::new(alloc, blank, nodes, readers + 1, trail) {
        Ok((shared, callers)) => {
            run_on_board(rt, alloc, start, &shared, callers, lock, work, readers)
        }
        Err(_) => (0, 0),
    }
}
