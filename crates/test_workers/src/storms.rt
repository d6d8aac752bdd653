//! Storms whose workers meet, and the reports on workers that their gates stopped.
ghost use Rattle.std.specs.Prelude.{◌≡◌, ◌+◌};

use crate::expected::must_be;
use crate::stopped::{StopsAt, was_set};
use hlc_core::{CoreEvent, CoreFault, CoreReply, Stamp};
use hlc_server::{Caller, NotDone, Receipt, Shared};
use hlc_storm::{
    Lists, Started, StormFault, StormGates, StormPlan, StormReport, WriteFault, join_all,
    storm_gated, work,
};
use hlc_workers::{FreeGate, Gate, Served, WorkEnd};
use std::alloc::Global;
use std::marker::Brand;
use std::process::Abort;
use std::sync::Wait;
use std::sync::atomic::{AtomicBool, Ordering};
use std::sync::ledger::{Blank, Ledger};
use std::test::*;
use std::thread;
use std::thread::{JoinHandle, Scope, Threads};
use test_support::makers::at_second;

/// At one turn it sets a flag; at another it waits until another gate has set its own.
#[derive(Drop)]
struct Meets<'a> {
    sets_at: u64,
    asked: &'a AtomicBool,
    waits_at: u64,
    other: &'a AtomicBool,
}

impl<'a> Gate for Meets<'a> {
    ghost may_answer = { λ gate turn answer. Unit {0} };

    fn pass<R: Wait>(&self, _rt: &R, turn: u64) -> bool {
        if turn == self.sets_at {
            self.asked.store(true, Ordering::SeqCst);
        }
        turn != self.waits_at || was_set(self.other)
    }
}

/// Runs a storm whose reader's first read waits for the second vacuum, and the first vacuum for that read.
fn meeting<R: Threads + Wait + Sync>(rt: &R, alloc: Global) -> Result<StormReport, StormFault> {
    let (reads, vacuums) = (AtomicBool::new(false), AtomicBool::new(false));
    let gates = StormGates {
        feeders: FreeGate,
        readers: Meets {
            sets_at: 1,
            asked: &reads,
            waits_at: 1,
            other: &vacuums,
        },
        vacuum: Meets {
            sets_at: 1,
            asked: &vacuums,
            waits_at: 0,
            other: &reads,
        },
    };
    let plan = StormPlan {
        nodes: 1,
        writes: 1,
        keys: 1,
        readers: 1,
    };
    storm_gated(rt, alloc, plan, &gates)
}

/// Checks what that storm found: its one write, at 1.0, and the report of its node after it.
fn has_met<R: Abort>(rt: &R, report: &StormReport) {
    must_be(rt, report.accepted.as_slice(), [2].as_slice());
    must_be(rt, (report.floor, report.kept), (at_second(2), 1));
    let pairs = report.pairs.as_slice();
    assert!(rt; pairs.len() == 1);
    must_be(rt, pairs[0].key.as_slice(), b"k0".as_slice());
    must_be(rt, pairs[0].value.as_slice(), b"0.0".as_slice());
}

/// If the workers ran one after another, or kept the store locked for a whole round, this would never end.
#[test]
fn a_reader_and_the_vacuum_meet(rt: HostRuntime) {
    let report = meeting(&rt, rt.alloc()).ok().expect(&rt, "a report");
    has_met(&rt, &report);
}

/// Returns whether a call was refused because its opening was above the floor.
fn is_above_floor(receipt: &Receipt) -> bool {
    matches!(
        receipt.reply,
        CoreReply::Refused(CoreFault::AboveFloor { floor: _ })
    )
}

/// Returns whether any call was refused for that reason, and how many calls there were.
fn calls_in<L: Ledger>(lists: &Lists<L>) -> (bool, u64) {
    let mut above = false;
    let mut calls = 0u64;
    for (_, receipts) in lists {
        above = above || receipts.iter().any(|receipt| is_above_floor(receipt));
        calls = calls.saturating_add(receipts.len() as u64);
    }
    (above, calls)
}

/// Returns what `calls_in` returns, of a storm whose gates never stop a worker.
fn calls_of_storm<L: Ledger + Send + Sync, R: Threads + Wait + Abort + Sync>(
    rt: &R,
    alloc: Global,
    blank: Blank,
    plan: StormPlan,
) -> (bool, u64)
    requires ledger { (blank.name ≡ L.name) × (blank.parts ≡ L.parts) }
    requires callers { blank.parts ≡ plan.nodes + plan.readers + 1 }
{
    let gates = StormGates {
        feeders: FreeGate,
        readers: FreeGate,
        vacuum: FreeGate,
    };
    let worked = work::<L, _, _, _, R>(rt, alloc, blank, plan, &gates);
    calls_in(&worked.ok().expect(rt, "receipts").1)
}

/// The board never runs ahead of the store: no reader that opens at the board's floor finds it above the store's.
#[test]
fn the_board_is_never_ahead(rt: HostRuntime) {
    let plan = StormPlan {
        nodes: 3,
        writes: 200,
        keys: 2,
        readers: 4,
    };
    let (above, calls) = calls_of_storm::<Brand, _>(&rt, rt.alloc(), Blank::new(8), plan);
    assert!(rt; !above);
    // 3 x 201 items, 16 vacuums, and for each round an opening or two, 2 reads and a close.
    assert!(rt; (875..=939).contains(&calls));
}

/// Returns the stamp of the last opening at a stamp among these receipts.
fn last_opening<L: Ledger>(lists: &Lists<L>) -> Option<Stamp> {
    let mut last = None;
    for (_, receipts) in lists {
        for receipt in receipts {
            if let CoreEvent::OpenAt(stamp) = &receipt.event {
                last = Some(*stamp);
            }
        }
    }
    last
}

/// Returns the last opening of the reader, whose gate waits until the feeder reports: both writes are raised then.
fn opens_last<L: Ledger + Send + Sync, R: Threads + Wait + Abort + Sync>(
    rt: &R,
    alloc: Global,
    blank: Blank,
) -> Option<Stamp>
    requires { (blank.name ≡ L.name) × (blank.parts ≡ L.parts) × (blank.parts ≡ 3) }
{
    let (fed, never) = (AtomicBool::new(false), AtomicBool::new(false));
    let gates = StormGates {
        feeders: Meets {
            sets_at: 2,
            asked: &fed,
            waits_at: u64::MAX,
            other: &never,
        },
        readers: Meets {
            sets_at: u64::MAX,
            asked: &never,
            waits_at: 0,
            other: &fed,
        },
        vacuum: FreeGate,
    };
    let plan = StormPlan {
        nodes: 1,
        writes: 2,
        keys: 1,
        readers: 1,
    };
    let worked = work::<L, _, _, _, R>(rt, alloc, blank, plan, &gates);
    last_opening(&worked.ok().expect(rt, "receipts").1)
}

/// A reader sees what the feeder raised: its last round opens at the second write of the node or above.
#[test]
fn a_reader_sees_what_was_raised(rt: HostRuntime) {
    let last = opens_last::<Brand, _>(&rt, rt.alloc(), Blank::new(3));
    assert!(rt; last.is_some_and(|stamp| stamp >= at_second(2)));
}

/// Checks why a storm of two nodes and a reader has no report, where gates stop its workers at these turns.
fn is_stopped<R: Threads + Wait + Abort + Sync>(
    rt: &R,
    alloc: Global,
    turns: (u64, u64, u64),
    expected: Option<StormFault>,
) {
    let (feeders, readers, vacuum) = turns;
    let gates = StormGates {
        feeders: StopsAt(feeders),
        readers: StopsAt(readers),
        vacuum: StopsAt(vacuum),
    };
    let plan = StormPlan {
        nodes: 2,
        writes: 20,
        keys: 1,
        readers: 1,
    };
    must_be(rt, storm_gated(rt, alloc, plan, &gates).err(), expected);
}

/// Feeders, readers and the vacuum that their gates stop are reported as `Held`: at their first call, at the last of a
/// feeder and of the vacuum, and at the 48th of a reader, which makes 48 to 64. A writer whose feeder is stopped finds
/// its link closed, and ends. After its last call no worker asks its gate.
#[test]
fn stopped_workers_are_reported(rt: HostRuntime) {
    let never = u64::MAX;
    let stopped = Some(StormFault::Work(WorkEnd::Held));
    for turns in [
        (0, never, never),
        (20, never, never),
        (never, 0, never),
        (never, 47, never),
        (never, never, 0),
        (never, never, 15),
    ] {
        is_stopped(&rt, rt.alloc(), turns, stopped);
    }
    is_stopped(&rt, rt.alloc(), (21, 64, 16), None);
}

/// The thread of a worker.
type Worker<L> = Option<JoinHandle<Served<L>>>;

/// Starts a worker with the last of these callers, which makes no call and ends like this.
fn start<'s, E, L: Ledger + Send + Sync + 's, R: Abort>(
    rt: &R,
    scope: &Scope<'s, E>,
    alloc: Global,
    callers: &mut Vec<Caller<L>>,
    end: WorkEnd,
) -> Worker<L> {
    let caller = callers.pop().expect(rt, "a caller");
    let receipts = Vec::new(alloc);
    let ends = move || Served {
        caller,
        receipts,
        end,
    };
    scope.spawn(ends).ok()
}

/// Starts two, the last one first.
fn start_two<'s, E, L: Ledger + Send + Sync + 's, R: Abort>(
    rt: &R,
    scope: &Scope<'s, E>,
    alloc: Global,
    callers: &mut Vec<Caller<L>>,
    ends: [WorkEnd; 2],
) -> Vec<Worker<L>> {
    let last = start(rt, scope, alloc, callers, ends[1]);
    let first = start(rt, scope, alloc, callers, ends[0]);
    vec![in alloc; last, first].ok().expect(rt, "memory")
}

/// Starts two feeders, two readers and a vacuum that end like this, by caller, and a writer that ends like this.
fn start_all<'s, E, L: Ledger + Send + Sync + 's, R: Abort>(
    rt: &R,
    scope: &Scope<'s, E>,
    alloc: Global,
    callers: &mut Vec<Caller<L>>,
    ends: [WorkEnd; 5],
    wrote: Result<(), WriteFault>,
) -> Started<L> {
    let vacuum = start(rt, scope, alloc, callers, ends[4]);
    let readers = start_two(rt, scope, alloc, callers, [ends[2], ends[3]]);
    let feeders = start_two(rt, scope, alloc, callers, [ends[0], ends[1]]);
    let writer = scope.spawn(move || wrote).ok();
    let writers = vec![in alloc; writer].ok().expect(rt, "memory");
    Started {
        writers,
        feeders,
        readers,
        vacuum,
        out_of_memory: false,
    }
}

/// Starts and joins them.
fn join_ended<L: Ledger + Send + Sync, R: Threads + Wait + Abort + Sync>(
    rt: &R,
    alloc: Global,
    callers: &mut Vec<Caller<L>>,
    ends: [WorkEnd; 5],
    wrote: Result<(), WriteFault>,
) -> Result<(), StormFault> {
    thread::scope(thread::scope_env(), rt, |scope| -> Result<(), StormFault> {
        let started = start_all(rt, scope, alloc, callers, ends, wrote);
        join_all(rt, alloc, started).map(|_| ())
    })
}

/// Starts and joins them as `join_ended` does, with callers of a new store.
fn join_new<L: Ledger + Send + Sync, R: Threads + Wait + Abort + Sync>(
    rt: &R,
    alloc: Global,
    blank: Blank,
    ends: [WorkEnd; 5],
    wrote: Result<(), WriteFault>,
) -> Result<(), StormFault>
    requires ledger { (blank.name ≡ L.name) × (blank.parts ≡ L.parts) }
    requires callers { blank.parts ≡ 5 }
{
    let mut made = Shared::<L>::new(alloc, blank, 2, 5, false).expect(rt, "a store");
    join_ended(rt, alloc, &mut made.1, ends, wrote)
}

/// Checks the result of joining workers and a writer that end like this.
fn is_joined<R: Threads + Wait + Abort + Sync>(
    rt: &R,
    alloc: Global,
    ends: [WorkEnd; 5],
    wrote: Result<(), WriteFault>,
    expected: Result<(), StormFault>,
) {
    must_be(
        rt,
        join_new::<Brand, R>(rt, alloc, Blank::new(5), ends, wrote),
        expected,
    );
}

/// Of several workers that are not done the first is reported: feeders by node, then readers, then the vacuum. A writer
/// that ran out of memory comes before all of them.
#[test]
fn the_first_worker_is_reported(rt: HostRuntime) {
    let done = WorkEnd::Done;
    let stopped = WorkEnd::Held;
    let closed = WorkEnd::Closed;
    let spent = WorkEnd::Spent(NotDone::NoMemory);
    for (ends, first) in [
        ([done, done, done, done, stopped], stopped),
        ([done, done, done, closed, stopped], closed),
        ([done, done, spent, closed, stopped], spent),
        ([done, stopped, spent, closed, closed], stopped),
        ([closed, stopped, spent, done, stopped], closed),
    ] {
        is_joined(&rt, rt.alloc(), ends, Ok(()), Err(StormFault::Work(first)));
    }
    is_joined(&rt, rt.alloc(), [done; 5], Ok(()), Ok(()));
    let wrote = Err(WriteFault::NoMemory);
    is_joined(
        &rt,
        rt.alloc(),
        [stopped; 5],
        wrote,
        Err(StormFault::NoMemory),
    );
}
