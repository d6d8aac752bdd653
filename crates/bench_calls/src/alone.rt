//! One store in one thread: writes and reads, which is what the calls of the C library cost inside, and deliveries to a
//! store of many nodes, each followed by a question for the floor (closed timestamp).
use crate::{item, nanos, report, write};
use hlc_core::{Body, Core};
use std::alloc::Global;
use std::io;
use std::time::Instant;

/// How many writes are accepted, and how many reads are made.
const CALLS: u32 = 100_000;

/// How many keys there are.
const KEYS: u32 = 1_000;

/// How many deliveries are made.
const DELIVERIES: u32 = 2_000_000;

/// Returns the key of this number.
fn key(number: u32) -> [u8; 8] {
    u64::from(number % KEYS).to_be_bytes()
}

/// Accepts the writes.
fn feed(alloc: Global, core: &mut Core) {
    for number in 0..CALLS {
        if let Ok(item) = write(alloc, number, &key(number), b"value000") {
            drop(core.accept(item));
        }
    }
}

/// Reads one key after another. Returns whether the last one had a value.
fn read_all(core: &Core, id: u64) -> bool {
    let mut found = false;
    for number in 0..CALLS {
        found = matches!(core.read(id, &key(number * 7)), Ok(Some(_)));
    }
    found
}

/// Opens a snapshot at the floor. Returns its id, or 0 where memory runs out.
fn open_floor(core: &mut Core) -> u64 {
    match core.open_floor() {
        Ok((id, _)) => id,
        Err(_) => 0,
    }
}

/// Writes, and then reads in a snapshot at the floor, timed.
pub(crate) fn time_calls(rt: &HostRuntime, start: Instant, core: &mut Core) -> io::Result<()> {
    let begin = nanos(rt, start);
    feed(rt.alloc(), core);
    let fed = nanos(rt, start);
    let id = open_floor(core);
    let opened = nanos(rt, start);
    let found = read_all(core, id);
    let end = nanos(rt, start);
    let timed = [
        ("calls ", u64::from(CALLS)),
        (" accept nanos ", fed.saturating_sub(begin)),
        (" read nanos ", end.saturating_sub(opened)),
    ];
    report(
        rt,
        &timed,
        if found { " found true" } else { " found false" },
    )
}

/// Assigns numbers to this many nodes, of which the first ones retire.
fn join_all(core: &mut Core, nodes: u16, has_retired: u16) {
    for _ in 64..nodes {
        drop(core.join());
    }
    for node in 0..has_retired {
        drop(core.accept(item(node, 0, Body::Retire)));
    }
}

/// Makes rounds of reports of these nodes, each with a question for the floor. Returns the greatest floor.
fn deliver(core: &mut Core, first: u16, nodes: u16, rounds: u32) -> u64 {
    let mut greatest = 0;
    for number in 0..rounds {
        for node in first..nodes {
            drop(core.accept(item(node, number, Body::Report)));
            greatest = greatest.max(core.floor().bits());
        }
    }
    greatest
}

/// Makes reports of all nodes that have not retired, in turn, timed.
pub(crate) fn time_deliveries(
    rt: &HostRuntime,
    start: Instant,
    core: &mut Core,
    nodes: u16,
    has_retired: u16,
) -> io::Result<()> {
    join_all(core, nodes, has_retired);
    let left = u32::from(nodes.saturating_sub(has_retired)).max(1);
    let rounds = DELIVERIES / left;
    let begin = nanos(rt, start);
    let floor = deliver(core, has_retired, nodes, rounds);
    let end = nanos(rt, start);
    let timed = [
        ("nodes ", u64::from(nodes)),
        (" gone ", u64::from(has_retired)),
        (" items ", u64::from(rounds) * u64::from(left)),
        (" nanos ", end.saturating_sub(begin)),
        (" floor ", floor / 65_536),
    ];
    report(rt, &timed, ".0")
}
