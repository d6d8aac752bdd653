//! Threads that share one store.
ghost use Rattle.std.specs.Prelude.{◌≡◌};

use crate::clients::{Client, lists_of, settled_calls};
use crate::expected::must_be;
use hlc_core::{Bytes, Core, CoreEvent, CoreReply, Stamp};
use hlc_server::{Caller, Receipt, SettleFault, Shared};
use std::alloc::Global;
use std::marker::Brand;
use std::process::Abort;
use std::sync::Wait;
use std::sync::ledger::{Blank, Ledger};
use std::test::*;
use std::thread;
use std::thread::Threads;
use test_support::makers::{at_second, bytes, write};

/// Lists a snapshot and closes it.
fn lists_and_closes<L: Ledger, R: Wait + Threads + Abort + Sync>(
    rt: &R,
    shared: &Shared<L>,
    client: Client<L>,
    id: u64,
) -> Client<L> {
    let client = client.asks(rt, shared, CoreEvent::List(id));
    client.asks(rt, shared, CoreEvent::Close(id))
}

/// Reads the key `k` in a snapshot, and checks that its value is this number.
fn shows<L: Ledger, R: Wait + Threads + Abort + Sync>(
    rt: &R,
    alloc: Global,
    shared: &Shared<L>,
    client: Client<L>,
    id: u64,
    number: u8,
) -> Client<L> {
    let key = letter(rt, alloc, b'k');
    let client = client.asks(rt, shared, CoreEvent::Read { id, key });
    client.got(rt, CoreReply::Answer(Some(letter(rt, alloc, number))));
    client
}

/// Returns a key or a value of one byte.
fn letter<R: Abort>(rt: &R, alloc: Global, byte: u8) -> Bytes {
    bytes(alloc, byte).expect(rt, "memory")
}

/// Returns the event that accepts a node's write of its number to the key `k`.
fn written<R: Abort>(rt: &R, alloc: Global, node: u16, number: u8) -> CoreEvent {
    CoreEvent::Accept(write(alloc, node, number, b'k', number).expect(rt, "memory"))
}

/// Makes one round of the node: it writes, opens a snapshot at the floor, reads its write there, lists, and closes.
fn writes_once<L: Ledger, R: Wait + Threads + Abort + Sync>(
    rt: &R,
    alloc: Global,
    shared: &Shared<L>,
    client: Client<L>,
    number: u8,
) -> Client<L> {
    let client = client.asks(rt, shared, written(rt, alloc, 0, number));
    let client = client.asks(rt, shared, CoreEvent::OpenFloor);
    let id = client.opened();
    let client = shows(rt, alloc, shared, client, id, number);
    lists_and_closes(rt, shared, client, id)
}

/// Makes one round of a reader: it opens at 0.0, lists, closes, asks to accept an item of an unknown node, and vacuums.
fn looks_once<L: Ledger, R: Wait + Threads + Abort + Sync>(
    rt: &R,
    alloc: Global,
    shared: &Shared<L>,
    client: Client<L>,
    number: u8,
) -> Client<L> {
    let client = client.asks(rt, shared, CoreEvent::OpenAt(Stamp::from_bits(0)));
    let id = client.opened();
    let client = lists_and_closes(rt, shared, client, id);
    let client = client.asks(rt, shared, written(rt, alloc, 7, number));
    client.asks(rt, shared, CoreEvent::Vacuum)
}

/// Makes the calls of a thread, ten rounds: the first caller is the one node of the store, the others read.
fn work<L: Ledger, R: Wait + Threads + Abort + Sync>(
    rt: &R,
    alloc: Global,
    shared: &Shared<L>,
    caller: Caller<L>,
) -> Client<L> {
    let is_node = caller.number() == 0;
    let mut client = Client::new(alloc, caller);
    for number in 0..10u8 {
        client = if is_node {
            writes_once(rt, alloc, shared, client, number)
        } else {
            looks_once(rt, alloc, shared, client, number)
        };
    }
    client
}

/// Makes the calls that come after those of the threads: two nodes join, and a vacuum to the floor (closed timestamp)
/// is made, whole and of one key.
fn joins_and_vacuums<L: Ledger, R: Wait + Threads + Abort + Sync>(
    rt: &R,
    alloc: Global,
    shared: &Shared<L>,
    client: Client<L>,
) -> Client<L> {
    let (at, after, limit) = (at_second(10), letter(rt, alloc, b'a'), 1);
    let client = client.asks(rt, shared, CoreEvent::Join);
    let client = client.asks(rt, shared, CoreEvent::JoinAt(at_second(11)));
    let client = client.asks(rt, shared, CoreEvent::VacuumTo(at));
    client.asks(rt, shared, CoreEvent::VacuumPart { at, after, limit })
}

/// Lets each caller make its calls in a thread of its own, and then the last one the others; and checks how many calls
/// each made, and what is found under the lock then.
fn all_work<L: Ledger + Send + Sync, R: Threads + Wait + Abort + Sync>(
    rt: &R,
    alloc: Global,
    shared: &Shared<L>,
    callers: Vec<Caller<L>>,
) -> Vec<Client<L>> {
    let made = thread::map_vec(rt, callers, &|caller| work(rt, alloc, shared, caller));
    let mut clients = made.expect(rt, "memory");
    for client in clients.as_slice() {
        must_be(rt, client.receipts.len(), 50);
    }
    let last = clients.pop().expect(rt, "a caller");
    let last = joins_and_vacuums(rt, alloc, shared, last);
    must_be(rt, (clients.len(), last.receipts.len()), (3, 54));
    clients.push(last).ok().expect(rt, "memory");
    let found = shared.look(rt, |core| (core.horizon(), core.floor()));
    must_be(rt, found, (at_second(10), at_second(10)));
    clients
}

/// Lets four threads make 50 calls each, and four more calls after them: all kinds of calls. The receipts settle, and
/// each read after a thread's own write shows that write. If the last receipt is left out, they don't settle.
fn by_four<L: Ledger + Send + Sync, R: Threads + Wait + Abort + Sync>(
    rt: &R,
    alloc: Global,
    blank: Blank,
    leaves_out: bool,
    expected: Result<u64, SettleFault>,
)
    requires { (blank.name ≡ L.name) × (blank.parts ≡ L.parts) × (blank.parts ≡ 4) }
{
    let (shared, callers) = Shared::<L>::new(alloc, blank, 1, 4, true).expect(rt, "a store");
    let mut lists = lists_of(rt, alloc, all_work(rt, alloc, &shared, callers));
    if leaves_out {
        let (caller, mut receipts) = lists.pop().expect(rt, "a caller");
        drop(receipts.pop());
        lists.push((caller, receipts)).ok().expect(rt, "memory");
    }
    must_be(rt, settled_calls(shared, lists), expected);
}

#[test]
fn four_threads(rt: HostRuntime) {
    let fault = Err(SettleFault::ReceiptMismatch { index: 203 });
    for (leaves_out, expected) in [(false, Ok(204)), (true, fault)] {
        by_four::<Brand, _>(&rt, rt.alloc(), Blank::new(4), leaves_out, expected);
    }
}

/// Returns the receipt of this number.
fn numbered<'a, L: Ledger, R: Abort>(rt: &R, clients: &'a [Client<L>], number: u64) -> &'a Receipt {
    for client in clients {
        for receipt in client.receipts.as_slice() {
            if receipt.number == number {
                return receipt;
            }
        }
    }
    panic!(rt; "no receipt has the number {number}")
}

/// Checks that a core returns the reply of a receipt to its event.
fn replies<R: Abort>(rt: &R, core: &mut Core, receipt: &Receipt) {
    let event = receipt.event.clone().expect(rt, "memory");
    let reply = core.step(event).ok().expect(rt, "memory");
    must_be(rt, &reply, &receipt.reply);
}

/// Checks that a new core of one node returns the replies of 204 receipts to their events, in the order of their
/// numbers.
fn replay<L: Ledger, R: Abort>(rt: &R, alloc: Global, clients: &[Client<L>]) {
    let mut core = Core::new(alloc, 1).expect(rt, "a core");
    for number in 0..204u64 {
        replies(rt, &mut core, numbered(rt, clients, number));
    }
}

/// Makes the same calls on a store without a trail. The 204 receipts have the numbers from 0 on, each once, and a core
/// that one thread steps returns the same replies.
fn by_four_alone<L: Ledger + Send + Sync, R: Threads + Wait + Abort + Sync>(
    rt: &R,
    alloc: Global,
    blank: Blank,
)
    requires { (blank.name ≡ L.name) × (blank.parts ≡ L.parts) × (blank.parts ≡ 4) }
{
    let (shared, callers) = Shared::<L>::new(alloc, blank, 1, 4, false).expect(rt, "a store");
    let clients = all_work(rt, alloc, &shared, callers);
    replay(rt, alloc, clients.as_slice());
}

#[test]
fn four_threads_without_a_trail(rt: HostRuntime) {
    by_four_alone::<Brand, _>(&rt, rt.alloc(), Blank::new(4));
}
