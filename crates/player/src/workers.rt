//! The workers around a shared store, one at a time and in one thread.
ghost use Rattle.std.specs.Prelude.{◌≡◌, IfSome};

use crate::events::item_of;
use crate::host::Host;
use crate::lines::{Lines, next_name, next_number};
use crate::play::{say, say_refused};
use crate::refusing::refuse;
use crate::settling::{lists_of, play_settled};
use hlc_core::Bytes;
use hlc_floor::{Board, Feeder, FloorPass};
use hlc_link::{LinkReceiver, link};
use hlc_server::{Caller, Receipt, Shared};
use hlc_text::words::LineWords;
use hlc_workers::{FreeGate, WorkEnd, feed, serve_reader, serve_vacuum};
use std::alloc::{AllocError, Global};
use std::marker::Brand;
use std::sync::Wait;
use std::sync::ledger::{Blank, Ledger};
use std::thread::Threads;

/// The writes of the one node: each its node, its number, its stamp, its key and its value.
const WRITES: [&[u8]; 3] = [b"0 0 1 61 78", b"0 1 2 62 79", b"0 2 3 61 78"];

/// A caller, and the receipts of its calls so far.
type Work<L> = (Caller<L>, Vec<Receipt>);

/// What workers are passed: the host, and a store.
#[derive(Drop)]
struct Yard<'a, 'b, L: Ledger, R> {
    host: &'a Host<'b, R>,
    shared: &'a Shared<L>,
}

/// Runs the worker of these words in a new store while the request of their number is refused, and settles. `feed`
/// passes a link of three writes to the store; after that, and with no request refused in it, `reader` makes one round
/// over two keys, and `vacuums` one vacuum.
pub(crate) fn answer<R: Wait + Threads + Sync>(host: &Host<'_, R>, words: &mut LineWords<'_>) {
    answer_in::<Brand, R>(host, Blank::new(1), words);
}

/// Runs the worker as `answer` does, with a store of this ledger.
fn answer_in<L: Ledger, R: Wait + Threads + Sync>(
    host: &Host<'_, R>,
    blank: Blank,
    words: &mut LineWords<'_>,
)
    requires { (blank.name ≡ L.name) × (blank.parts ≡ L.parts) × (blank.parts ≡ 1) }
{
    let alloc = host.rt.alloc();
    let Ok((shared, mut callers)) = Shared::<L>::new(alloc, blank, 1, 1, true) else {
        return;
    };
    let yard = Yard {
        host: &*host,
        shared: &shared,
    };
    let (name, number) = (next_name(words), next_number(words));
    if let Some((caller, receipts)) = yard.work(callers.pop(), name, number) {
        let lists = lists_of(alloc, Some(caller), receipts);
        play_settled(host, &mut Lines::of(b""), shared.settle(lists));
    }
}

impl<L: Ledger, R: Wait + Threads + Sync> Yard<'_, '_, L, R> {
    /// Runs the worker of this name.
    fn work(&self, caller: Option<Caller<L>>, name: &str, number: u64) -> Option<Work<L>> {
        if name == "feed" {
            return self.feed_all(caller?, number);
        }
        let (caller, mut receipts) = self.feed_all(caller?, 0)?;
        let (caller, mut later) = match name {
            "reader" => self.read_once(caller, number)?,
            _ => self.vacuum_once(caller, number),
        };
        let _ = receipts.append(&mut later);
        Some((caller, receipts))
    }

    /// Feeds a link of three writes to its end.
    fn feed_all(&self, caller: Caller<L>, number: u64) -> Option<Work<L>> {
        let (rt, shared, gate) = (self.host.threads, self.shared, &FreeGate);
        let alloc = self.host.rt.alloc();
        let (board, feeder, _) = new_board(alloc)?;
        let (feeder, link) = (Some(feeder), self.full_link().ok()?);
        refuse(self.host.rt, number);
        let fed = feed(rt, alloc, shared, caller, link, &board, feeder, gate);
        print_end(self.host.rt, fed.end, &fed.receipts);
        let _ = say(self.host.rt, "left", &fed.left);
        Some((fed.caller, fed.receipts))
    }

    /// Makes one round of a reader over two keys.
    fn read_once(&self, caller: Caller<L>, number: u64) -> Option<Work<L>> {
        let (rt, shared, gate) = (self.host.threads, self.shared, &FreeGate);
        let alloc = self.host.rt.alloc();
        let (board, _, pass) = new_board(alloc)?;
        let keys = [
            Bytes::from_slice(alloc, b"a").ok()?,
            Bytes::from_slice(alloc, b"b").ok()?,
        ];
        refuse(self.host.rt, number);
        let read = serve_reader(rt, alloc, shared, caller, &board, pass, &keys, 1, gate);
        print_end(self.host.rt, read.end, &read.receipts);
        Some((read.caller, read.receipts))
    }

    /// Makes one vacuum.
    fn vacuum_once(&self, caller: Caller<L>, number: u64) -> Work<L> {
        let (rt, alloc) = (self.host.threads, self.host.rt.alloc());
        refuse(self.host.rt, number);
        let served = serve_vacuum(rt, alloc, self.shared, caller, 1, &FreeGate);
        print_end(self.host.rt, served.end, &served.receipts);
        (served.caller, served.receipts)
    }

    /// Returns the receiving end of a link that carries the three writes and its end.
    fn full_link(&self) -> Result<LinkReceiver, AllocError> {
        let (mut sender, receiver) = link(self.host.threads, self.host.rt.alloc(), 8)?;
        for line in WRITES {
            if let Some(item) = item_of(self.host.rt.alloc(), "write", &mut LineWords::of(line)) {
                let _ = sender.put(self.host.threads, item);
            }
        }
        let _ = sender.finish(self.host.threads);
        Ok(receiver)
    }
}

/// Prints whether a request was refused, how a worker ended, and which receipts it returned.
fn print_end(rt: &HostRuntime, end: WorkEnd, receipts: &Vec<Receipt>) {
    say_refused(rt);
    let _ = say(rt, "ended", &end);
    let _ = say(rt, "receipts", receipts);
}

/// Returns a board of one node, its feeder and its pass.
fn new_board(alloc: Global) -> Option<(Board, Feeder, FloorPass)>
    ensures { IfSome result (λ made. (made.1.board ≡ made.0) × (made.2.board ≡ made.0)) }
{
    let (board, mut feeders, mut passes) = Board::new(alloc, 1, 1).ok()?.ok()?;
    Some((board, feeders.remove(0), passes.remove(0)))
}
