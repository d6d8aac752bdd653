//! Calls on what the lock of a shared store protects, with a trail and without.
ghost use Rattle.std.specs.Prelude.{◌≡◌};

use crate::events::event_of;
use crate::host::Host;
use crate::lines::Lines;
use crate::play::{Played, play, say};
use crate::refusing::{end_refusing, refuse};
use crate::settling::{lists_of, play_settled};
use hlc_core::CoreEvent;
use hlc_server::{Caller, Guarded, Receipt, settle_guarded, step_guarded};
use hlc_text::words::LineWords;
use std::alloc::Global;
use std::marker::Brand;
use std::sync::ledger::{Blank, Ledger};
use std::thread::Threads;

/// For how many receipts there is room from the start.
const ROOM: usize = 32;

/// A store and its caller, with no lock around it, the event that is held, and the receipts so far.
#[derive(Drop)]
struct Desk<L: Ledger> {
    guarded: Guarded<L>,
    /// The caller, except while it is in a call.
    caller: Option<Caller<L>>,
    held: Option<CoreEvent>,
    receipts: Vec<Receipt>,
}

/// Plays the calls of a store of one node without its lock, up to a line `end`. Then all calls settle, and the calls
/// up to the next such line go to the settled store.
pub(crate) fn play_desk<R: Threads + Sync>(host: &Host<'_, R>, lines: &mut Lines<'_>, audit: bool) {
    play_in::<Brand, R>(host, lines, Blank::new(1), audit);
}

/// Plays the calls as `play_desk` does, with a store of this ledger.
fn play_in<L: Ledger, R: Threads + Sync>(
    host: &Host<'_, R>,
    lines: &mut Lines<'_>,
    blank: Blank,
    audit: bool,
)
    requires { (blank.name ≡ L.name) × (blank.parts ≡ L.parts) × (blank.parts ≡ 1) }
{
    if let Some(desk) = new_desk::<L>(host.rt.alloc(), blank, audit) {
        play_on(host, lines, desk);
    }
}

/// Returns a store of one node without its lock, and its caller.
fn new_desk<L: Ledger>(alloc: Global, blank: Blank, audit: bool) -> Option<Desk<L>>
    requires { (blank.name ≡ L.name) × (blank.parts ≡ L.parts) × (blank.parts ≡ 1) }
{
    let (guarded, mut callers) = Guarded::<L>::new(alloc, blank, 1, 1, audit).ok()?;
    Some(Desk {
        guarded,
        caller: callers.pop(),
        held: None,
        receipts: Vec::new(alloc),
    })
}

/// Plays the calls of this store, settles them, and plays those of the settled store.
fn play_on<L: Ledger, R: Threads + Sync>(host: &Host<'_, R>, lines: &mut Lines<'_>, desk: Desk<L>) {
    let (rt, mut desk) = (host.rt, desk);
    let _ = desk.receipts.reserve(ROOM);
    play(host, lines, &mut desk);
    let lists = lists_of(rt.alloc(), desk.caller, desk.receipts);
    refuse(rt, 1);
    let settled = settle_guarded(desk.guarded, lists);
    let _ = say(rt, "memory refused", &end_refusing(rt));
    play_settled(host, lines, settled);
}

impl<L: Ledger> Played for Desk<L> {
    fn call(&mut self, rt: &HostRuntime, name: &str, words: &mut LineWords<'_>) -> Option<()> {
        match name {
            "hold" => {
                self.held = Some(event_of(rt.alloc(), words)?);
                Some(())
            }
            "step" => self.step(rt),
            _ => Some(()),
        }
    }
}

impl<L: Ledger> Desk<L> {
    /// Makes the held call, prints its receipt and stores it. A call that is not made is printed and is held again.
    fn step(&mut self, rt: &HostRuntime) -> Option<()> {
        let event = self.held.take()?;
        let (caller, returned) = step_guarded(&mut self.guarded, self.caller.take()?, event);
        self.caller = Some(caller);
        match returned {
            Ok(receipt) => {
                let _ = say(rt, "receipt", &receipt);
                self.receipts.push(receipt).ok()
            }
            Err((fault, event)) => {
                let _ = say(rt, "returned", &(fault, &event));
                self.held = Some(event);
                None
            }
        }
    }
}
