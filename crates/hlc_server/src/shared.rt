//! A store that threads share.
ghost use Rattle.std.specs.Prelude.{◌≡◌, ℕ, ◌<◌, ⊤, IfOk, MatchResult, map};
ghost use Rattle.std.specs.{List.range_with_len, Option.is_some, Fn.FnOnceReturnsAt};
ghost use Rattle.hlc_core.specs.{StoreView.StoreView, Calls.new_refusal, Calls.IsRefusal};
ghost use Rattle.hlc_events.specs.declared.event.CoreEvent.{CoreEvent as AnEvent};
ghost use Rattle.hlc_server.specs.{Seats.fresh_seat, Calls.IsShared, Trails.HasHistory};

use crate::caller::{Called, Caller};
use crate::entry::CallResult;
use crate::guarded::Guarded;
use crate::lock::StoreLock;
use hlc_core::{Bytes, Core, CoreEvent, CoreFault, Item, Stamp};
use std::alloc::Global;
use std::marker::Model;
use std::sync::Wait;
use std::sync::ledger::{Blank, Ledger};
use std::thread::Threads;

/// A store that threads share, protected by one lock. Each call takes the lock once.
///
/// A call returns its caller, with the receipt of the call; or the reason why it was not made, and the event. `call`
/// and `call_by_threads` leave the caller with its owner, and make the call of any event. `look` only reads. `settle`
/// can check afterwards what the callers got.
#[derive(Drop)]
pub struct Shared<L: Ledger> {
    pub(crate) lock: StoreLock<L>,
}

impl<L: Ledger> Model for Shared<L> {
    ghost use Rattle.hlc_server.specs.SharedView.{SharedView, keeps_trail};

    ghost Value = { SharedView };

    ghost view = { λ shared. record { audited = keeps_trail shared.lock } };
}

impl<L: Ledger> Shared<L> {
    /// Returns a new core of this many nodes under a lock, and its callers, who are numbered from 0. With `audit`, a
    /// trail is kept: each call costs one more copy of its event and its reply.
    ///
    /// Refused, in this order: not 1 to 64 nodes; out of memory.
    pub fn new(
        alloc: Global,
        blank: Blank,
        nodes: u16,
        callers: u16,
        audit: bool,
    ) -> Result<(Shared<L>, Vec<Caller<L>>), CoreFault>
        requires ledger { (blank.name ≡ L.name) × (blank.parts ≡ L.parts) }
        requires callers { (0 < callers) × (blank.parts ≡ callers) }
        ensures made { MatchResult result (λ made. new_refusal nodes ≡ None)
            (λ fault. IsRefusal (new_refusal nodes) ⊤ fault) }
        ensures callers { IfOk result
            (λ made. made.1.items ≡ map fresh_seat (range_with_len 0 callers)) }
        ensures audited { IfOk result (λ made. made.0.audited ≡ audit) }
    {
        let (guarded, callers) = Guarded::new(alloc, blank, nodes, callers, audit)?;
        Ok((Shared::around(guarded), callers))
    }

    /// Puts a lock around what was made for one thread (`Guarded::new`), whose callers now share it.
    pub fn around(guarded: Guarded<L>) -> Shared<L>
        ensures { result.audited ≡ is_some guarded.trail }
    {
        Shared {
            lock: StoreLock::new(guarded),
        }
    }

    /// Removes the lock, once all threads have ended, and returns what it protected, for `settle_guarded`.
    ///
    /// Contracts know of that what is true of every store whenever nobody is in a call (`Guarded::calls`), and whether
    /// there is a trail.
    pub fn into_guarded(self) -> Guarded<L>
        ensures { is_some result.trail ≡ self.audited }
    {
        let Shared { lock } = self;
        lock.into_inner()
    }

    /// Makes the call that an event asks for, and leaves the caller with its owner. This thread alone plans a vacuum.
    /// The reply is one that a store gives after as many calls as the receipt's number.
    pub fn call<R: Wait>(&self, rt: &R, caller: &mut Caller<L>, event: CoreEvent) -> CallResult
        ensures { IsShared self.now.audited caller.old event (caller.new, result) }
    {
        match &self.lock {
            StoreLock::Audited(lock) => lock.lock(rt).call(caller, event),
            StoreLock::Plain(lock) => lock.lock(rt).call(caller, event),
        }
    }

    /// Makes a call as `call` does, but several threads plan a vacuum. The store is locked for the whole call.
    pub fn call_by_threads<R: Wait + Threads + Sync>(
        &self,
        rt: &R,
        caller: &mut Caller<L>,
        event: CoreEvent,
    ) -> CallResult
        ensures { IsShared self.now.audited caller.old event (caller.new, result) }
    {
        match &self.lock {
            StoreLock::Audited(lock) => lock.lock(rt).call_by_threads(rt, caller, event),
            StoreLock::Plain(lock) => lock.lock(rt).call_by_threads(rt, caller, event),
        }
    }

    /// Lends the core for reading, with the lock taken for as long: its checkpoint, ranges, versions, sizes, links and
    /// so on. It is no call: nothing is counted, and no receipt returned. The core represents a legal history, as
    /// whenever nobody is in a call.
    pub fn look<R: Wait, T, F: FnOnce(&Core) -> T>(&self, rt: &R, reader: F) -> T
        requires { F.IsAlwaysCallable reader }
        ensures { (core : StoreView) × (calls : ℕ) × HasHistory core calls
            × FnOnceReturnsAt F.FnOnce reader core result }
    {
        match &self.lock {
            StoreLock::Audited(lock) => reader(lock.lock(rt).guarded.core()),
            StoreLock::Plain(lock) => reader(lock.lock(rt).guarded.core()),
        }
    }

    /// Makes the call that an event asks for, and returns its caller.
    fn step<R: Wait>(&self, rt: &R, caller: Caller<L>, event: CoreEvent) -> Called<L>
        ensures { IsShared self.now.audited caller event result }
    {
        let mut caller = caller;
        let returned = self.call(rt, &mut caller, event);
        (caller, returned)
    }

    /// Accepts the next item of a link.
    pub fn accept<R: Wait>(&self, rt: &R, caller: Caller<L>, item: Item) -> Called<L>
        ensures { IsShared self.now.audited caller (AnEvent.Accept item) result }
    {
        self.step(rt, caller, CoreEvent::Accept(item))
    }

    /// Lets a node join. The reply has its number and the stamp at which its clock starts: `NodeCore::new(node, start)`
    /// makes the node's side from them.
    pub fn join<R: Wait>(&self, rt: &R, caller: Caller<L>) -> Called<L>
        ensures { IsShared self.now.audited caller AnEvent.Join result }
    {
        self.step(rt, caller, CoreEvent::Join)
    }

    /// Opens a snapshot at a stamp.
    pub fn open<R: Wait>(&self, rt: &R, caller: Caller<L>, stamp: Stamp) -> Called<L>
        ensures { IsShared self.now.audited caller (AnEvent.OpenAt stamp) result }
    {
        self.step(rt, caller, CoreEvent::OpenAt(stamp))
    }

    /// Opens a snapshot at the floor (closed timestamp).
    pub fn open_floor<R: Wait>(&self, rt: &R, caller: Caller<L>) -> Called<L>
        ensures { IsShared self.now.audited caller AnEvent.OpenFloor result }
    {
        self.step(rt, caller, CoreEvent::OpenFloor)
    }

    /// Reads a key in an open snapshot.
    pub fn read<R: Wait>(&self, rt: &R, caller: Caller<L>, id: u64, key: Bytes) -> Called<L>
        ensures { IsShared self.now.audited caller (AnEvent.Read id key) result }
    {
        self.step(rt, caller, CoreEvent::Read { id, key })
    }

    /// Lists an open snapshot.
    pub fn list<R: Wait>(&self, rt: &R, caller: Caller<L>, id: u64) -> Called<L>
        ensures { IsShared self.now.audited caller (AnEvent.List id) result }
    {
        self.step(rt, caller, CoreEvent::List(id))
    }

    /// Closes an open snapshot.
    pub fn close<R: Wait>(&self, rt: &R, caller: Caller<L>, id: u64) -> Called<L>
        ensures { IsShared self.now.audited caller (AnEvent.Close id) result }
    {
        self.step(rt, caller, CoreEvent::Close(id))
    }

    /// Drops the rows that no reader needs, with a plan by several threads. The store is locked for the whole call.
    pub fn vacuum<R: Wait + Threads + Sync>(&self, rt: &R, caller: Caller<L>) -> Called<L>
        ensures { IsShared self.now.audited caller AnEvent.Vacuum result }
    {
        let mut caller = caller;
        let returned = self.call_by_threads(rt, &mut caller, CoreEvent::Vacuum);
        (caller, returned)
    }
}
