//! What the lock of a shared store protects, by the number of trails.
ghost use Rattle.std.specs.{Prelude.◌≡◌, Prelude.◌==◌, Option.is_some};
ghost use Rattle.hlc_server.specs.Calls.{IsResultFor, IsUnderLock};

use crate::caller::Caller;
use crate::entry::CallResult;
use crate::guarded::Guarded;
use hlc_core::CoreEvent;
use std::sync::ledger::Ledger;
use std::thread::Threads;

/// What a lock protects, with this many trails, 0 or 1. Code that takes the lock knows no more about that than its type
/// says.
#[derive(Drop)]
pub(crate) struct Locked<L: Ledger, const TRAILS: usize> {
    pub(crate) guarded: Guarded<L>,
    ghost kept: { is_some guarded.trail ≡ (TRAILS == 1) },
}

impl<L: Ledger, const TRAILS: usize> Locked<L, TRAILS> {
    /// Makes the call that an event asks for.
    #[inline(always)]
    pub(crate) fn call(&mut self, caller: &mut Caller<L>, event: CoreEvent) -> CallResult
        ensures locked { IsUnderLock (TRAILS == 1) event result }
        ensures returned { IsResultFor caller.old event (caller.new, result) }
    {
        self.guarded.call(caller, event)
    }

    /// Makes a call as `call` does, but several threads plan a vacuum.
    pub(crate) fn call_by_threads(
        &mut self,
        rt: &(impl Threads + Sync),
        caller: &mut Caller<L>,
        event: CoreEvent,
    ) -> CallResult
        ensures locked { IsUnderLock (TRAILS == 1) event result }
        ensures returned { IsResultFor caller.old event (caller.new, result) }
    {
        self.guarded.call_by_threads(rt, caller, event)
    }
}
