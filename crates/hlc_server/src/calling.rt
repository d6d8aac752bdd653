//! Calls on what the lock protects, for one thread.
ghost use Rattle.std.specs.Prelude.{◌≡◌, ◌<◌, ◌≤◌, ◌+◌, ◌-◌, ◌^◌};
ghost use Rattle.hlc_events.specs.declared.event.CoreEvent.{CoreEvent as AnEvent};
ghost use Rattle.hlc_server.specs.{Calls.IsResultFor, Calls.IsLockedCall, Trails.HasHistory};

use crate::caller::{Called, Caller};
use crate::entry::{CallResult, NotDone, Receipt};
use crate::guarded::Guarded;
use crate::writing::{make_call, plan_call};
use hlc_core::{CoreEvent, CoreReply};
use std::sync::ledger::{Book, Ledger};
use std::thread::Threads;

/// Makes the call that an event asks for, and returns its caller with the receipt.
///
/// The call is not made where no number is left, or where it runs out of memory: all memory that it needs is allocated
/// before anything changes. Without a trail, only an event that may run out of memory does so. Any other refusal is
/// the reply of a call that was made.
#[inline(always)]
pub fn step_guarded<L: Ledger>(
    guarded: &mut Guarded<L>,
    caller: Caller<L>,
    event: CoreEvent,
) -> Called<L>
    ensures called { IsLockedCall guarded.old guarded.new event result.1 }
    ensures returned { IsResultFor caller event result }
{
    let mut caller = caller;
    let returned = guarded.call(&mut caller, event);
    (caller, returned)
}

/// Makes the call of a vacuum as `step_guarded` does, but several threads plan it.
pub fn vacuum_guarded<L: Ledger>(
    rt: &(impl Threads + Sync),
    guarded: &mut Guarded<L>,
    caller: Caller<L>,
) -> Called<L>
    ensures called { IsLockedCall guarded.old guarded.new AnEvent.Vacuum result.1 }
    ensures returned { IsResultFor caller AnEvent.Vacuum result }
{
    let mut caller = caller;
    let returned = guarded.call_by_threads(rt, &mut caller, CoreEvent::Vacuum);
    (caller, returned)
}

impl<L: Ledger> Guarded<L> {
    /// Makes the call that an event asks for, as `step_guarded` does.
    #[inline(always)]
    pub(crate) fn call(&mut self, caller: &mut Caller<L>, event: CoreEvent) -> CallResult
        ensures history { HasHistory self.old.core self.old.calls }
        ensures called { IsLockedCall self.old self.new event result }
        ensures returned { IsResultFor caller.old event (caller.new, result) }
    {
        if self.calls == u64::MAX {
            return Err((NotDone::NumbersSpent, event));
        }
        match make_call(&mut self.core, &mut self.trail, caller.number, &event) {
            Ok(reply) => Ok(count_call(&mut self.calls, &mut self.book, caller, event, reply)),
            Err(_) => Err((NotDone::NoMemory, event)),
        }
    }

    /// Makes a call as `call` does, but several threads plan a vacuum.
    pub(crate) fn call_by_threads(
        &mut self,
        rt: &(impl Threads + Sync),
        caller: &mut Caller<L>,
        event: CoreEvent,
    ) -> CallResult
        ensures history { HasHistory self.old.core self.old.calls }
        ensures called { IsLockedCall self.old self.new event result }
        ensures returned { IsResultFor caller.old event (caller.new, result) }
    {
        if self.calls == u64::MAX {
            return Err((NotDone::NumbersSpent, event));
        }
        match plan_call(rt, &mut self.core, &mut self.trail, caller.number, &event) {
            Ok(reply) => Ok(count_call(&mut self.calls, &mut self.book, caller, event, reply)),
            Err(_) => Err((NotDone::NoMemory, event)),
        }
    }
}

/// Counts a call that a caller made, and returns the receipt for it.
#[inline(always)]
fn count_call<L: Ledger>(
    calls: &mut u64,
    book: &mut Book<L>,
    caller: &mut Caller<L>,
    event: CoreEvent,
    reply: CoreReply,
) -> Receipt
    requires { calls.old < 2 ^ 64 - 1 }
    ensures receipt { result ≡ record {
      caller = caller.old.number;
      number = calls.old;
      event = event;
      reply = reply;
    } }
    ensures calls { calls.new ≡ calls.old + 1 }
    ensures total { book.new.total ≡ book.old.total + 1 }
    ensures same { caller.new.number ≡ caller.old.number }
    ensures share { caller.new.share ≡ caller.old.share + 1 }
    ensures own { caller.old.share ≤ book.old.total }
{
    book.audit(&mut caller.share);
    book.add(&mut caller.share, 1);
    let number = *calls;
    *calls += 1;
    Receipt {
        caller: caller.number,
        number,
        event,
        reply,
    }
}
