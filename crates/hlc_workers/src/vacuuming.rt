//! The worker of the vacuum.
ghost use Rattle.std.specs.Prelude.{◌≡◌, ◌≢◌, ◌<◌, ℕ, List, map, replicate, false, true, length, vec_len, MatchResult};
ghost use Rattle.hlc_events.specs.declared.event.CoreEvent.{CoreEvent as AnEvent};
ghost use Rattle.hlc_server.specs.declared.entry.Receipt.{Receipt as AReceipt};
ghost use Rattle.hlc_workers.specs.Paid.{IsPaid, MadeOne, HasCalled, IsStopped, AreVacuums, event_of};

use crate::end::end_of;
use crate::gate::Gate;
use crate::session::{Session, Work};
use hlc_core::CoreEvent;
use hlc_server::{Caller, Served, Shared, WorkEnd};
use std::alloc::Global;
use std::sync::Wait;
use std::sync::ledger::Ledger;
use std::thread::Threads;

impl<L: Ledger, G: Gate, R: Wait + Threads + Sync> Session<'_, L, G, R> {
    /// Makes one vacuum.
    fn vacuum(&mut self) -> Result<(), WorkEnd>
        ensures gate { self.new.gate.now ≡ self.old.gate.now }
        ensures made { MadeOne (G.may_answer self.old.gate.now) self.old.work self.new.work result
            (λ _ receipt. receipt.event ≡ AnEvent.Vacuum) }
    {
        self.make_room()?;
        match self
            .shared
            .call_by_threads(self.rt, &mut self.work.caller, CoreEvent::Vacuum)
        {
            Ok(receipt) => {
                self.work.receipts.push_reserved(receipt);
                Ok(())
            }
            Err((why, _)) => Err(WorkEnd::Spent(why)),
        }
    }

    /// Makes this many vacuums.
    fn vacuum_often(&mut self, times: u64) -> Result<(), WorkEnd>
        ensures { (more : List AReceipt)
            × HasCalled (G.may_answer self.old.gate.now) self.old.work self.new.work more
            × AreVacuums times more
            × MatchResult result (λ _. map event_of more ≡ replicate times AnEvent.Vacuum)
            (λ end. IsStopped (G.may_answer self.old.gate.now) self.new.work end) }
    {
        for _time in 0..times {
            self.vacuum()?;
        }
        Ok(())
    }
}

/// Makes this many vacuums, one after another. The gate is asked before each.
///
/// It ends `Done` after the last vacuum, `Held` where the gate answered false, and `Spent` where a vacuum was not made,
/// or it ran out of memory for the receipt. It returns the receipts so far.
pub fn serve_vacuum<L: Ledger, G: Gate, R: Wait + Threads + Sync>(
    rt: &R,
    alloc: Global,
    shared: &Shared<L>,
    caller: Caller<L>,
    times: u64,
    gate: &G,
) -> Served<L>
    ensures share { IsPaid caller result.caller result.receipts.items }
    ensures vacuums { AreVacuums times result.receipts.items }
    ensures done { result.end ≡ WorkEnd.Done
        → map event_of result.receipts.items ≡ replicate times AnEvent.Vacuum }
    ensures stopped { result.end ≡ WorkEnd.Held
        → G.may_answer gate.now (vec_len result.receipts) false }
    ensures open { result.end ≢ WorkEnd.Closed }
    ensures passed { (turn : ℕ) → turn < length result.receipts.items
        → G.may_answer gate.now turn true }
{
    let mut session = Session::new(rt, alloc, shared, caller, gate);
    let end = end_of(session.vacuum_often(times));
    let Work { caller, receipts } = session.work;
    Served {
        caller,
        receipts,
        end,
    }
}
