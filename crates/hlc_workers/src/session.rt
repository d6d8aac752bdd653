//! What a worker needs to make its calls of a store.
ghost use Rattle.std.specs.Prelude.{◌≡◌, ◌<◌, ◌⊎◌, [], false, true, length, vec_len, vec_capacity, IfErr, OnOk};
ghost use Rattle.hlc_workers.specs.{Paid.MadeOne, Rounds.IsOpening, Rounds.opening_of};

use crate::gate::Gate;
use hlc_core::{CoreEvent, CoreFault, CoreReply};
use hlc_server::{Caller, NotDone, Receipt, Shared, WorkEnd};
use std::alloc::Global;
use std::sync::Wait;
use std::sync::ledger::Ledger;

/// What a worker's calls change: its caller, and its receipts in the order of the calls.
#[derive(Drop)]
pub(crate) struct Work<L: Ledger> {
    pub(crate) caller: Caller<L>,
    pub(crate) receipts: Vec<Receipt>,
}

/// A worker that makes calls: the store that it calls, and the gate that it asks before each call.
#[derive(Drop)]
pub(crate) struct Session<'a, L: Ledger, G: Gate, R: Wait> {
    pub(crate) rt: &'a R,
    pub(crate) shared: &'a Shared<L>,
    pub(crate) gate: &'a G,
    pub(crate) work: Work<L>,
}

/// The result of an opening.
#[derive(Clone, Copy, Debug)]
pub enum Opening {
    /// The snapshot of this id was opened.
    Opened(u64),
    /// The stamp was above the floor or below the horizon.
    Outside,
    /// It was refused for another reason.
    NotOpened,
}

impl<'a, L: Ledger, G: Gate, R: Wait> Session<'a, L, G, R> {
    /// Returns a worker that has made no call.
    pub(crate) fn new(
        rt: &'a R,
        alloc: Global,
        shared: &'a Shared<L>,
        caller: Caller<L>,
        gate: &'a G,
    ) -> Session<'a, L, G, R>
        ensures gate { result.gate.now ≡ gate.now }
        ensures caller { result.work.caller ≡ caller }
        ensures none { result.work.receipts.items ≡ [] }
    {
        let receipts = Vec::new(alloc);
        let work = Work { caller, receipts };
        Session {
            rt,
            shared,
            gate,
            work,
        }
    }

    /// Asks the gate at the turn of the next call, which is the number of receipts, and makes room for one more
    /// receipt. Returns `Held` where the gate stops the worker, and `Spent` where it runs out of memory.
    pub(crate) fn make_room(&mut self) -> Result<(), WorkEnd>
        ensures gate { self.new.gate.now ≡ self.old.gate.now }
        ensures caller { self.new.work.caller ≡ self.old.work.caller }
        ensures items { self.new.work.receipts.items ≡ self.old.work.receipts.items }
        ensures room { OnOk result
            (vec_len self.new.work.receipts < vec_capacity self.new.work.receipts) }
        ensures passed { OnOk result
            (G.may_answer self.old.gate.now (length self.old.work.receipts.items) true) }
        ensures stopped { IfErr result (λ end. end ≡ WorkEnd.Held
            → G.may_answer self.old.gate.now (length self.old.work.receipts.items) false) }
        ensures stops { IfErr result
            (λ end. (end ≡ WorkEnd.Held) ⊎ (end ≡ WorkEnd.Spent NotDone.NoMemory)) }
    {
        let turn = self.work.receipts.len() as u64;
        if !self.gate.pass(self.rt, turn) {
            return Err(WorkEnd::Held);
        }
        if self.work.receipts.reserve(1).is_err() {
            return Err(WorkEnd::Spent(NotDone::NoMemory));
        }
        Ok(())
    }

    /// Makes the call that an event asks for, once the gate let it pass, and stores its receipt. Returns the result as
    /// that of an opening.
    pub(crate) fn call(&mut self, event: CoreEvent) -> Result<Opening, WorkEnd>
        ensures gate { self.new.gate.now ≡ self.old.gate.now }
        ensures made { MadeOne (G.may_answer self.old.gate.now) self.old.work self.new.work result
            (IsOpening event) }
    {
        self.make_room()?;
        match self.shared.call(self.rt, &mut self.work.caller, event) {
            Ok(receipt) => {
                let opening = opening_in(&receipt.reply);
                self.work.receipts.push_reserved(receipt);
                Ok(opening)
            }
            Err((why, _)) => Err(WorkEnd::Spent(why)),
        }
    }
}

/// Returns the result of an opening from its reply.
fn opening_in(reply: &CoreReply) -> Opening
    ensures { result ≡ opening_of reply.now }
{
    match reply {
        CoreReply::Opened { id, stamp: _ } => Opening::Opened(*id),
        CoreReply::Refused(CoreFault::AboveFloor { floor: _ }) => Opening::Outside,
        CoreReply::Refused(CoreFault::BelowHorizon { horizon: _ }) => Opening::Outside,
        _ => Opening::NotOpened,
    }
}
