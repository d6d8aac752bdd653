//! The worker of a reader.
ghost use Rattle.std.specs.Prelude.{◌≡◌, ◌≢◌, ◌<◌, ℕ, List, map, false, true, length, vec_len, MatchResult};
ghost use Rattle.hlc_events.specs.declared.event.CoreEvent.TheVariants.{Read as ARead};
ghost use Rattle.hlc_server.specs.declared.entry.Receipt.{Receipt as AReceipt};
ghost use Rattle.hlc_workers.specs.Paid.{IsPaid, HasCalled, IsStopped, MadeSome, event_of};
ghost use Rattle.hlc_workers.specs.Rounds.{reads_of, IsRound, AtFloor, HasServed, HasBegun};

use crate::end::end_of;
use crate::gate::Gate;
use crate::session::{Opening, Session, Work};
use hlc_core::{Bytes, CoreEvent, Stamp};
use hlc_floor::{Board, FloorPass};
use hlc_server::{Caller, NotDone, Receipt, Shared, WorkEnd};
use std::alloc::Global;
use std::sync::Wait;
use std::sync::ledger::Ledger;

/// What a reader returns: its caller, its pass, its receipts in the order of its calls, and how it ended.
#[derive(Drop)]
pub struct Reader<L: Ledger> {
    pub caller: Caller<L>,
    pub pass: FloorPass,
    pub receipts: Vec<Receipt>,
    pub end: WorkEnd,
}

impl<L: Ledger, G: Gate, R: Wait> Session<'_, L, G, R> {
    /// Reads each key in turn in an open snapshot.
    fn read_each(&mut self, id: u64, keys: &[Bytes]) -> Result<(), WorkEnd>
        ensures gate { self.new.gate.now ≡ self.old.gate.now }
        ensures made { MadeSome (G.may_answer self.old.gate.now) self.old.work self.new.work result
            (λ more. map event_of more ≡ map (ARead id) keys.now) }
    {
        for key in keys {
            let Ok(key) = key.clone() else {
                return Err(WorkEnd::Spent(NotDone::NoMemory));
            };
            self.call(CoreEvent::Read { id, key })?;
        }
        Ok(())
    }

    /// Reads each key in an open snapshot, and closes it.
    fn read_and_close(&mut self, id: u64, keys: &[Bytes]) -> Result<(), WorkEnd>
        ensures gate { self.new.gate.now ≡ self.old.gate.now }
        ensures made { MadeSome (G.may_answer self.old.gate.now) self.old.work self.new.work result
            (λ more. map event_of more ≡ reads_of id keys.now) }
    {
        self.read_each(id, keys)?;
        self.call(CoreEvent::Close(id))?;
        Ok(())
    }

    /// Makes the part of a round that opens at the floor of the store, where the board's floor was above it, or below
    /// the horizon.
    fn read_at_floor(&mut self, keys: &[Bytes]) -> Result<(), WorkEnd>
        ensures gate { self.new.gate.now ≡ self.old.gate.now }
        ensures made { MadeSome (G.may_answer self.old.gate.now) self.old.work self.new.work result
            (AtFloor keys.now) }
    {
        match self.call(CoreEvent::OpenFloor)? {
            Opening::Opened(id) => self.read_and_close(id, keys),
            _ => Ok(()),
        }
    }

    /// Makes one round: opens at the stamp, or at the floor of the store where the stamp is above it or below the
    /// horizon, reads each key and closes.
    fn make_round(&mut self, stamp: Stamp, keys: &[Bytes]) -> Result<(), WorkEnd>
        ensures gate { self.new.gate.now ≡ self.old.gate.now }
        ensures made { MadeSome (G.may_answer self.old.gate.now) self.old.work self.new.work result
            (IsRound keys.now stamp) }
    {
        match self.call(CoreEvent::OpenAt(stamp))? {
            Opening::Opened(id) => self.read_and_close(id, keys),
            Opening::Outside => self.read_at_floor(keys),
            Opening::NotOpened => Ok(()),
        }
    }

    /// Makes this many rounds, each at the floor of the board that the pass sees then.
    fn make_rounds(
        &mut self,
        board: &Board,
        pass: &mut FloorPass,
        keys: &[Bytes],
        rounds: u64,
    ) -> Result<(), WorkEnd>
        requires { pass.old.board ≡ board.now }
        ensures board { pass.new.board ≡ pass.old.board }
        ensures made { (more : List AReceipt)
            × HasCalled (G.may_answer self.old.gate.now) self.old.work self.new.work more
            × MatchResult result (λ _. HasServed keys.now rounds pass.old pass.new more)
            (λ end. IsStopped (G.may_answer self.old.gate.now) self.new.work end
            × HasBegun keys.now rounds pass.old pass.new more) }
    {
        for _round in 0..rounds {
            let stamp = board.floor(pass);
            self.make_round(stamp, keys)?;
        }
        Ok(())
    }
}

/// Makes this many rounds. Each looks at the floor of the board, opens a snapshot there, reads each key in turn, and
/// closes it. That stamp may be above the floor of the store while a node that joined lags, or it may be below the
/// horizon (GC threshold): then the round makes one more call, and opens at the floor of the store. A round whose
/// opening is refused for another reason ends there. The pass must be of this board.
///
/// It ends `Done` after the last round, `Held` where the gate answered false, and `Spent` where a call was not made, or
/// it ran out of memory for the copy of a key or for a receipt. It returns the receipts so far, of the rounds that it
/// began.
pub fn serve_reader<L: Ledger, G: Gate, R: Wait>(
    rt: &R,
    alloc: Global,
    shared: &Shared<L>,
    caller: Caller<L>,
    board: &Board,
    pass: FloorPass,
    keys: &[Bytes],
    rounds: u64,
    gate: &G,
) -> Reader<L>
    requires { pass.board ≡ board.now }
    ensures share { IsPaid caller result.caller result.receipts.items }
    ensures board { result.pass.board ≡ pass.board }
    ensures done { result.end ≡ WorkEnd.Done
        → HasServed keys.now rounds pass result.pass result.receipts.items }
    ensures begun { HasBegun keys.now rounds pass result.pass result.receipts.items }
    ensures stopped { result.end ≡ WorkEnd.Held
        → G.may_answer gate.now (vec_len result.receipts) false }
    ensures open { result.end ≢ WorkEnd.Closed }
    ensures passed { (turn : ℕ) → turn < length result.receipts.items
        → G.may_answer gate.now turn true }
{
    let mut pass = pass;
    let mut session = Session::new(rt, alloc, shared, caller, gate);
    let end = end_of(session.make_rounds(board, &mut pass, keys, rounds));
    let Work { caller, receipts } = session.work;
    Reader {
        caller,
        pass,
        receipts,
        end,
    }
}
