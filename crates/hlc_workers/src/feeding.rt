//! The worker of a link.
ghost use Rattle.std.specs.Prelude.{◌≡◌, ◌≢◌, ◌<◌, ℕ, true, false, None, length, vec_len, IfSome, IsSome, MatchResult};
ghost use Rattle.std.specs.Option.{option_map};
ghost use Rattle.hlc_workers.specs.Paid.{IsPaid};
ghost use Rattle.hlc_workers.specs.Feeding.{TookAll, FedOne, FedNone, fed_by, fed_all};

use crate::gate::Gate;
use crate::session::{Session, Work};
use hlc_core::{CoreEvent, CoreReply, Item};
use hlc_floor::{Board, Feeder};
use hlc_link::{LinkReceiver, Parcel};
use hlc_server::{Caller, Receipt, Shared, WorkEnd};
use std::alloc::Global;
use std::sync::Wait;
use std::sync::ledger::Ledger;

/// What the worker of a link returns: its caller, its ends of the link and of the board, its receipts in the order of
/// its calls, and how it ended.
#[derive(Drop)]
pub struct Fed<L: Ledger> {
    pub caller: Caller<L>,
    pub link: LinkReceiver,
    /// None where none was passed.
    pub feeder: Option<Feeder>,
    pub receipts: Vec<Receipt>,
    /// The item that was taken from the link and not passed to the store, if there is one.
    pub left: Option<Item>,
    pub end: WorkEnd,
}

/// Takes the parcels of a link until its end, and passes each item to the store. When an item of the feeder's node was
/// accepted above what was raised, it raises the board with that item, after the lock is free, and with no other item.
/// The feeder must be of this board. A node that joined has no word on the board and so no feeder: then nothing is
/// raised. The worker takes a parcel first, and then asks the gate.
///
/// It ends `Done` at the end of the link, `Closed` where the link refused the call, `Held` where the gate answered
/// false, and `Spent` where the store did not make the call for an item, or it ran out of memory for the receipt. In
/// the last two cases the item is `left`. A refusal of the store does not end it.
pub fn feed<L: Ledger, G: Gate, R: Wait>(
    rt: &R,
    alloc: Global,
    shared: &Shared<L>,
    caller: Caller<L>,
    link: LinkReceiver,
    board: &Board,
    feeder: Option<Feeder>,
    gate: &G,
) -> Fed<L>
    requires { IfSome feeder (λ feeder. feeder.board ≡ board.now) }
    ensures share { IsPaid caller result.caller result.receipts.items }
    ensures link { result.link.link ≡ link.link }
    ensures items { TookAll link.taken result.link.taken result.receipts.items result.left }
    ensures raised { result.feeder
        ≡ option_map (λ feeder. fed_all feeder result.receipts.items) feeder }
    ensures done { result.end ≡ WorkEnd.Done → (result.link.ended ≡ true) × (result.left ≡ None) }
    ensures closed { result.end ≡ WorkEnd.Closed → result.left ≡ None }
    ensures kept { result.end ≢ WorkEnd.Done → result.end ≢ WorkEnd.Closed → IsSome result.left }
    ensures stopped { result.end ≡ WorkEnd.Held
        → G.may_answer gate.now (vec_len result.receipts) false }
    ensures passed { (turn : ℕ) → turn < length result.receipts.items
        → G.may_answer gate.now turn true }
{
    let mut link = link;
    let mut feeder = feeder;
    let mut session = Session::new(rt, alloc, shared, caller, gate);
    for _ in rt.forever() {
        if let Err((left, end)) = session.feed_one(&mut link, board, &mut feeder) {
            let Work { caller, receipts } = session.work;
            return Fed {
                caller,
                link,
                feeder,
                receipts,
                left,
                end,
            };
        }
    }
    unreachable!()
}

impl<L: Ledger, G: Gate, R: Wait> Session<'_, L, G, R> {
    /// Takes one item and passes it to the store, or returns what is left and how the work ends.
    fn feed_one(
        &mut self,
        link: &mut LinkReceiver,
        board: &Board,
        feeder: &mut Option<Feeder>,
    ) -> Result<(), (Option<Item>, WorkEnd)>
        requires { IfSome feeder.old (λ feeder. feeder.board ≡ board.now) }
        ensures gate { self.new.gate.now ≡ self.old.gate.now }
        ensures link { link.new.link ≡ link.old.link }
        ensures fed { MatchResult result
            (λ _. FedOne (G.may_answer self.old.gate.now) self.old.work self.new.work
            link.old.taken link.new.taken feeder.old feeder.new)
            (λ stop. FedNone (G.may_answer self.old.gate.now) self.old.work self.new.work
            link.old.taken link.new feeder.old feeder.new stop.0 stop.1) }
    {
        let item = match link.take(self.rt) {
            Ok(Parcel::Item(item)) => item,
            Ok(Parcel::End) => return Err((None, WorkEnd::Done)),
            Err(_) => return Err((None, WorkEnd::Closed)),
        };
        if let Err(end) = self.make_room() {
            return Err((Some(item), end));
        }
        let event = CoreEvent::Accept(item);
        match self.shared.call(self.rt, &mut self.work.caller, event) {
            Ok(receipt) => {
                raise_where(board, feeder, &receipt.reply);
                self.work.receipts.push_reserved(receipt);
                Ok(())
            }
            Err((why, event)) => {
                let CoreEvent::Accept(item) = event else {
                    unreachable!()
                };
                Err((Some(item), WorkEnd::Spent(why)))
            }
        }
    }
}

/// Raises the board with the item that the reply accepts, where there is a feeder.
fn raise_where(board: &Board, feeder: &mut Option<Feeder>, reply: &CoreReply)
    requires { IfSome feeder.old (λ feeder. feeder.board ≡ board.now) }
    ensures { feeder.new ≡ option_map (λ feeder. fed_by feeder reply.now) feeder.old }
{
    if let Some(feeder) = feeder {
        raise_if(board, feeder, reply);
    }
}

/// Raises the board where the reply says that an item of the feeder's node was accepted above what the feeder raised.
fn raise_if(board: &Board, feeder: &mut Feeder, reply: &CoreReply)
    requires { feeder.old.board ≡ board.now }
    ensures { feeder.new ≡ fed_by feeder.old reply.now }
{
    if let CoreReply::Accepted(accepted) = reply {
        if accepted.node() == feeder.node() && feeder.raised() < accepted.stamp() {
            board.raise(feeder, accepted);
        }
    }
}
