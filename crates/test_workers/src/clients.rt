//! The callers in a scene.
ghost use Rattle.std.specs.Prelude.{◌≡◌};

use crate::rounds::Reading;
use crate::scenes::{Paid, Scene, Seats};
use crate::writers::Writer;
use hlc_server::{CallResult, Caller, Receipt};
use std::alloc::Global;
use std::process::Abort;
use std::sync::ledger::Ledger;
use std::test::*;

/// A caller in a scene, with the receipts of its calls so far.
#[derive(Drop)]
pub(crate) struct Client<'a, L: Ledger> {
    pub(crate) scene: &'a Scene<L>,
    pub(crate) caller: Caller<L>,
    pub(crate) receipts: Vec<Receipt>,
}

/// The writer of a scene, its reader, and the other callers.
#[derive(Drop)]
pub(crate) struct Cast<'a, L: Ledger> {
    pub(crate) writer: Writer<'a, L>,
    pub(crate) reading: Reading<'a, L>,
    pub(crate) others: Vec<Caller<L>>,
}

/// Returns the last of these callers, which has made no call.
pub(crate) fn last_client<'a, L: Ledger, R: Abort>(
    rt: &R,
    alloc: Global,
    scene: &'a Scene<L>,
    callers: &mut Vec<Caller<L>>,
) -> Client<'a, L>
    ensures { result.scene.now.board ≡ scene.now.board }
{
    let caller = callers.pop().expect(rt, "a caller");
    let receipts = Vec::new(alloc);
    Client {
        scene,
        caller,
        receipts,
    }
}

/// Passes the seats of a scene to the callers: the first writes, the second reads, the others are in reverse order.
pub(crate) fn take_seats<'a, L: Ledger, R: Abort>(
    rt: &R,
    alloc: Global,
    scene: &'a Scene<L>,
    seats: Seats<L>,
) -> Cast<'a, L>
    requires feeder { seats.feeder.board ≡ scene.now.board }
    requires pass { seats.pass.board ≡ scene.now.board }
{
    let (mut callers, feeder, pass) = (seats.callers, seats.feeder, seats.pass);
    callers.reverse();
    let writer = last_client(rt, alloc, scene, &mut callers);
    let reader = last_client(rt, alloc, scene, &mut callers);
    Cast {
        writer: Writer::new(writer, Some(feeder)),
        reading: Reading::new(reader, pass),
        others: callers,
    }
}

/// Returns the client after calls with these receipts, which are appended to the others.
pub(crate) fn client_after<'a, L: Ledger, R: Abort>(
    rt: &R,
    scene: &'a Scene<L>,
    receipts: Vec<Receipt>,
    caller: Caller<L>,
    more: Vec<Receipt>,
) -> Client<'a, L>
    ensures { result.scene.now.board ≡ scene.now.board }
{
    let mut receipts = receipts;
    let mut more = more;
    receipts.append(&mut more).expect(rt, "memory");
    Client {
        scene,
        caller,
        receipts,
    }
}

/// Appends a client's caller and receipts to the lists of others, for settling.
pub(crate) fn pays<'a, L: Ledger, R: Abort>(
    rt: &R,
    lists: &mut Vec<Paid<L>>,
    client: Client<'a, L>,
) {
    let paid = (client.caller, client.receipts);
    lists.push(paid).ok().expect(rt, "memory");
}

/// Stores the receipt of a call that was made.
pub(crate) fn keep<R: Abort>(rt: &R, receipts: &mut Vec<Receipt>, ended: CallResult) {
    let receipt = ended.ok().expect(rt, "a call that was made");
    receipts.push(receipt).ok().expect(rt, "memory");
}
