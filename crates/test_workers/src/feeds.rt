//! A link that is fed into a store.
ghost use Rattle.std.specs.Prelude.{◌≡◌};

use crate::expected::{must_be, replied};
use crate::scenes::{Scene, Seats, new_scene};
use crate::stopped::StopsAt;
use crate::writers::{full_link, raised_by};
use hlc_core::{Body, CoreFault, CoreReply, Item, LinkFault, Stamp};
use hlc_link::LinkReceiver;
use hlc_server::Receipt;
use hlc_workers::{Fed, FreeGate, Gate, WorkEnd, feed};
use std::alloc::Global;
use std::marker::Brand;
use std::process::Abort;
use std::sync::Wait;
use std::sync::ledger::{Blank, Ledger};
use std::test::*;
use test_support::makers::{at_second, said};

/// How the feeding of a link went, and the stamp that was raised.
#[derive(Drop)]
struct Ended {
    receipts: Vec<Receipt>,
    left: Option<Item>,
    end: WorkEnd,
    raised: Option<Stamp>,
}

/// Returns a link of the items of these numbers, with the end if there is to be one.
fn link_of<R: Wait + Abort>(rt: &R, alloc: Global, numbers: [u8; 3], ends: bool) -> LinkReceiver {
    let mut items = Vec::new(alloc);
    for number in numbers {
        items.push(report(number)).ok().expect(rt, "memory");
    }
    full_link(rt, alloc, items, ends)
}

/// Returns the report of node 0 with this number.
fn report(number: u8) -> Item {
    said(0, number, Body::Report)
}

/// Returns what the test needs of a feeding.
fn ended_of<L: Ledger>(fed: Fed<L>) -> Ended {
    let raised = raised_by(&fed.feeder);
    Ended {
        receipts: fed.receipts,
        left: fed.left,
        end: fed.end,
        raised,
    }
}

/// Feeds a link into a new store, and returns how that went.
fn fed_from<L: Ledger, G: Gate, R: Wait + Abort>(
    rt: &R,
    alloc: Global,
    scene: &Scene<L>,
    seats: Seats<L>,
    link: LinkReceiver,
    gate: &G,
) -> Ended
    requires { seats.feeder.board ≡ scene.now.board }
{
    let (shared, board, mut callers) = (&scene.shared, &scene.board, seats.callers);
    let caller = callers.pop().expect(rt, "a caller");
    let feeder = Some(seats.feeder);
    ended_of(feed(rt, alloc, shared, caller, link, board, feeder, gate))
}

/// Feeds the items of these numbers, and then the end if there is to be one, into the store of a ledger.
fn fed<L: Ledger, G: Gate, R: Wait + Abort>(
    rt: &R,
    alloc: Global,
    blank: Blank,
    numbers: [u8; 3],
    ends: bool,
    gate: &G,
) -> Ended
    requires { (blank.name ≡ L.name) × (blank.parts ≡ L.parts) × (blank.parts ≡ 1) }
{
    let link = link_of(rt, alloc, numbers, ends);
    let (scene, seats) = new_scene::<L, R>(rt, alloc, blank, 1, false);
    fed_from(rt, alloc, &scene, seats, link, gate)
}

/// Feeds them into a new store.
fn fed_new<G: Gate, R: Wait + Abort>(
    rt: &R,
    alloc: Global,
    numbers: [u8; 3],
    ends: bool,
    gate: &G,
) -> Ended {
    fed::<Brand, G, R>(rt, alloc, Blank::new(1), numbers, ends, gate)
}

/// Checks that the feeding ended like this, with this many receipts, left this item, and returned its feeder.
fn has_ended<R: Abort>(rt: &R, ended: &Ended, expected: (WorkEnd, usize), left: Option<Item>) {
    must_be(rt, (ended.end, ended.receipts.len()), expected);
    must_be(rt, &ended.left, &left);
    must_be(rt, ended.raised.is_some(), true);
}

/// Checks that the second item was refused, since number 1 is the next.
fn second_is_refused<R: Abort>(rt: &R, receipts: &[Receipt]) {
    assert!(rt; receipts.len() == 3);
    replied(
        rt,
        &receipts[1],
        CoreReply::Refused(CoreFault::Link(LinkFault::NotNext { next: 1 })),
    );
}

#[test]
fn a_refusal_does_not_end_it(rt: HostRuntime) {
    let ended = fed_new(&rt, rt.alloc(), [0, 2, 1], true, &FreeGate);
    has_ended(&rt, &ended, (WorkEnd::Done, 3), None);
    second_is_refused(&rt, ended.receipts.as_slice());
    must_be(&rt, ended.raised, Some(at_second(2)));
}

#[test]
fn a_link_that_is_closed(rt: HostRuntime) {
    let ended = fed_new(&rt, rt.alloc(), [0, 1, 2], false, &FreeGate);
    has_ended(&rt, &ended, (WorkEnd::Closed, 3), None);
}

#[test]
fn a_gate_that_holds(rt: HostRuntime) {
    let ended = fed_new(&rt, rt.alloc(), [0, 1, 2], true, &StopsAt(1));
    has_ended(&rt, &ended, (WorkEnd::Held, 1), Some(report(1)));
    must_be(&rt, ended.raised, Some(at_second(1)));
}
