//! Links that are full, and their feeding into a store.
ghost use Rattle.std.specs.Prelude.{◌≡◌, [], false, IfSome};
ghost use Rattle.std.proofs.Props.{props};
ghost use Rattle.hlc_link.specs.Ends.{received};

use crate::clients::{Client, client_after};
use crate::expected::must_be;
use crate::scenes::Scene;
use hlc_core::{Item, Stamp};
use hlc_floor::Feeder;
use hlc_link::{LinkReceiver, LinkSender, link};
use hlc_server::Receipt;
use hlc_workers::{Fed, FreeGate, WorkEnd, feed};
use std::alloc::Global;
use std::process::Abort;
use std::sync::Wait;
use std::sync::ledger::Ledger;
use std::test::*;
use test_support::makers::write;

/// Returns the receiving end of a link that carries these items, at most eight, and then an end or a dropped sender.
pub fn full_link<R: Wait + Abort>(
    rt: &R,
    alloc: Global,
    items: Vec<Item>,
    ends: bool,
) -> LinkReceiver
    ensures { result ≡ received result.link [] false }
{
    let (mut sender, receiver) = link(rt, alloc, 8).expect(rt, "a link");
    for item in items {
        puts(rt, &mut sender, item);
    }
    if ends {
        must_be(rt, sender.finish(rt).is_ok(), true);
    }
    receiver
}

/// Puts an item into a link.
fn puts<R: Wait + Abort>(rt: &R, sender: &mut LinkSender, item: Item) {
    assert!(rt; sender.put(rt, item).is_ok());
}

/// Returns the word that a feeder raised on the board, if there is a feeder.
pub(crate) fn raised_by(feeder: &Option<Feeder>) -> Option<Stamp> {
    match feeder {
        Some(feeder) => Some(feeder.raised()),
        None => None,
    }
}

/// A caller that feeds items into the store of a scene, and raises its board where it has a feeder.
#[derive(Drop)]
pub(crate) struct Writer<'a, L: Ledger> {
    pub(crate) client: Client<'a, L>,
    pub(crate) feeder: Option<Feeder>,
    ghost of_board: { IfSome feeder (λ feeder. feeder.board ≡ client.scene.now.board) } by { Prim.hlevel props },
}

/// Returns the writer after a feeding that was done.
fn writer_after<'a, L: Ledger, R: Abort>(
    rt: &R,
    scene: &'a Scene<L>,
    receipts: Vec<Receipt>,
    fed: Fed<L>,
) -> Writer<'a, L>
    requires { IfSome fed.feeder (λ feeder. feeder.board ≡ scene.now.board) }
{
    must_be(rt, fed.end, WorkEnd::Done);
    let client = client_after(rt, scene, receipts, fed.caller, fed.receipts);
    Writer {
        client,
        feeder: fed.feeder,
    }
}

impl<'a, L: Ledger> Writer<'a, L> {
    /// Returns a writer with this feeder.
    pub(crate) fn new(client: Client<'a, L>, feeder: Option<Feeder>) -> Writer<'a, L>
        requires { IfSome feeder (λ feeder. feeder.board ≡ client.scene.now.board) }
    {
        Writer { client, feeder }
    }

    /// Feeds these items, at most eight, and then the end.
    pub(crate) fn feeds<R: Wait + Abort>(
        self,
        rt: &R,
        alloc: Global,
        items: Vec<Item>,
    ) -> Writer<'a, L> {
        let Writer { client, feeder } = self;
        let (scene, caller, receipts) = (client.scene, client.caller, client.receipts);
        let (link, gate) = (full_link(rt, alloc, items, true), &FreeGate);
        let (shared, board) = (&scene.shared, &scene.board);
        let fed = feed(rt, alloc, shared, caller, link, board, feeder, gate);
        writer_after(rt, scene, receipts, fed)
    }
}

/// Feeds one item, and checks that this word was raised on the board.
pub(crate) fn feed_item<'a, L: Ledger, R: Wait + Abort>(
    rt: &R,
    alloc: Global,
    writer: Writer<'a, L>,
    item: Item,
    word: Stamp,
) -> Writer<'a, L> {
    let writer = writer.feeds(rt, alloc, list_of_one(rt, alloc, item));
    must_be(rt, raised_by(&writer.feeder), Some(word));
    writer
}

/// Returns a list of one item.
pub(crate) fn list_of_one<R: Abort>(rt: &R, alloc: Global, item: Item) -> Vec<Item> {
    vec![in alloc; item].ok().expect(rt, "memory")
}

/// Returns the write of node 0 with this number, at key `a`. Each write is a second later than the one before it.
pub(crate) fn written<R: Abort>(rt: &R, alloc: Global, number: u8, value: u8) -> Item {
    write(alloc, 0, number, b'a', value).expect(rt, "memory")
}
