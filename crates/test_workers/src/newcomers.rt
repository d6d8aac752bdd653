//! A node that joins a store.
use crate::clients::{Client, keep};
use crate::writers::{Writer, list_of_one};
use hlc_core::CoreReply;
use hlc_node::NodeCore;
use hlc_server::Receipt;
use std::alloc::Global;
use std::process::Abort;
use std::sync::Wait;
use std::sync::ledger::Ledger;
use std::test::*;

/// A node that joined: its caller, and its side.
#[derive(Drop)]
pub(crate) struct Newcomer<'a, L: Ledger> {
    pub(crate) client: Client<'a, L>,
    pub(crate) node: NodeCore,
}

/// Returns the side of a node that joined, from the last reply of the store.
fn side_of<R: Abort>(rt: &R, receipts: &[Receipt]) -> NodeCore {
    let receipt = receipts.last().expect(rt, "a receipt");
    match &receipt.reply {
        CoreReply::Joined { node, start } => NodeCore::new(*node, *start),
        _ => panic!(rt; "no node joined"),
    }
}

/// Lets a node join, and makes its side from the reply of the store.
pub(crate) fn join_one<'a, L: Ledger, R: Wait + Abort>(
    rt: &R,
    client: Client<'a, L>,
) -> Newcomer<'a, L> {
    let Client {
        scene,
        caller,
        mut receipts,
    } = client;
    let (caller, ended) = scene.shared.join(rt, caller);
    keep(rt, &mut receipts, ended);
    let node = side_of(rt, receipts.as_slice());
    let client = Client {
        scene,
        caller,
        receipts,
    };
    Newcomer { client, node }
}

/// Feeds the last item of the node, at 3.0. The node has no word on the board.
pub(crate) fn retire<'a, L: Ledger, R: Wait + Abort>(
    rt: &R,
    alloc: Global,
    newcomer: Newcomer<'a, L>,
) -> Newcomer<'a, L> {
    let Newcomer { client, mut node } = newcomer;
    let last = list_of_one(rt, alloc, node.retire(3).expect(rt, "the last item"));
    let Writer { client, .. } = Writer::new(client, None).feeds(rt, alloc, last);
    Newcomer { client, node }
}
