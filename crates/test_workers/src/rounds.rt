//! Rounds of a reader.
ghost use Rattle.std.specs.Prelude.{◌≡◌, ◌≤◌};

use crate::clients::{Client, client_after};
use crate::expected::{answer, must_be, replied};
use crate::scenes::Scene;
use hlc_core::{CoreFault, CoreReply, Stamp};
use hlc_floor::FloorPass;
use hlc_server::Receipt;
use hlc_workers::{FreeGate, Reader, WorkEnd, serve_reader};
use std::alloc::Global;
use std::process::Abort;
use std::sync::Wait;
use std::sync::ledger::Ledger;
use std::test::*;
use test_support::makers::bytes;

/// A reader of a scene, between two rounds.
#[derive(Drop)]
pub(crate) struct Reading<'a, L: Ledger> {
    pub(crate) client: Client<'a, L>,
    pub(crate) pass: FloorPass,
    ghost of_board: { pass.board ≡ client.scene.now.board },
}

/// Returns the reader after a round that was done.
fn reading_after<'a, L: Ledger, R: Abort>(
    rt: &R,
    scene: &'a Scene<L>,
    receipts: Vec<Receipt>,
    read: Reader<L>,
) -> Reading<'a, L>
    requires { read.pass.board ≡ scene.now.board }
{
    must_be(rt, read.end, WorkEnd::Done);
    let client = client_after(rt, scene, receipts, read.caller, read.receipts);
    Reading {
        client,
        pass: read.pass,
    }
}

impl<'a, L: Ledger> Reading<'a, L> {
    /// Returns a reader with this pass.
    pub(crate) fn new(client: Client<'a, L>, pass: FloorPass) -> Reading<'a, L>
        requires { pass.board ≡ client.scene.now.board }
    {
        Reading { client, pass }
    }

    /// Makes one round over the key `a`.
    fn reads<R: Wait + Abort>(self, rt: &R, alloc: Global) -> Reading<'a, L> {
        let Reading { client, pass } = self;
        let (scene, caller, receipts) = (client.scene, client.caller, client.receipts);
        let (keys, gate) = ([bytes(alloc, b'a').expect(rt, "memory")], &FreeGate);
        let (shared, board) = (&scene.shared, &scene.board);
        let read = serve_reader(rt, alloc, shared, caller, board, pass, &keys, 1, gate);
        reading_after(rt, scene, receipts, read)
    }
}

/// The expected result of a round: the id of its snapshot, whether the first stamp at which it tries to open is
/// refused, since it is above the floor, the stamp where it opens, and the value that is read there.
#[derive(Clone, Copy)]
pub(crate) struct Round {
    pub(crate) id: u64,
    pub(crate) refused: bool,
    pub(crate) stamp: Stamp,
    pub(crate) value: u8,
}

/// Checks that, after this many receipts, the last ones are those of an opening, a read and the close.
fn has_read<R: Abort>(rt: &R, alloc: Global, receipts: &[Receipt], before: usize, expected: Round)
    requires { before ≤ 256 }
{
    let (id, stamp) = (expected.id, expected.stamp);
    assert!(rt; receipts.len() == before + 3);
    replied(rt, &receipts[before], CoreReply::Opened { id, stamp });
    replied(rt, &receipts[before + 1], answer(rt, alloc, expected.value));
    replied(rt, &receipts[before + 2], CoreReply::Closed(stamp));
}

/// Makes a round over the key, and checks that it has the expected result. There were this many receipts before.
pub(crate) fn read_as_expected<'a, L: Ledger, R: Wait + Abort>(
    rt: &R,
    alloc: Global,
    reading: Reading<'a, L>,
    before: u8,
    expected: Round,
) -> Reading<'a, L> {
    let reading = reading.reads(rt, alloc);
    let receipts = reading.client.receipts.as_slice();
    let mut before = usize::from(before);
    if expected.refused {
        let floor = expected.stamp;
        assert!(rt; before < receipts.len());
        let refused = CoreReply::Refused(CoreFault::AboveFloor { floor });
        replied(rt, &receipts[before], refused);
        before += 1;
    }
    has_read(rt, alloc, receipts, before, expected);
    reading
}
