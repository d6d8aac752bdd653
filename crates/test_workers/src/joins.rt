//! Nodes that join a store which threads share, and retire.
ghost use Rattle.std.specs.Prelude.{◌≡◌};

use crate::clients::{Cast, last_client, pays, take_seats};
use crate::expected::must_be;
use crate::newcomers::{join_one, retire};
use crate::rounds::{Round, read_as_expected};
use crate::scenes::{Paid, Scene, new_scene, settled_calls};
use crate::writers::{feed_item, written};
use hlc_core::{Body, Stamp};
use std::alloc::Global;
use std::marker::Brand;
use std::process::Abort;
use std::sync::Wait;
use std::sync::ledger::{Blank, Ledger};
use std::test::*;
use test_support::makers::{at_second, said};

/// Makes the calls of three callers: those of the writer, of a node that joins, and the rounds of the reader. The last
/// item of the writer's node raises the greatest word.
fn call_by_three<'a, L: Ledger, R: Wait + Abort>(
    rt: &R,
    alloc: Global,
    scene: &'a Scene<L>,
    cast: Cast<'a, L>,
    lists: &mut Vec<Paid<L>>,
) {
    let Cast {
        writer,
        reading,
        mut others,
    } = cast;
    let second = last_client(rt, alloc, scene, &mut others);
    let writer = feed_item(rt, alloc, writer, written(rt, alloc, 0, b'x'), at_second(1));
    let newcomer = join_one(rt, second);
    let writer = feed_item(rt, alloc, writer, written(rt, alloc, 1, b'y'), at_second(2));
    let reading = read_as_expected(rt, alloc, reading, 0, round(1, true, 1, b'x'));
    let newcomer = retire(rt, alloc, newcomer);
    let reading = read_as_expected(rt, alloc, reading, 4, round(2, false, 2, b'y'));
    let writer = feed_item(
        rt,
        alloc,
        writer,
        said(0, 2, Body::Retire),
        Stamp::from_bits(u64::MAX),
    );
    let reading = read_as_expected(rt, alloc, reading, 7, round(3, true, 3, b'y'));
    pays(rt, lists, writer.client);
    pays(rt, lists, reading.client);
    pays(rt, lists, newcomer.client);
}

/// Returns a round of this number, with a refusal before it or not, in which this value is read at this second.
fn round(id: u64, refused: bool, second: u8, value: u8) -> Round {
    let stamp = at_second(second);
    Round {
        id,
        refused,
        stamp,
        value,
    }
}

/// x is accepted at 1.0. A node joins there, and y comes at 2.0: while the node that joined lags, a round at 2.0 opens
/// at 1.0. Once it retired, a round opens at 2.0. Once the first node retired too, at 3.0, the board shows the greatest
/// word, and a round opens at 3.0.
fn by_three<L: Ledger, R: Wait + Abort>(rt: &R, alloc: Global, blank: Blank)
    requires { (blank.name ≡ L.name) × (blank.parts ≡ L.parts) × (blank.parts ≡ 3) }
{
    let (scene, seats) = new_scene::<L, R>(rt, alloc, blank, 3, true);
    let cast = take_seats(rt, alloc, &scene, seats);
    let mut lists = Vec::new(alloc);
    call_by_three(rt, alloc, &scene, cast, &mut lists);
    must_be(rt, settled_calls(scene.shared, lists), Ok(16));
}

#[test]
fn a_round_above_the_floor(rt: HostRuntime) {
    by_three::<Brand, _>(&rt, rt.alloc(), Blank::new(3));
}
