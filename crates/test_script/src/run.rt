//! A run of a world's events that is not refused, and copies of events, of replies, of items and of rows; and the small
//! caller in the README of `hlc_world`.
ghost use Rattle.std.specs.Prelude.{ℕ, ◌∷◌, List};
ghost use Rattle.hlc_world_event.specs.Events.{Event as AnEvent};
ghost use Rattle.hlc_world.specs.{declared.reply.Reply.Reply as AReply, WorldView.Represents};

use crate::items::bytes;
use hlc_core::{Body, Bytes, Item, Row};
use hlc_world::{Event, Reply, World};
use std::process::Abort;
use std::test::*;
use test_support::makers::{at_second, said};

/// Delivers an item twice, and returns both replies.
pub(crate) fn deliver_twice(world: &mut World, node: u16, number: u64) -> (Reply, Reply)
    ensures { (nodes : ℕ) (schedule : List (AnEvent × AReply)) → Represents nodes world.old schedule
        → Represents nodes world.new
        ((Event.Deliver node number, result.1) ∷ (Event.Deliver node number, result.0) ∷ schedule) }
{
    let first = world.step(Event::Deliver { node, number });
    let second = world.step(Event::Deliver { node, number });
    (first, second)
}

/// Returns a write, its delivery, and a read and a vacuum after it.
fn events<H: Abort + AllocGlobal>(rt: &H) -> Vec<Event> {
    let events = vec![in rt.alloc();
        Event::Write {
            node: 0,
            reading: 1,
            key: bytes(rt, b"a"),
            value: bytes(rt, b"x"),
        },
        Event::Deliver { node: 0, number: 0 },
        Event::OpenFloor,
        Event::Read {
            id: 1,
            key: bytes(rt, b"a"),
        },
        Event::Vacuum,
    ];
    events.ok().expect(rt, "memory")
}

/// Returns the replies of a world of one node to the events.
fn run<H: Abort + AllocGlobal>(rt: &H) -> Vec<Reply> {
    let mut world = World::new(rt.alloc(), 1).ok().expect(rt, "a world");
    world.run(events(rt)).ok().expect(rt, "room")
}

/// Returns the first item of node 0, a write to a key, or a deletion where there is no value.
fn item<H: Abort + AllocGlobal>(rt: &H, value: Option<Bytes>) -> Item {
    let key = bytes(rt, b"a");
    said(0, 0, Body::Write { key, value })
}

/// Checks that a copy of each value equals it.
fn are_copied<T: Clone + PartialEq + Drop, R: Abort>(rt: &R, values: &[T]) {
    for value in values {
        assert!(rt; value.clone().expect(rt, "memory") == *value);
    }
}

/// Where there is memory, no event of a run is refused. What the replies are is promised.
#[test]
fn a_run_is_not_refused(rt: HostRuntime) {
    let returned = run(&rt);
    for reply in returned.as_slice() {
        assert!(rt; !matches!(reply, Reply::Refused(_)));
    }
    are_copied(&rt, returned.as_slice());
}

#[test]
fn copies_of_events_and_rows(rt: HostRuntime) {
    let events = events(&rt);
    are_copied(&rt, events.as_slice());
    are_copied(&rt, &[item(&rt, None), item(&rt, Some(bytes(&rt, b"x")))]);
    let row = Row {
        key: bytes(&rt, b"a"),
        stamp: at_second(1),
        node: 0,
        value: Some(bytes(&rt, b"x")),
    };
    are_copied(&rt, &[row]);
}
