//! The items, rows and events of lines.
use crate::lines::{next_name, next_node, next_number, next_stamp, next_text};
use hlc_core::{Body, CoreEvent, Item, Row};
use hlc_node::{Listed, Write};
use hlc_text::words::LineWords;
use std::alloc::Global;

/// Returns the item of this name and of the next words, or none where memory ran out.
pub(crate) fn item_of(alloc: Global, name: &str, words: &mut LineWords<'_>) -> Option<Item> {
    Some(Item {
        node: next_node(words),
        number: next_number(words),
        stamp: next_stamp(words),
        body: body_of(alloc, name, words)?,
    })
}

/// Returns the body of the item: a report, unless the name is that of another kind.
fn body_of(alloc: Global, name: &str, words: &mut LineWords<'_>) -> Option<Body> {
    match name {
        "write" => Some(Body::Write {
            key: next_text(alloc, words)?,
            value: Some(next_text(alloc, words)?),
        }),
        "delete" => Some(Body::Write {
            key: next_text(alloc, words)?,
            value: None,
        }),
        "batch" => batch_of(alloc, words),
        "retire" => Some(Body::Retire),
        _ => Some(Body::Report),
    }
}

/// Returns a batch of this many writes, each of a key and a value, or none where memory ran out.
fn batch_of(alloc: Global, words: &mut LineWords<'_>) -> Option<Body> {
    let mut writes = Vec::new(alloc);
    for _ in 0..next_number(words) {
        let key = next_text(alloc, words)?;
        let value = Some(next_text(alloc, words)?);
        writes.push(Write { key, value }).ok()?;
    }
    Some(Body::Batch(Listed::from_vec(writes)))
}

/// Returns the row of the item of these words, if that is a write or a deletion.
pub(crate) fn row_of(alloc: Global, name: &str, words: &mut LineWords<'_>) -> Option<Row> {
    let item = item_of(alloc, name, words)?;
    let (stamp, node) = (item.stamp, item.node);
    let Body::Write { key, value } = item.body else {
        return None;
    };
    Some(Row {
        key,
        stamp,
        node,
        value,
    })
}

/// Returns the event of the next words, or none where memory ran out.
pub(crate) fn event_of(alloc: Global, words: &mut LineWords<'_>) -> Option<CoreEvent> {
    match next_name(words) {
        "join" => Some(CoreEvent::Join),
        "join_at" => Some(CoreEvent::JoinAt(next_stamp(words))),
        "open" => Some(CoreEvent::OpenAt(next_stamp(words))),
        "open_floor" => Some(CoreEvent::OpenFloor),
        "list" => Some(CoreEvent::List(next_number(words))),
        "close" => Some(CoreEvent::Close(next_number(words))),
        "vacuum" => Some(CoreEvent::Vacuum),
        "vacuum_to" => Some(CoreEvent::VacuumTo(next_stamp(words))),
        "vacuum_part" => Some(CoreEvent::VacuumPart {
            at: next_stamp(words),
            after: next_text(alloc, words)?,
            limit: next_number(words) as usize,
        }),
        "read" => Some(CoreEvent::Read {
            id: next_number(words),
            key: next_text(alloc, words)?,
        }),
        name => Some(CoreEvent::Accept(item_of(alloc, name, words)?)),
    }
}
