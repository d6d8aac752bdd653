//! The parts of a checkpoint, read from the front of some bytes. Each reader returns what it read and the bytes after
//! it.
ghost use Rattle.std.specs.Int.{w16};
ghost use Rattle.hlc_wire.specs.Reading.{Gives};
ghost use Rattle.hlc_body.specs.Reading.{link_at, snapshot_at, row_at, times_at, list_at};

use hlc_checkpoint::{Intake, Row, Snapshot};
use hlc_clock::Stamp;
use hlc_wire::{DecodeError, flag_at, key_at, u16_at, u64_at, value_at};
use std::alloc::Global;

/// The progress of a link.
#[derive(Clone, Copy)]
struct LinkParts {
    next: u64,
    head: Stamp,
    retired: bool,
}

/// Reads the number of links, and as many links.
#[tactic(auto, unfolding(crate::specs::Reading::list_at))]
pub fn links_at(alloc: Global, bytes: &[u8]) -> Result<(Vec<Intake>, &[u8]), DecodeError>
    ensures { Gives (λ x. (x.0.items, x.1.now)) result (list_at w16 link_at bytes.now) }
{
    let (count, rest) = u16_at(bytes)?;
    links_of(alloc, count, rest)
}

/// Reads this many links.
fn links_of(alloc: Global, count: u16, bytes: &[u8]) -> Result<(Vec<Intake>, &[u8]), DecodeError>
    ensures { Gives (λ x. (x.0.items, x.1.now)) result (times_at link_at count bytes.now) }
{
    let mut links = Vec::new(alloc);
    let mut rest = bytes;
    for _ in 0..count {
        match link_at(rest) {
            Ok((link, after)) => {
                links.push(Intake::resuming(link.next, link.head, link.retired))?;
                rest = after;
            }
            Err(error) => return Err(error),
        }
    }
    Ok((links, rest))
}

/// Reads a link.
#[tactic(auto, unfolding(crate::specs::Reading::link_at))]
fn link_at(bytes: &[u8]) -> Result<(LinkParts, &[u8]), DecodeError>
    ensures { Gives (λ x.
        (record { next = x.0.next; head = x.0.head; retired = x.0.retired }, x.1.now))
        result (link_at bytes.now) }
{
    let (next, rest) = u64_at(bytes)?;
    let (head, rest) = u64_at(rest)?;
    let (retired, rest) = flag_at(rest)?;
    let head = Stamp::from_bits(head);
    Ok((
        LinkParts {
            next,
            head,
            retired,
        },
        rest,
    ))
}

/// Reads the number of snapshots, and as many snapshots.
#[tactic(auto, unfolding(crate::specs::Reading::list_at))]
pub fn snapshots_at(alloc: Global, bytes: &[u8]) -> Result<(Vec<Snapshot>, &[u8]), DecodeError>
    ensures { Gives (λ x. (x.0.items, x.1.now)) result (list_at w16 snapshot_at bytes.now) }
{
    let (count, rest) = u16_at(bytes)?;
    snapshots_of(alloc, count, rest)
}

/// Reads this many snapshots.
fn snapshots_of(
    alloc: Global,
    count: u16,
    bytes: &[u8],
) -> Result<(Vec<Snapshot>, &[u8]), DecodeError>
    ensures { Gives (λ x. (x.0.items, x.1.now)) result (times_at snapshot_at count bytes.now) }
{
    let mut snapshots = Vec::new(alloc);
    let mut rest = bytes;
    for _ in 0..count {
        match snapshot_at(rest) {
            Ok((snapshot, after)) => {
                snapshots.push(snapshot)?;
                rest = after;
            }
            Err(error) => return Err(error),
        }
    }
    Ok((snapshots, rest))
}

/// Reads an open snapshot.
#[tactic(auto, unfolding(crate::specs::Reading::snapshot_at))]
fn snapshot_at(bytes: &[u8]) -> Result<(Snapshot, &[u8]), DecodeError>
    ensures { Gives (λ x. (x.0, x.1.now)) result (snapshot_at bytes.now) }
{
    let (id, rest) = u64_at(bytes)?;
    let (stamp, rest) = u64_at(rest)?;
    let stamp = Stamp::from_bits(stamp);
    Ok((Snapshot { id, stamp }, rest))
}

/// Reads this many rows.
pub fn rows_at(alloc: Global, count: u64, bytes: &[u8]) -> Result<(Vec<Row>, &[u8]), DecodeError>
    ensures { Gives (λ x. (x.0.items, x.1.now)) result (times_at row_at count bytes.now) }
{
    let mut rows = Vec::new(alloc);
    let mut rest = bytes;
    for _ in 0..count {
        match row_at(alloc, rest) {
            Ok((row, after)) => {
                rows.push(row)?;
                rest = after;
            }
            Err(error) => return Err(error),
        }
    }
    Ok((rows, rest))
}

/// Reads a row.
#[tactic(auto, unfolding(crate::specs::Reading::row_at))]
pub fn row_at(alloc: Global, bytes: &[u8]) -> Result<(Row, &[u8]), DecodeError>
    ensures { Gives (λ x. (x.0, x.1.now)) result (row_at bytes.now) }
{
    let (key, rest) = key_at(alloc, bytes)?;
    let (stamp, rest) = u64_at(rest)?;
    let (node, rest) = u16_at(rest)?;
    let (value, rest) = value_at(alloc, rest)?;
    let stamp = Stamp::from_bits(stamp);
    Ok((
        Row {
            key,
            stamp,
            node,
            value,
        },
        rest,
    ))
}
