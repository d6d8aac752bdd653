//! The stores, and the machines that write to them.

use crate::stopped::Stopped;
use hlc::ranges::{Division, Machine, Ranges};
use hlc::{Bytes, Checkpoint, Core, NodeCore, Stamp};
use std::alloc::Global;

/// Divides the keys by ranges: the names below "h", those below "p", and the others.
pub(crate) fn by_names(alloc: Global) -> Result<Division, Stopped> {
    let mut boundaries = Vec::new(alloc);
    boundaries.push(Bytes::from_slice(alloc, b"h")?)?;
    boundaries.push(Bytes::from_slice(alloc, b"p")?)?;
    match Division::by_keys(boundaries) {
        Some(division) => Ok(division),
        None => Err(Stopped::NotDivided),
    }
}

/// Divides the keys over three stores by their hash.
pub(crate) fn by_hash() -> Result<Division, Stopped> {
    match Division::by_hash(3) {
        Some(division) => Ok(division),
        None => Err(Stopped::NotDivided),
    }
}

/// Returns new stores for a division, each with this many nodes.
pub(crate) fn new_stores(alloc: Global, division: Division, nodes: u16) -> Result<Ranges, Stopped> {
    let mut stores = Vec::new(alloc);
    for _ in 0..division.stores() {
        stores.push(Core::new(alloc, nodes)?)?;
    }
    of_stores(division, stores)
}

/// Returns stores with the state of these checkpoints.
pub(crate) fn restored(
    alloc: Global,
    division: Division,
    checkpoints: &[Checkpoint],
) -> Result<Ranges, Stopped> {
    let mut stores = Vec::new(alloc);
    for checkpoint in checkpoints {
        stores.push(Core::restore(alloc, checkpoint)??)?;
    }
    of_stores(division, stores)
}

/// Returns these stores under a division.
fn of_stores(division: Division, stores: Vec<Core>) -> Result<Ranges, Stopped> {
    match Ranges::of(division, stores) {
        Some(ranges) => Ok(ranges),
        None => Err(Stopped::NotDivided),
    }
}

/// Returns a machine whose node has this number in each of the three stores.
pub(crate) fn machine(alloc: Global, node: u16) -> Result<Machine, Stopped> {
    let mut nodes = Vec::new(alloc);
    for _ in 0..3 {
        nodes.push(NodeCore::new(node, Stamp::ZERO))?;
    }
    Ok(Machine::of(Stamp::ZERO, nodes))
}

/// Returns a machine for the node that joined the stores with these numbers and starts. Its clock begins at the
/// greatest start.
pub(crate) fn joined(alloc: Global, made: &[(u16, Stamp)]) -> Result<Machine, Stopped> {
    let mut nodes = Vec::new(alloc);
    let mut last = Stamp::ZERO;
    for (node, start) in made {
        nodes.push(NodeCore::new(*node, *start))?;
        last = last.max(*start);
    }
    Ok(Machine::of(last, nodes))
}
