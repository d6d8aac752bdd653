//! How the items of a machine reach the stores: the machine stamps an item for the store of the key, and that store
//! accepts it over the link of the machine's node there. In a database a replicated log of each store carries the
//! items.

use crate::stopped::Stopped;
use hlc::ranges::{Machine, Ranges};
use hlc::{Bytes, Listed, Stamp, Write};
use std::alloc::Global;

/// Lets a machine write or delete a key, and delivers the item to the store of the key. Returns the number of that
/// store, and the stamp.
pub(crate) fn write(
    ranges: &mut Ranges,
    machine: &mut Machine,
    reading: u64,
    key: Bytes,
    value: Option<Bytes>,
) -> Result<(usize, Stamp), Stopped> {
    let (store, item) = machine.write(ranges.division(), reading, key, value)?;
    let stamp = item.stamp;
    ranges.accept(store, item)?;
    Ok((store, stamp))
}

/// Lets a machine write some keys of one store at one stamp, and delivers the item to that store. Returns the number of
/// that store, and the stamp.
pub(crate) fn write_batch(
    ranges: &mut Ranges,
    machine: &mut Machine,
    reading: u64,
    writes: Listed<Write>,
) -> Result<(usize, Stamp), Stopped> {
    let (store, item) = machine.write_batch(ranges.division(), reading, writes)?;
    let stamp = item.stamp;
    ranges.accept(store, item)?;
    Ok((store, stamp))
}

/// Returns writes of a value to two keys.
pub(crate) fn both(
    alloc: Global,
    first: &[u8],
    second: &[u8],
    value: &[u8],
) -> Result<Listed<Write>, Stopped> {
    let mut writes = Vec::new(alloc);
    for key in [first, second] {
        writes.push(Write {
            key: Bytes::from_slice(alloc, key)?,
            value: Some(Bytes::from_slice(alloc, value)?),
        })?;
    }
    Ok(Listed::from_vec(writes))
}

/// Lets a machine report to all stores, and delivers the reports.
pub(crate) fn report(
    alloc: Global,
    ranges: &mut Ranges,
    machine: &mut Machine,
    reading: u64,
) -> Result<(), Stopped> {
    let reports = machine.report_all(alloc, reading)?;
    for (store, item) in reports.into_iter().enumerate() {
        ranges.accept(store, item)?;
    }
    Ok(())
}
