//! What the program prints of the stores, a line each.

use crate::stopped::Stopped;
use hlc::certificate::Printer;
use hlc::ranges::{Ranges, RangesSnapshot};
use std::alloc::Global;
use std::io::Write;

/// Prints the value that a key has in a snapshot of all stores.
pub(crate) fn put_read<W: Write>(
    printer: &mut Printer<'_, W>,
    ranges: &Ranges,
    snapshot: &RangesSnapshot,
    key: &[u8],
) -> Result<(), Stopped> {
    let value = ranges.read_at(snapshot, key)?;
    printer.put_named_bytes(b"read ", key);
    printer.put_named_stamp(b" at ", snapshot.stamp());
    match value {
        None => printer.put(b" none"),
        Some(bytes) => printer.put_named_bytes(b" value ", bytes),
    }
    printer.put(b"\n");
    Ok(())
}

/// Prints the keys below `to`, or all keys, that have a value in a snapshot of all stores, in their order.
pub(crate) fn put_list<W: Write>(
    alloc: Global,
    printer: &mut Printer<'_, W>,
    ranges: &Ranges,
    snapshot: &RangesSnapshot,
    to: Option<&[u8]>,
) -> Result<(), Stopped> {
    let pairs = ranges.list_at(alloc, snapshot, b"", to)?;
    printer.put_named_stamp(b"list at ", snapshot.stamp());
    printer.put(b"\n");
    for pair in pairs.as_slice() {
        printer.put_named_bytes(b"key ", pair.key.as_slice());
        printer.put_named_bytes(b" value ", pair.value.as_slice());
        printer.put(b"\n");
    }
    Ok(())
}

/// Prints the cut of all stores.
pub(crate) fn put_cut<W: Write>(printer: &mut Printer<'_, W>, ranges: &Ranges) {
    printer.put_named_stamp(b"cut ", ranges.cut());
    printer.put(b"\n");
}
