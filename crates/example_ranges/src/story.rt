//! The whole story: two machines write, readers open snapshots at the cut, all stores are vacuumed, restored from
//! checkpoints, and a third machine joins.

use crate::feed::{both, report, write, write_batch};
use crate::reads::{put_cut, put_list, put_read};
use crate::stopped::Stopped;
use crate::towns::{by_hash, by_names, joined, machine, new_stores, restored};
use hlc::certificate::{Printer, Watched};
use hlc::ranges::{Machine, Ranges, RangesSnapshot};
use hlc::{Bytes, Stamp};
use std::alloc::Global;
use std::io::Write;

/// The stores, and two machines that write to them.
#[derive(Drop)]
struct Towns {
    ranges: Ranges,
    west: Machine,
    east: Machine,
}

/// Prints how the machines write to the stores, and what readers see at their cuts.
pub(crate) fn run<W: Write>(alloc: Global, writer: &mut Watched<W>) -> Result<(), Stopped> {
    let mut printer = Printer::new(writer);
    let mut towns = Towns {
        ranges: new_stores(alloc, by_names(alloc)?, 2)?,
        west: machine(alloc, 0)?,
        east: machine(alloc, 1)?,
    };
    put_first_writes(alloc, &mut printer, &mut towns)?;
    put_misrouted(alloc, &mut printer, &mut towns)?;
    put_cut(&mut printer, &towns.ranges);
    report_both(alloc, &mut towns, 12)?;
    put_cut(&mut printer, &towns.ranges);
    let early = towns.ranges.open_cut(alloc)?;
    for key in [b"athens".as_slice(), b"lyon", b"oslo", b"porto", b"rome"] {
        put_read(&mut printer, &towns.ranges, &early, key)?;
    }
    put_later_writes(alloc, &mut printer, &mut towns, early.stamp())?;
    report_both(alloc, &mut towns, 15)?;
    let late = towns.ranges.open_cut(alloc)?;
    for snapshot in [&early, &late] {
        put_read(&mut printer, &towns.ranges, snapshot, b"lyon")?;
        put_read(&mut printer, &towns.ranges, snapshot, b"rome")?;
    }
    put_list(alloc, &mut printer, &towns.ranges, &late, None)?;
    towns.ranges.close_all(&early)?;
    put_vacuum(alloc, &mut printer, &mut towns.ranges, late.stamp())?;
    put_restored(alloc, &mut printer, &towns.ranges, &late)?;
    put_third(alloc, &mut printer, &mut towns.ranges)?;
    put_batches(alloc, &mut printer, &mut towns)?;
    put_hashed(alloc, &mut printer)?;
    printer.finish();
    Ok(())
}

/// Lets two machines write, each at its own reading of a physical clock, which comes from outside.
fn put_first_writes<W: Write>(
    alloc: Global,
    printer: &mut Printer<'_, W>,
    towns: &mut Towns,
) -> Result<(), Stopped> {
    let (ranges, west) = (&mut towns.ranges, &mut towns.west);
    put_write(alloc, printer, ranges, west, 10, b"rome", Some(b"metro"))?;
    put_write(alloc, printer, ranges, west, 10, b"athens", Some(b"metro"))?;
    put_write(
        alloc,
        printer,
        ranges,
        &mut towns.east,
        9,
        b"lyon",
        Some(b"metro"),
    )?;
    // A message from west to east: what east writes later has a greater stamp, though its physical clock is behind.
    let sent = west.send(10)?;
    towns.east.receive(sent, 9)?;
    Ok(())
}

/// Offers an item to a store that does not have its key, which returns it, and then to the key's store.
fn put_misrouted<W: Write>(
    alloc: Global,
    printer: &mut Printer<'_, W>,
    towns: &mut Towns,
) -> Result<(), Stopped> {
    let key = Bytes::from_slice(alloc, b"porto")?;
    let value = Bytes::from_slice(alloc, b"tram")?;
    let (store, item) = towns
        .east
        .write(towns.ranges.division(), 9, key, Some(value))?;
    let stamp = item.stamp;
    match towns.ranges.accept(1, item) {
        Ok(_) => Ok(()),
        Err((fault, item)) => {
            printer.put_named_number(b"store 1 refuses porto: ", u64::from(fault.code()));
            printer.put(b"\n");
            towns.ranges.accept(store, item)?;
            put_accepted(printer, store, b"porto", stamp);
            Ok(())
        }
    }
}

/// Lets a machine write a value and the other one delete a key, after they saw what a snapshot has at a stamp.
fn put_later_writes<W: Write>(
    alloc: Global,
    printer: &mut Printer<'_, W>,
    towns: &mut Towns,
    seen: Stamp,
) -> Result<(), Stopped> {
    towns.west.observe(seen, 13)?;
    put_write(
        alloc,
        printer,
        &mut towns.ranges,
        &mut towns.west,
        14,
        b"lyon",
        Some(b"tram"),
    )?;
    put_write(
        alloc,
        printer,
        &mut towns.ranges,
        &mut towns.east,
        14,
        b"rome",
        None,
    )
}

/// Lets both machines report to all stores, so that the cut rises.
fn report_both(alloc: Global, towns: &mut Towns, reading: u64) -> Result<(), Stopped> {
    report(alloc, &mut towns.ranges, &mut towns.west, reading)?;
    report(alloc, &mut towns.ranges, &mut towns.east, reading)
}

/// Vacuums all stores, and prints how many rows each has dropped.
fn put_vacuum<W: Write>(
    alloc: Global,
    printer: &mut Printer<'_, W>,
    ranges: &mut Ranges,
    at: Stamp,
) -> Result<(), Stopped> {
    let reports = ranges.vacuum_to(alloc, at)?;
    for (store, report) in reports.iter().enumerate() {
        printer.put_named_number(b"store ", store as u64);
        printer.put_named_count(b" drops ", report.dropped);
        printer.put(b" rows\n");
    }
    Ok(())
}

/// Restores all stores from their checkpoints: an open snapshot is open there too.
fn put_restored<W: Write>(
    alloc: Global,
    printer: &mut Printer<'_, W>,
    ranges: &Ranges,
    snapshot: &RangesSnapshot,
) -> Result<(), Stopped> {
    let checkpoints = ranges.checkpoints(alloc)?;
    let again = restored(alloc, by_names(alloc)?, checkpoints.as_slice())?;
    put_cut(printer, &again);
    put_read(printer, &again, snapshot, b"lyon")
}

/// Lets a third machine join all stores, and write.
fn put_third<W: Write>(
    alloc: Global,
    printer: &mut Printer<'_, W>,
    ranges: &mut Ranges,
) -> Result<(), Stopped> {
    let made = ranges.join(alloc)?;
    for (store, (node, start)) in made.iter().enumerate() {
        printer.put_named_number(b"store ", store as u64);
        printer.put_named_number(b" has node ", u64::from(*node));
        printer.put_named_stamp(b" from ", *start);
        printer.put(b"\n");
    }
    let mut third = joined(alloc, made.as_slice())?;
    put_write(
        alloc,
        printer,
        ranges,
        &mut third,
        15,
        b"bergen",
        Some(b"tram"),
    )
}

/// Lets a machine write two keys of one store at one stamp, and refuse two keys of different stores.
fn put_batches<W: Write>(
    alloc: Global,
    printer: &mut Printer<'_, W>,
    towns: &mut Towns,
) -> Result<(), Stopped> {
    let (ranges, west) = (&mut towns.ranges, &mut towns.west);
    let writes = both(alloc, b"bergen", b"bonn", b"bus")?;
    let (store, stamp) = write_batch(ranges, west, 16, writes)?;
    put_accepted(printer, store, b"bergen", stamp);
    put_accepted(printer, store, b"bonn", stamp);
    let apart = both(alloc, b"bonn", b"rome", b"bus")?;
    match west.write_batch(ranges.division(), 16, apart) {
        Ok(_) => Ok(()),
        Err(refused) => {
            printer.put_named_number(
                b"west refuses bonn with rome: ",
                u64::from(refused.why.code()),
            );
            printer.put(b"\n");
            Ok(())
        }
    }
}

/// Lets one machine write to stores that have their keys by a hash: a listing is in the order of the keys there too.
fn put_hashed<W: Write>(alloc: Global, printer: &mut Printer<'_, W>) -> Result<(), Stopped> {
    let mut ranges = new_stores(alloc, by_hash()?, 1)?;
    let mut west = machine(alloc, 0)?;
    for key in [b"athens".as_slice(), b"bergen", b"lyon", b"oslo"] {
        put_write(
            alloc,
            printer,
            &mut ranges,
            &mut west,
            20,
            key,
            Some(b"bus"),
        )?;
    }
    report(alloc, &mut ranges, &mut west, 21)?;
    let snapshot = ranges.open_cut(alloc)?;
    put_list(alloc, printer, &ranges, &snapshot, Some(b"o"))
}

/// Lets a machine write copies of these bytes, or delete a key, and prints which store accepted the item.
fn put_write<W: Write>(
    alloc: Global,
    printer: &mut Printer<'_, W>,
    ranges: &mut Ranges,
    machine: &mut Machine,
    reading: u64,
    key: &[u8],
    value: Option<&[u8]>,
) -> Result<(), Stopped> {
    let value = match value {
        None => None,
        Some(bytes) => Some(Bytes::from_slice(alloc, bytes)?),
    };
    let (store, stamp) = write(
        ranges,
        machine,
        reading,
        Bytes::from_slice(alloc, key)?,
        value,
    )?;
    put_accepted(printer, store, key, stamp);
    Ok(())
}

/// Prints that a store accepted an item.
fn put_accepted<W: Write>(printer: &mut Printer<'_, W>, store: usize, key: &[u8], stamp: Stamp) {
    printer.put_named_number(b"store ", store as u64);
    printer.put_named_bytes(b" accepts ", key);
    printer.put_named_stamp(b" at ", stamp);
    printer.put(b"\n");
}
