//! The printed output of a storm.
ghost use Rattle.std.specs.{Prelude.map, Prelude.◌≡◌, List.flat_map};
ghost use Rattle.hlc_text.specs.{Text.printed, Watched.has_failed, Printing.Prints, Printing.Writes};
ghost use Rattle.hlc_storm_report.specs.Printed.{accepted_line, accepted_lines, storm_pair_line, report_text};
ghost use Rattle.hlc_storm_report.specs.Printed.{work_line, storm_fault_line, storm_text, storm_status};

use crate::report::{StormFault, StormReport};
use hlc_core::Pair;
use hlc_server::{NotDone, SettleFault, WorkEnd};
use hlc_text::printer::Printer;
use hlc_text::watched::Watched;
use std::io::Write;

/// Prints what a storm found, or the one line that refuses it, and returns the exit status: 0 where the storm settled,
/// 3 where a write failed, and 2 otherwise. It takes no memory.
pub fn print_storm<W: Write>(
    writer: &mut Watched<W>,
    outcome: &Result<StormReport, StormFault>,
) -> u8
    ensures written { Writes W.contents writer.old writer.new (storm_text outcome.now) }
    ensures status { result ≡ storm_status (has_failed writer.new) outcome.now }
{
    print_outcome(writer, outcome);
    if writer.failed() {
        return 3;
    }
    match outcome {
        Ok(_) => 0,
        Err(_) => 2,
    }
}

/// Prints the outcome with a new printer, and writes all that waits.
fn print_outcome<W: Write>(writer: &mut Watched<W>, outcome: &Result<StormReport, StormFault>)
    ensures { Writes W.contents writer.old writer.new (storm_text outcome.now) }
{
    let mut printer = Printer::new(writer);
    put_outcome(&mut printer, outcome);
    printer.finish();
}

fn put_outcome<W: Write>(printer: &mut Printer<'_, W>, outcome: &Result<StormReport, StormFault>)
    ensures { Prints W.contents printer.old printer.new (storm_text outcome.now) }
{
    match outcome {
        Ok(report) => put_report(printer, report),
        Err(fault) => {
            put_fault(printer, *fault);
            printer.put(b"\n");
        }
    }
}

/// Prints the lines of a report.
fn put_report<W: Write>(printer: &mut Printer<'_, W>, report: &StormReport)
    ensures { Prints W.contents printer.old printer.new (report_text report.now) }
{
    put_counts(printer, report.accepted.as_slice());
    printer.put_named_stamp(b"floor ", report.floor);
    printer.put(b"\n");
    put_pairs(printer, report.pairs.as_slice());
    printer.put_named_number(b"kept ", report.kept);
    printer.put(b"\n");
    printer.put(b"history legal\n");
}

/// Prints how many items of each node were accepted.
fn put_counts<W: Write>(printer: &mut Printer<'_, W>, counts: &[u64])
    ensures { Prints W.contents printer.old printer.new
        (flat_map printed (accepted_lines 0 counts.now)) }
{
    for (node, count) in counts.iter().enumerate() {
        put_count(printer, node as u64, *count);
    }
}

fn put_count<W: Write>(printer: &mut Printer<'_, W>, node: u64, count: u64)
    ensures { Prints W.contents printer.old printer.new (printed (accepted_line node count)) }
{
    printer.put_named_number(b"accepted ", node);
    printer.put_named_number(b" ", count);
    printer.put(b"\n");
}

/// Prints the keys with their values.
fn put_pairs<W: Write>(printer: &mut Printer<'_, W>, pairs: &[Pair])
    ensures { Prints W.contents printer.old printer.new
        (flat_map printed (map storm_pair_line pairs.now)) }
{
    for pair in pairs {
        put_pair(printer, pair);
    }
}

fn put_pair<W: Write>(printer: &mut Printer<'_, W>, pair: &Pair)
    ensures { Prints W.contents printer.old printer.new (printed (storm_pair_line pair.now)) }
{
    printer.put_bytes(pair.key.as_slice());
    printer.put_named_bytes(b" ", pair.value.as_slice());
    printer.put(b"\n");
}

/// Prints the text of a refusal.
fn put_fault<W: Write>(printer: &mut Printer<'_, W>, fault: StormFault)
    ensures { Prints W.contents printer.old printer.new (storm_fault_line fault) }
{
    match fault {
        StormFault::Work(end) => put_end(printer, end),
        StormFault::Settle(SettleFault::NoTrail) => printer.put(b"refused 24"),
        StormFault::Settle(SettleFault::ReceiptMismatch { index }) => {
            printer.put_named_number(b"refused 21 index ", index)
        }
        StormFault::NoMemory => printer.put(b"refused 15"),
    }
}

fn put_end<W: Write>(printer: &mut Printer<'_, W>, end: WorkEnd)
    ensures { Prints W.contents printer.old printer.new (work_line end) }
{
    match end {
        WorkEnd::Spent(NotDone::NumbersSpent) => printer.put(b"refused 14"),
        WorkEnd::Spent(NotDone::NoMemory) => printer.put(b"refused 15"),
        _ => printer.put(b"refused 23"),
    }
}
