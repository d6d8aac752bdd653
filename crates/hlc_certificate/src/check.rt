//! A whole check: reads the bytes of a certificate, and writes one line.
ghost use Rattle.std.specs.Prelude.{◌≡◌, ◌↔◌, ◌++◌, ℕ, List, false, true, decimal};
ghost use Rattle.std.specs.Io.KnownBytes.{Consumes};
ghost use Rattle.hlc_text.specs.{Watched.inner_of, Watched.has_failed, Printing.Prints, Text.printed, Input.IsInput};
ghost use Rattle.hlc_certificate.specs.Check.{MayAnswer, MayEnd, MayTake, RunsCheck, answer_output, fewest_line};
ghost use Rattle.hlc_certificate.specs.Check.{check_status};

use crate::certificate::{NoCertificate, read_certificate};
use hlc_text::input::{InputFault, put_fault, read_input};
use hlc_text::printer::Printer;
use hlc_text::watched::Watched;
use hlc_witness::{NotShown, check};
use std::alloc::Global;
use std::io::{Read, Write};

/// How a check ended.
#[derive(Clone, Copy, Debug, PartialEq, Eq)]
pub enum CheckEnd {
    /// The rows, `count` of them, are the fewest that give the same answers at the points, and `bytes` is the least
    /// cost.
    Fewest { count: u64, bytes: u128 },
    /// The witnesses do not show that the rows are the fewest.
    NotShown(NotShown),
    /// The line of this number is the first bad one. The first line has number 1.
    BadLine(u64),
    /// No line is bad, but it ran out of memory for the points, rows and witnesses.
    NoMemory,
    /// The input could not be loaded.
    NotLoaded(InputFault),
    /// A write failed.
    WriteFault,
}

impl CheckEnd {
    /// Returns the exit status of the program: 0 where the rows are the fewest, 3 where a write failed, and 2
    /// otherwise.
    pub fn status(self) -> u8
        ensures { result ≡ check_status self }
    {
        match self {
            CheckEnd::Fewest { .. } => 0,
            CheckEnd::WriteFault => 3,
            _ => 2,
        }
    }
}

/// Reads a whole certificate, writes one line that says whether its rows are shown to be the fewest, and returns how
/// the check ended. Bad lines are found before the certificate is checked.
pub fn run_check<R: Read, W: Write>(
    alloc: Global,
    reader: &mut Watched<R>,
    writer: &mut Watched<W>,
) -> CheckEnd
    requires reader_well { has_failed reader.old ≡ false }
    requires writer_well { has_failed writer.old ≡ false }
    ensures { RunsCheck R.remaining W.contents reader.old reader.new writer.old writer.new result }
{
    let end = check_reader(alloc, reader);
    let mut printer = Printer::new(writer);
    put_end(&mut printer, end);
    printer.finish();
    if writer.failed() {
        CheckEnd::WriteFault
    } else {
        end
    }
}

/// Checks all that the reader has left.
fn check_reader<R: Read>(alloc: Global, reader: &mut Watched<R>) -> CheckEnd
    requires { has_failed reader.old ≡ false }
    ensures answer { (input : List ℕ) × (taken : List ℕ)
        × IsInput (R.remaining (inner_of reader.old)) input
        × Consumes (R.remaining (inner_of reader.old)) (R.remaining (inner_of reader.new)) taken
        × MayTake input taken result × MayAnswer input result }
    ensures read_fault { (result ≡ CheckEnd.NotLoaded InputFault.ReadFault)
        ↔ (has_failed reader.new ≡ true) }
{
    match read_input(alloc, reader) {
        Ok(input) => check_input(alloc, input.as_slice()),
        Err(fault) => CheckEnd::NotLoaded(fault),
    }
}

/// Checks an input that is in memory, as `run_check` does once it has read one. It may have any length. It searches
/// all lines for the first bad one, so running out of memory before a bad line never hides it.
pub fn check_input(alloc: Global, input: &[u8]) -> CheckEnd
    ensures { MayEnd input.now result }
{
    let certificate = match read_certificate(alloc, input) {
        Ok(certificate) => certificate,
        Err(NoCertificate::BadLine(number)) => return CheckEnd::BadLine(number),
        Err(NoCertificate::NoMemory) => return CheckEnd::NoMemory,
    };
    let rows = certificate.rows.as_slice();
    let points = certificate.points.as_slice();
    match check(rows, points, certificate.witnesses.as_slice()) {
        Ok(shown) => CheckEnd::Fewest {
            count: shown.count(),
            bytes: shown.cost(),
        },
        Err(reason) => CheckEnd::NotShown(reason),
    }
}

/// Prints the line for an end.
fn put_end<W: Write>(printer: &mut Printer<'_, W>, end: CheckEnd)
    ensures { Prints W.contents printer.old printer.new (answer_output end) }
{
    match end {
        CheckEnd::Fewest { count, bytes } => put_fewest(printer, count, bytes),
        CheckEnd::NotShown(reason) => {
            put_number_line(printer, b"refused 22 reason ", u64::from(reason.reason()))
        }
        CheckEnd::BadLine(number) => put_number_line(printer, b"refused 16 line ", number),
        CheckEnd::NoMemory => put_fault(printer, InputFault::NoMemory),
        CheckEnd::NotLoaded(fault) => put_fault(printer, fault),
        CheckEnd::WriteFault => {}
    }
}

/// Prints how many rows are the fewest, and what they cost.
fn put_fewest<W: Write>(printer: &mut Printer<'_, W>, count: u64, bytes: u128)
    ensures { Prints W.contents printer.old printer.new (printed (fewest_line count bytes)) }
{
    printer.put_named_number(b"fewest ", count);
    printer.put_named_count(b" bytes ", bytes);
    printer.put(b"\n");
}

/// Prints a line of some words and a number.
fn put_number_line<W: Write>(printer: &mut Printer<'_, W>, name: &[u8], number: u64)
    ensures { Prints W.contents printer.old printer.new (printed (name.now ++ decimal number)) }
{
    printer.put_named_number(name, number);
    printer.put(b"\n");
}
