//! Prints certificates.
ghost use Rattle.std.specs.Prelude.{map, ◌<◌, ◌^◌, ◌++◌, codes};
ghost use Rattle.std.specs.List.{flat_map, AllByRecursion};
ghost use Rattle.hlc_text.specs.{Lines.lines_of, Lines.spaced, Printing.Prints};
ghost use Rattle.hlc_text.specs.Text.{printed, bytes_token, AreBytes};
ghost use Rattle.hlc_clock.specs.Stamp.{stamp_text};
ghost use Rattle.hlc_certificate.specs.CheckLine.{before_token, HasBeforeToken, value_words, HasValueWords};
ghost use Rattle.hlc_certificate.specs.CheckLine.{HasCheckLine, AreLinesOf, says_point, says_row, says_witness};
ghost use Rattle.hlc_certificate.specs.CertificateText.{certificate_text, point_line, row_line, witness_line};

use hlc_clock::Stamp;
use hlc_rows::{Bytes, Row};
use hlc_text::printer::Printer;
use hlc_witness::Witness;
use std::io::Write;

/// Prints a certificate: the lines of its points, then of its rows, and then of its witnesses. It does not check what
/// they say.
pub fn put_certificate<W: Write>(
    printer: &mut Printer<'_, W>,
    points: &[Stamp],
    rows: &[Row],
    witnesses: &[Witness],
)
    ensures text { Prints W.contents printer.old printer.new
        (certificate_text points.now rows.now witnesses.now) }
    ensures lines { AreLinesOf points.now rows.now witnesses.now
        (lines_of (certificate_text points.now rows.now witnesses.now)) }
{
    put_points(printer, points);
    put_rows(printer, rows);
    put_witnesses(printer, witnesses);
}

fn put_points<W: Write>(printer: &mut Printer<'_, W>, points: &[Stamp])
    ensures text { Prints W.contents printer.old printer.new
        (flat_map printed (map point_line points.now)) }
    ensures fits { AllByRecursion HasCheckLine (map says_point points.now) }
{
    for point in points {
        put_point(printer, *point);
    }
}

fn put_point<W: Write>(printer: &mut Printer<'_, W>, point: Stamp)
    ensures text { Prints W.contents printer.old printer.new (printed (point_line point)) }
    ensures fits { HasCheckLine (says_point point) }
{
    put_stamp_after(printer, b"point ", point);
    printer.put(b"\n");
}

fn put_rows<W: Write>(printer: &mut Printer<'_, W>, rows: &[Row])
    ensures text { Prints W.contents printer.old printer.new
        (flat_map printed (map row_line rows.now)) }
    ensures fits { AllByRecursion HasCheckLine (map says_row rows.now) }
{
    for row in rows {
        put_row(printer, row);
    }
}

fn put_row<W: Write>(printer: &mut Printer<'_, W>, row: &Row)
    ensures text { Prints W.contents printer.old printer.new (printed (row_line row.now)) }
    ensures fits { HasCheckLine (says_row row.now) }
{
    put_bytes_after(printer, b"row ", row.key.as_slice());
    put_stamp_after(printer, b" ", row.stamp);
    printer.put_named_number(b" ", row.node as u64);
    put_value(printer, &row.value);
    printer.put(b"\n");
}

/// Prints the words of a value, or of a deletion mark, after a space.
fn put_value<W: Write>(printer: &mut Printer<'_, W>, value: &Option<Bytes>)
    ensures text { Prints W.contents printer.old printer.new
        (codes " " ++ spaced (value_words value.now)) }
    ensures fits { HasValueWords value.now }
{
    match value {
        None => printer.put(b" delete"),
        Some(bytes) => put_bytes_after(printer, b" value ", bytes.as_slice()),
    }
}

/// Prints the lines of some changes, in the form of a certificate.
pub fn put_witnesses<W: Write>(printer: &mut Printer<'_, W>, witnesses: &[Witness])
    ensures text { Prints W.contents printer.old printer.new
        (flat_map printed (map witness_line witnesses.now)) }
    ensures fits { AllByRecursion HasCheckLine (map says_witness witnesses.now) }
{
    for witness in witnesses {
        put_witness(printer, witness);
    }
}

/// Prints the line of a change, in the form of a certificate.
fn put_witness<W: Write>(printer: &mut Printer<'_, W>, witness: &Witness)
    ensures text { Prints W.contents printer.old printer.new (printed (witness_line witness.now)) }
    ensures fits { HasCheckLine (says_witness witness.now) }
{
    put_bytes_after(printer, b"witness ", witness.key.as_slice());
    put_before(printer, witness.before);
    put_stamp_after(printer, b" ", witness.at);
    printer.put(b"\n");
}

fn put_before<W: Write>(printer: &mut Printer<'_, W>, before: Option<Stamp>)
    ensures text { Prints W.contents printer.old printer.new (codes " " ++ before_token before) }
    ensures fits { HasBeforeToken before }
{
    match before {
        None => printer.put(b" none"),
        Some(stamp) => put_stamp_after(printer, b" ", stamp),
    }
}

// The words of stamps and bytes. Their types ensure that what is printed fits.

/// Prints some words, followed by the stamp.
fn put_stamp_after<W: Write>(printer: &mut Printer<'_, W>, name: &[u8], stamp: Stamp)
    ensures text { Prints W.contents printer.old printer.new (name.now ++ stamp_text stamp) }
    ensures fits { stamp < 2 ^ 64 }
{
    prove!(stamp.bits() <= u64::MAX);
    printer.put_named_stamp(name, stamp);
}

/// Prints some words, followed by the word that spells the bytes.
fn put_bytes_after<W: Write>(printer: &mut Printer<'_, W>, name: &[u8], bytes: &[u8])
    ensures text { Prints W.contents printer.old printer.new (name.now ++ bytes_token bytes.now) }
    ensures fits { AreBytes bytes.now }
{
    printer.put_named_bytes(name, bytes);
}
