//! The small callers in the READMEs of the text, of scripts and of certificates, each with what it may rely on.
ghost use Rattle.std.specs.Prelude.{◌≡◌, ℕ, true, List, IfOk, IsOk, IfSome, IsOkAnd};
ghost use Rattle.hlc_text.specs.Printing.{Writes};
ghost use Rattle.hlc_witness.specs.Certificate.{IsCertificate};
ghost use Rattle.hlc_certificate.specs.{CertificateText.certificate_text, ReadBack.IsAnsweredFewest};
ghost use Rattle.hlc_core.specs.{Past.Step, StoreView.Represents};
ghost use Rattle.hlc_world_event.specs.Events.{Event as AnEvent};
ghost use Rattle.hlc_line.specs.Line.{HasLine, event_line};

use hlc_certificate::{printed_certificates_show_fewest, put_certificate};
use hlc_core::{Core, NoMemory, Row, Stamp, Witness};
use hlc_line::read_line;
use hlc_text::number::number;
use hlc_text::printer::Printer;
use hlc_text::watched::Watched;
use hlc_witness::{NotShown, Shown, check};
use std::io::Write;

/// Prints the number that the word spells, and returns it.
pub(crate) fn echo<W: Write>(writer: &mut Watched<W>, word: &[u8]) -> Option<u64>
    ensures { IfSome result (λ _. Writes W.contents writer.old writer.new word.now) }
{
    let (value, mut printer) = (number(word)?, Printer::new(writer));
    printer.put_number(value);
    printer.finish();
    Some(value)
}

/// Returns whether a line is not the line of an event.
pub(crate) fn is_bad(line: &[u8]) -> bool
    ensures { result ≡ true → (event : AnEvent) → HasLine event → line.now ≡ event_line event → ⊥ }
{
    read_line(line).is_none()
}

/// Writes a certificate, unless its witnesses do not show that the rows are the fewest. A check of what is written
/// answers their number and their cost.
pub(crate) fn write_certificate<W: Write>(
    writer: &mut Watched<W>,
    points: &[Stamp],
    rows: &[Row],
    witnesses: &[Witness],
) -> Result<Shown, NotShown>
    ensures written { IfOk result (λ _. Writes W.contents writer.old writer.new
        (certificate_text points.now rows.now witnesses.now)) }
    ensures answered { IfOk result (λ shown.
        IsAnsweredFewest (certificate_text points.now rows.now witnesses.now)
        shown.rows shown.cost) }
    ensures only { IsCertificate rows.now points.now witnesses.now → IsOk result }
{
    let (shown, mut printer) = (check(rows, points, witnesses)?, Printer::new(writer));
    put_certificate(&mut printer, points, rows, witnesses);
    printer.finish();
    printed_certificates_show_fewest();
    Ok(shown)
}

/// Vacuums a store, and writes the certificate of the rows that are left up to its floor (closed timestamp). The
/// witnesses always show that these rows are the fewest.
pub(crate) fn write_vacuum<W: Write>(
    core: &mut Core,
    writer: &mut Watched<W>,
) -> Result<Result<Shown, NotShown>, NoMemory>
    ensures { (past : List Step) → Represents core.old past
        → IfOk result (λ shown. IsOkAnd shown (λ least. (text : List ℕ)
        × Writes W.contents writer.old writer.new text
        × IsAnsweredFewest text least.rows least.cost)) }
{
    let report = core.vacuum()?;
    let rows = core.rows_to(report.floor)?;
    let points = report.points.as_slice();
    Ok(write_certificate(writer, points, rows.as_slice(), report.witnesses.as_slice()))
}
