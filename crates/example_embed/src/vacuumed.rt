//! A vacuum whose certificate is printed, so that anybody can check that it left the fewest rows.
ghost use Rattle.std.specs.Prelude.{◌≡◌, ◌∷◌, ℕ, List, IfOk, IfErr, IsOk};
ghost use Rattle.hlc.specs.Certificate.{IsCertificate, certificate_text, IsAnsweredFewest};
ghost use Rattle.hlc.specs.{Store.Step, Store.Vacuumed, Store.floor, Store.Represents, Text.Prints};
ghost use Rattle.example_embed.specs.Printed.{Certifies};

use crate::stopped::Stopped;
use hlc::certificate::{
    NotShown, Printer, Shown, check, printed_certificates_show_fewest, put_certificate,
};
use hlc::{Core, Row, Stamp, Witness};
use std::io::Write;

/// Vacuums the store, and prints the certificate of the rows that are left up to its floor. The witnesses always show
/// that these rows are the fewest.
pub(crate) fn put_vacuum<W: Write>(
    printer: &mut Printer<'_, W>,
    core: &mut Core,
) -> Result<Shown, Stopped>
    ensures represents { (past : List Step) → Represents core.old past
        → IfOk result (λ _. Represents core.new (Vacuumed (floor past) ∷ past)) }
    ensures printed { IfOk result (λ shown. (text : List ℕ)
        × Prints W.contents printer.old printer.new text
        × IsAnsweredFewest text shown.rows shown.cost
        × ((past : List Step) → Represents core.old past → Certifies past core.new.rows text)) }
    ensures only { (past : List Step) → Represents core.old past
        → IfErr result (λ stopped. stopped ≡ Stopped.Refused 15) }
{
    let report = core.vacuum()?;
    let rows = core.rows_to(report.floor)?;
    let (points, witnesses) = (report.points.as_slice(), report.witnesses.as_slice());
    let shown = put_checked(printer, points, rows.as_slice(), witnesses)?;
    Ok(shown)
}

/// Prints a certificate, unless its witnesses do not show that the rows are the fewest.
fn put_checked<W: Write>(
    printer: &mut Printer<'_, W>,
    points: &[Stamp],
    rows: &[Row],
    witnesses: &[Witness],
) -> Result<Shown, NotShown>
    ensures printed { IfOk result (λ _. Prints W.contents printer.old printer.new
        (certificate_text points.now rows.now witnesses.now)) }
    ensures answered { IfOk result (λ shown.
        IsAnsweredFewest (certificate_text points.now rows.now witnesses.now)
        shown.rows shown.cost) }
    ensures only { IsCertificate rows.now points.now witnesses.now → IsOk result }
{
    let shown = check(rows, points, witnesses)?;
    put_certificate(printer, points, rows, witnesses);
    printed_certificates_show_fewest();
    Ok(shown)
}
