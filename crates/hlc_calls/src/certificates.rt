//! The certificate of the rows up to a stamp, as text that is made and checked.
ghost use Rattle.std.specs.Prelude.{◌≡◌, List, IfSome, OnErr, MatchResult};
ghost use Rattle.hlc_rows.specs.declared.row.Row.{Row as ARow};
ghost use Rattle.hlc_core.specs.{Past.Step, Calls.AreRowsTo, StoreView.Represents};
ghost use Rattle.hlc_text.specs.Lines.{lines_of};
ghost use Rattle.hlc_certificate.specs.{CertificateText.certificate_text, CheckLine.AreLinesOf};
ghost use Rattle.hlc_calls.specs.{Certified.ReturnsCertificate, Certified.ReturnsNoCertificate, Check.ReturnsCheck};

use crate::codes;
use crate::outputs::narrow;
use hlc_certificate::{CheckEnd, check_input, put_certificate};
use hlc_core::{Core, Report, Stamp};
use hlc_text::printer::Printer;
use hlc_text::watched::Watched;
use std::alloc::Global;

/// Returns the text of the certificate of the rows up to a stamp, with the points and the changes of a report, or none
/// where it runs out of memory.
fn text_of(alloc: Global, core: &Core, at: Stamp, report: &Report) -> Option<Box<Vec<u8>>>
    ensures { IfSome result (λ text. (rows : List ARow) × AreRowsTo core.now.rows at rows
        × AreLinesOf report.now.points rows report.now.witnesses (lines_of text.value.items)
        × (text.value.items ≡ certificate_text report.now.points rows report.now.witnesses)) }
{
    let rows = core.rows_to(at).ok()?;
    let (points, witnesses) = (report.points.as_slice(), report.witnesses.as_slice());
    let mut writer = Watched::new(Vec::new(alloc));
    let mut printer = Printer::new(&mut writer);
    put_certificate(&mut printer, points, rows.as_slice(), witnesses);
    printer.finish();
    if writer.failed() {
        return None;
    }
    Box::new(alloc, writer.into_inner()).ok()
}

/// Returns the text of the certificate of the rows at or below a stamp, and writes how many they are and what they cost
/// in bytes; or 8, 9, 109 or 15, and writes its word.
pub fn certify(
    alloc: Global,
    core: &Core,
    at: Stamp,
    word: &mut u64,
    kept: &mut u64,
    bytes: &mut u64,
) -> Result<Box<Vec<u8>>, u32>
    ensures answer { (past : List Step) → Represents core.now past → MatchResult result
        (λ text. ReturnsCertificate core.now at past word.new kept.new bytes.new text.value.items)
        (λ code. ReturnsNoCertificate core.now at past code word.new) }
    ensures nothing { OnErr result ((kept.new ≡ 0) × (bytes.new ≡ 0)) }
{
    *word = 0;
    *kept = 0;
    *bytes = 0;
    let report = match core.certificate(at) {
        Ok(report) => report,
        Err(fault) => return Err(codes::refuse_certificate(&fault, word)),
    };
    match text_of(alloc, core, at, &report) {
        Some(text) => {
            *kept = report.kept;
            *bytes = narrow(report.bytes);
            Ok(text)
        }
        None => Err(15),
    }
}

/// Checks the text of a certificate, however long it is. Returns 0, how many rows it shows to be the fewest, and their
/// cost in bytes; or 22 and the number of the first reason against it, 16 and the number of the first bad line, or 15.
pub fn check(alloc: Global, text: &[u8], rows: &mut u64, bytes: &mut u64, word: &mut u64) -> u32
    ensures { ReturnsCheck text.now result rows.new bytes.new word.new }
{
    *rows = 0;
    *bytes = 0;
    *word = 0;
    match check_input(alloc, text) {
        CheckEnd::Fewest { count, bytes: cost } => {
            *rows = count;
            *bytes = narrow(cost);
            0
        }
        CheckEnd::NotShown(reason) => {
            *word = reason.reason() as u64;
            22
        }
        CheckEnd::BadLine(number) => {
            *word = number;
            16
        }
        CheckEnd::NoMemory => 15,
        CheckEnd::NotLoaded(_) | CheckEnd::WriteFault => unreachable!(),
    }
}
