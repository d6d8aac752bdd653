//! The points, rows and witnesses that an input contains.
ghost use Rattle.std.specs.Prelude.{◌≡◌, ◌≤◌, [], IfOk, IfErr, IfSome, OnOk, IsSomeAnd};
ghost use Rattle.hlc_text.specs.{Text.Reads, Lines.lines_of};
ghost use Rattle.hlc_certificate.specs.CheckLine.{check_line, HasCheckLine, section_of, AreLinesOf};
ghost use Rattle.hlc_certificate.specs.CheckLists.{HasLists, AddsLine, IsNoCertificate};

use crate::check_line::{CheckLine, read_check_line};
use hlc_clock::Stamp;
use hlc_rows::{Bytes, Row};
use hlc_text::bytes::Spelled;
use hlc_text::input::first_line;
use hlc_values::NoMemory;
use hlc_witness::Witness;
use std::alloc::Global;

/// What the lines of an input say, in their order.
#[derive(Drop)]
pub(crate) struct Certificate {
    pub(crate) points: Vec<Stamp>,
    pub(crate) rows: Vec<Row>,
    pub(crate) witnesses: Vec<Witness>,
}

/// Why an input yields no lists.
#[derive(Clone, Copy, Debug, PartialEq, Eq)]
pub(crate) enum NoCertificate {
    /// The line of this number is the first bad one.
    BadLine(u64),
    /// No line is bad, but it ran out of memory for the lists.
    NoMemory,
}

impl Certificate {
    /// Returns three empty lists.
    fn new(alloc: Global) -> Certificate
        ensures { HasLists result [] [] [] }
    {
        Certificate {
            points: Vec::new(alloc),
            rows: Vec::new(alloc),
            witnesses: Vec::new(alloc),
        }
    }

    /// Adds what a line says, with a copy of its bytes.
    fn add(&mut self, alloc: Global, line: &CheckLine<'_>) -> Result<(), NoMemory>
        ensures { OnOk result (AddsLine self.old self.new line.now) }
    {
        match line {
            CheckLine::Point(stamp) => self.points.push(*stamp)?,
            CheckLine::Row {
                key,
                stamp,
                node,
                value,
            } => self.rows.push(Row {
                key: key.to_bytes(alloc)?,
                stamp: *stamp,
                node: *node,
                value: to_value(alloc, value)?,
            })?,
            CheckLine::Witness { key, before, at } => self.witnesses.push(Witness {
                key: key.to_bytes(alloc)?,
                before: *before,
                at: *at,
            })?,
        }
        Ok(())
    }
}

/// Returns a copy of the value.
fn to_value(alloc: Global, value: &Option<Spelled<'_>>) -> Result<Option<Bytes>, NoMemory>
    ensures { IfOk result (λ copy. copy ≡ value.now) }
{
    match value {
        None => Ok(None),
        Some(bytes) => Ok(Some(bytes.to_bytes(alloc)?)),
    }
}

/// Returns what the lines say, or why they yield no lists. A bad line is found even if memory ran out before it.
pub(crate) fn read_certificate(alloc: Global, text: &[u8]) -> Result<Certificate, NoCertificate>
    ensures ok { IfOk result
        (λ certificate. AreLinesOf certificate.points.items certificate.rows.items
        certificate.witnesses.items (lines_of text.now)) }
    ensures err { IfErr result (IsNoCertificate (lines_of text.now)) }
{
    let mut kept = Some(Certificate::new(alloc));
    let mut rest = text;
    let mut number = 1u64;
    let mut section = 0u8;
    while !rest.is_empty() {
        let (line, after) = first_line(rest);
        let Some(says) = read_from(section, line) else {
            return Err(NoCertificate::BadLine(number));
        };
        kept = with_line(alloc, kept, &says);
        section = says.section();
        rest = after;
        number += 1;
    }
    match kept {
        Some(certificate) => Ok(certificate),
        None => Err(NoCertificate::NoMemory),
    }
}

/// Returns what a line says, or none where it is no line of this section or a later one.
fn read_from(section: u8, line: &[u8]) -> Option<CheckLine<'_>>
    ensures { Reads check_line (λ says. HasCheckLine says × (section ≤ section_of says)) line.now
        result }
{
    let says = read_check_line(line)?;
    if says.section() < section {
        return None;
    }
    Some(says)
}

/// Returns the lists with what one more line says, or none where memory ran out for it or before it.
fn with_line(alloc: Global, kept: Option<Certificate>, line: &CheckLine<'_>) -> Option<Certificate>
    ensures { IfSome result (λ new. IsSomeAnd kept (λ old. AddsLine old new line.now)) }
{
    let mut certificate = kept?;
    match certificate.add(alloc, line) {
        Ok(()) => Some(certificate),
        Err(_) => None,
    }
}
