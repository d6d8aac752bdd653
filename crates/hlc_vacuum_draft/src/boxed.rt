//! Reports in a block of memory of their own.
ghost use Rattle.std.specs.Prelude.{◌≡◌, IfOk};
ghost use Rattle.hlc_vacuum_draft.specs.Report.{blank_report};
ghost use Rattle.hlc_vacuum_draft.specs.contracts.report.ReportPartialEq.TheImpl.Laws.{laws-law as report_partial_eq};
ghost use Rattle.hlc_vacuum_draft.specs.contracts.report.ReportEq.TheImpl.Laws.{laws-law as report_eq};
ghost use Rattle.hlc_vacuum_draft.specs.contracts.exact.ReportExact.TheImpl.Laws.{equal-law as report_equal};

use crate::points::Points;
use crate::report::Report;
use crate::witnesses::Witnesses;
use hlc_clock::Stamp;
use hlc_values::{Exact, NoMemory};
use std::alloc::Global;
use std::marker::Model;

/// A report in a block of memory of its own, so that a value with a field of this type is small. In
/// contracts it is the report.
#[derive(Debug, Drop)]
pub struct BoxedReport {
    block: Box<Report>,
}

impl Model for BoxedReport {
    ghost use Rattle.hlc_vacuum_draft.specs.declared.report.Report.{Report as AReport};

    ghost Value = { AReport };

    ghost view = { λ boxed. boxed.block.value };
}

impl BoxedReport {
    /// Returns a block with a blank report, for a report that is still to be made. So the memory can be allocated
    /// before anything changes.
    pub fn blank(alloc: Global) -> Result<BoxedReport, NoMemory>
        ensures { IfOk result (λ boxed. boxed ≡ blank_report) }
    {
        let report = Report {
            floor: Stamp::ZERO,
            points: Points::from_vec(Vec::new(alloc)),
            kept: 0,
            bytes: 0,
            dropped: 0,
            witnesses: Witnesses::from_vec(Vec::new(alloc)),
        };
        let block = Box::new(alloc, report)?;
        Ok(BoxedReport { block })
    }

    /// Replaces the report in this block by another. It needs no memory.
    pub fn with(self, report: Report) -> BoxedReport
        ensures { result ≡ report }
    {
        let BoxedReport { mut block } = self;
        *block = report;
        BoxedReport { block }
    }

    /// Returns the report.
    pub fn get(&self) -> &Report
        ensures { result.now ≡ self.now }
    {
        &self.block
    }
}

impl Clone for BoxedReport {
    ghost is_clone = { λ boxed copy. copy ≡ boxed };

    fn clone(&self) -> Result<BoxedReport, NoMemory> {
        let report = self.get().clone()?;
        let block = Box::new(*Box::allocator(&self.block), report)?;
        Ok(BoxedReport { block })
    }
}

impl PartialEq for BoxedReport {
    ghost eq = { ⟦<Report as PartialEq>⟧.eq };

    ghost laws = { report_partial_eq };

    fn eq(&self, other: &BoxedReport) -> bool {
        self.get() == other.get()
    }
}

impl Eq for BoxedReport {
    ghost laws = { report_eq };
}

impl Exact for BoxedReport {
    ghost equal = { report_equal };

    ghost copied = { λ boxed copy same. same };
}
