//! The replies of a store to events.
ghost use Rattle.std.specs.Prelude.{◌≡◌, ◌↔◌, IsTrue, List};
ghost use Rattle.std.{specs.Cmp.Lexicographic.pointwise_decides, proofs.Common.rules, proofs.lemmas.Grind.common_steps};
ghost use Rattle.hlc_vacuum_draft.specs.declared.report.Report.{Report as AReport};
ghost use Rattle.hlc_vacuum_draft.specs.contracts.exact.ReportExact.TheImpl.Laws.{equal-law as report_equal};
ghost use Rattle.hlc_core.specs.{declared.listing.Pair.Pair as APair, History.IsPlain};
ghost use Rattle.hlc_core.specs.contracts.exact.PairExact.TheImpl.Laws.{equal-law as pair_equal};

use crate::listing::Listing;
use hlc_clock::Stamp;
use hlc_events::CoreFault;
use hlc_heads::Accepted;
use hlc_node::Bytes;
use hlc_vacuum::BoxedReport;
use hlc_values::{Exact, NoMemory};

/// The reply of a store to an event.
#[derive(PartialEq, Eq, Debug, Drop)]
pub enum CoreReply {
    /// The item was accepted.
    Accepted(Accepted),
    /// The node with this number joined, and its clock starts at this stamp.
    Joined {
        node: u16,
        start: Stamp,
    },
    /// The snapshot with this id was opened, at this stamp.
    Opened {
        id: u64,
        stamp: Stamp,
    },
    /// The value of the key, or none.
    Answer(Option<Bytes>),
    /// All keys that have a value, in byte order, with their values.
    Listing(Listing),
    /// The snapshot was closed; this was its stamp.
    Closed(Stamp),
    /// The vacuum took place; this is its report, in a block of its own, so that all replies are small.
    Vacuumed(BoxedReport),
    /// The part of a vacuum took place; this is its report, and the last of its keys, above which the next part begins,
    /// or none, only where no key is left.
    VacuumedPart {
        report: BoxedReport,
        end: Option<Bytes>,
    },
    /// The event did not take place.
    Refused(CoreFault),
}

impl Clone for CoreReply {
    ghost is_clone = { λ reply copy. copy ≡ reply };

    ghost is_infallible = { λ reply. IsPlain reply };

    /// Copies the reply. Only a value, a listing and a report need memory.
    fn clone(&self) -> Result<CoreReply, NoMemory> {
        match self {
            CoreReply::Accepted(accepted) => Ok(CoreReply::Accepted(*accepted)),
            CoreReply::Joined { node, start } => Ok(CoreReply::Joined {
                node: *node,
                start: *start,
            }),
            CoreReply::Opened { id, stamp } => Ok(CoreReply::Opened {
                id: *id,
                stamp: *stamp,
            }),
            CoreReply::Answer(None) => Ok(CoreReply::Answer(None)),
            CoreReply::Answer(Some(value)) => Ok(CoreReply::Answer(Some(value.clone()?))),
            CoreReply::Listing(pairs) => Ok(CoreReply::Listing(pairs.clone()?)),
            CoreReply::Closed(stamp) => Ok(CoreReply::Closed(*stamp)),
            CoreReply::Vacuumed(report) => Ok(CoreReply::Vacuumed(report.clone()?)),
            CoreReply::VacuumedPart { report, end } => Ok(CoreReply::VacuumedPart {
                report: report.clone()?,
                end: end.clone()?,
            }),
            CoreReply::Refused(fault) => Ok(CoreReply::Refused(*fault)),
        }
    }
}

impl Exact for CoreReply {
    ghost equal = { let listings : (x y : List APair) → IsTrue (⟦<Listing as PartialEq>⟧.eq x y) ↔ (x ≡ y)
        = pointwise_decides pair_equal in
        let reports : (x y : AReport) → IsTrue (⟦<BoxedReport as PartialEq>⟧.eq x y) ↔ (x ≡ y)
        = report_equal in
        Prim.search (rules, common_steps, listings, reports) };

    ghost copied = { Prim.search rules };
}
