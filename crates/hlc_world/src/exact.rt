//! `==` of these types is true exactly on equal values, and each copy is equal.
ghost use Rattle.hlc_core.specs.contracts.exact.PairExact.TheImpl.Laws.{equal-law as pair_equal};
ghost use Rattle.hlc_core.specs.declared.listing.Pair.{Pair as APair};
ghost use Rattle.hlc_vacuum_draft.specs.contracts.exact.ReportExact.TheImpl.Laws.{equal-law as report_equal};
ghost use Rattle.hlc_vacuum_draft.specs.declared.report.Report.{Report as AReport};
ghost use Rattle.std.proofs.{Common.rules, Common.subst, lemmas.Grind.common_steps};
ghost use Rattle.std.specs.Cmp.Lexicographic.{pointwise_decides};
ghost use Rattle.std.specs.Prelude.{IsTrue, ◌≡◌, ◌↔◌, List};

use crate::refusal::Refusal;
use crate::reply::Reply;
use hlc_core::{Listing, Report};
use hlc_values::Exact;

impl Exact for Refusal {
    ghost equal = { Prim.search (rules, common_steps) };

    ghost copied = { Prim.search rules };
}

impl Exact for Reply {
    // Equal replies are one reply, so that way only asks whether each is equal to itself.
    ghost equal = { let listings : (x y : List APair) → IsTrue (⟦<Listing as PartialEq>⟧.eq x y) ↔ (x ≡ y)
        = pointwise_decides pair_equal in
        let reports : (x y : AReport) → IsTrue (⟦<Report as PartialEq>⟧.eq x y) ↔ (x ≡ y)
        = report_equal in
        λ x y. (
          Prim.search (rules, common_steps, listings, reports),
          λ same. subst (λ z. IsTrue (⟦<Reply as PartialEq>⟧.eq x z)) same
              (Prim.search (rules, common_steps, listings, reports)),
        ) };

    ghost copied = { λ value copy same. same };
}
