//! `==` of these types is true exactly on equal values, and each copy is equal.
ghost use Rattle.hlc_clock.specs.contracts.exact.StampExact.TheImpl.Laws.{equal-law as stamp_equal};
ghost use Rattle.hlc_witness.specs.contracts.exact.WitnessExact.TheImpl.Laws.{equal-law as witness_equal};
ghost use Rattle.hlc_witness.specs.declared.witness.Witness.{Witness as AWitness};
ghost use Rattle.std.{proofs.Common.rules, proofs.lemmas.Grind.common_steps, specs.Cmp.Lexicographic.pointwise_decides};
ghost use Rattle.std.specs.Prelude.{ℕ, ◌≡◌, ◌↔◌, IsTrue, List};

use crate::changes::Unlisted;
use crate::points::Points;
use crate::report::{Numbers, Report};
use crate::witnesses::Witnesses;
use hlc_values::Exact;

impl Exact for Report {
    ghost equal = { let points : (x y : List ℕ) → IsTrue (⟦<Points as PartialEq>⟧.eq x y) ↔ (x ≡ y)
        = pointwise_decides stamp_equal in
        let witnesses : (x y : List AWitness) → IsTrue (⟦<Witnesses as PartialEq>⟧.eq x y) ↔ (x ≡ y)
        = pointwise_decides witness_equal in
        Prim.search (rules, common_steps, points, witnesses) };

    ghost copied = { Prim.search rules };
}

impl Exact for Numbers {
    ghost equal = { Prim.search (rules, common_steps) };

    ghost copied = { Prim.search rules };
}

impl Exact for Unlisted {
    ghost equal = { Prim.search (rules, common_steps) };

    ghost copied = { Prim.search rules };
}
