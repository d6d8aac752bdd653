//! Two plans of a storm are equal exactly where all their sizes are.
ghost use Rattle.std.proofs.lemmas.{Grind.common_steps, Bool.Decides.Decides-and, Bool.Decides.Decides-eqb};
ghost use Rattle.std.proofs.Common.{rules, ap};
ghost use Rattle.hlc_words.specs.Plan.{same_plan};

use crate::plan::StormPlan;
use crate::words::BadWords;
use hlc_values::Exact;

impl Exact for StormPlan {
    ghost equal = { λ a b. let read = Decides-and _ _ (Decides-eqb a.keys b.keys) (Decides-eqb a.readers b.readers) in
        let written = Decides-and _ _ (Decides-eqb a.writes b.writes) read in
        let parts = Decides-and _ _ (Decides-eqb a.nodes b.nodes) written in (
          λ same. let is = parts.0 same in
              same_plan a b is.0 is.1.0 is.1.1.0 is.1.1.1,
          λ is. parts.1 (ap (λ p. p.nodes) is, (ap (λ p. p.writes) is, (ap (λ p. p.keys) is, ap (λ p. p.readers) is))),
        ) };

    ghost copied = { Prim.search rules };
}

impl Exact for BadWords {
    ghost equal = { Prim.search (rules, common_steps) };

    ghost copied = { Prim.search rules };
}
