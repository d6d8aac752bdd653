//! `==` of sizes is true exactly on equal ones, and each copy is equal.
ghost use Rattle.std.proofs.{Common.rules, lemmas.Grind.common_steps};

use crate::sizes::Sizes;
use hlc_values::Exact;

impl Exact for Sizes {
    ghost equal = { Prim.search (rules, common_steps) };

    ghost copied = { Prim.search rules };
}
