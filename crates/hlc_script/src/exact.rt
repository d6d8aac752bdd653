//! `==` of these types is true exactly on equal values, and each copy is equal.
ghost use Rattle.std.proofs.{Common.rules, lemmas.Grind.common_steps};

use crate::run::RunEnd;
use hlc_values::Exact;

impl Exact for RunEnd {
    ghost equal = { Prim.search (rules, common_steps) };

    ghost copied = { Prim.search rules };
}
