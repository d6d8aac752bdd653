//! `==` of these types is true exactly on equal values, and each copy is equal.
ghost use Rattle.std.proofs.{Common.rules, lemmas.Grind.common_steps};

use crate::reason::NotShown;
use crate::shown::Shown;
use crate::witness::Witness;
use hlc_values::Exact;

impl Exact for NotShown {
    ghost equal = { Prim.search (rules, common_steps) };

    ghost copied = { Prim.search rules };
}

impl Exact for Shown {
    ghost equal = { Prim.search (rules, common_steps) };

    ghost copied = { Prim.search rules };
}

impl Exact for Witness {
    ghost equal = { Prim.search (rules, common_steps) };

    ghost copied = { Prim.search rules };
}
