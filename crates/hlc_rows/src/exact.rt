//! `==` of these types is true exactly on equal values, and each copy is equal.
ghost use Rattle.std.proofs.{Common.rules, lemmas.Grind.common_steps};

use crate::limits::BodyFault;
use crate::row::Row;
use crate::write::Write;
use hlc_values::Exact;

impl Exact for BodyFault {
    ghost equal = { Prim.search (rules, common_steps) };

    ghost copied = { Prim.search rules };
}

impl Exact for Row {
    ghost equal = { Prim.search (rules, common_steps) };

    ghost copied = { Prim.search rules };
}

impl Exact for Write {
    ghost equal = { Prim.search (rules, common_steps) };

    ghost copied = { Prim.search rules };
}
