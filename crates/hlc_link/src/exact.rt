//! `==` of these types is true exactly on equal values, and each copy is equal.
ghost use Rattle.hlc_node.specs.contracts.exact.ItemExact.TheImpl.Laws.{equal-law as item_equal};
ghost use Rattle.std.proofs.{Common.rules, lemmas.Grind.common_steps};

use crate::ends::{LinkClosed, PutFault};
use crate::rule::Parcel;
use hlc_values::Exact;

impl Exact for PutFault {
    ghost equal = { Prim.search (rules, common_steps) };

    ghost copied = { Prim.search rules };
}

impl Exact for LinkClosed {
    ghost equal = { Prim.search (rules, common_steps) };

    ghost copied = { Prim.search rules };
}

impl Exact for Parcel {
    ghost equal = { Prim.search (rules, common_steps, item_equal) };

    ghost copied = { Prim.search rules };
}
