//! `==` of these types is true exactly on equal values, and each copy is equal.
ghost use Rattle.std.{proofs.Common.rules, proofs.lemmas.Grind.common_steps, specs.Cmp.Lexicographic.pointwise_decides};
ghost use Rattle.std.specs.Prelude.{◌≡◌, ◌↔◌, IsTrue, List};
ghost use Rattle.hlc_rows.specs.contracts.exact.WriteExact.TheImpl.Laws.{equal-law as write_equal};
ghost use Rattle.hlc_rows.specs.declared.write.Write.{Write as AWrite};

use crate::item::{Body, Item, Message};
use crate::node::{NodeCore, NodeFault};
use hlc_rows::Write;
use hlc_values::{Exact, Listed};

impl Exact for Body {
    ghost equal = { let writes : (x y : List AWrite) → IsTrue (⟦<Listed<Write> as PartialEq>⟧.eq x y) ↔ (x ≡ y)
        = pointwise_decides write_equal in
        Prim.search (rules, common_steps, writes) };

    ghost copied = { Prim.search rules };
}

impl Exact for Item {
    ghost equal = { let writes : (x y : List AWrite) → IsTrue (⟦<Listed<Write> as PartialEq>⟧.eq x y) ↔ (x ≡ y)
        = pointwise_decides write_equal in
        Prim.search (rules, common_steps, writes) };

    ghost copied = { Prim.search rules };
}

impl Exact for Message {
    ghost equal = { Prim.search (rules, common_steps) };

    ghost copied = { Prim.search rules };
}

impl Exact for NodeFault {
    ghost equal = { Prim.search (rules, common_steps) };

    ghost copied = { Prim.search rules };
}

impl Exact for NodeCore {
    ghost equal = { Prim.search (rules, common_steps) };

    ghost copied = { Prim.search rules };
}
