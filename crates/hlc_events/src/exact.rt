//! `==` of these types is true exactly on equal values, and each copy is equal.
ghost use Rattle.hlc_node.specs.contracts.exact.ItemExact.TheImpl.Laws.{equal-law as item_equal};
ghost use Rattle.std.proofs.{Common.rules, lemmas.Grind.common_steps};

use crate::certificate_fault::CertificateFault;
use crate::event::CoreEvent;
use crate::fault::{CoreFault, NoNode};
use hlc_values::Exact;

impl Exact for CoreEvent {
    ghost equal = { Prim.search (rules, common_steps, item_equal) };

    ghost copied = { Prim.search rules };
}

impl Exact for CoreFault {
    ghost equal = { Prim.search (rules, common_steps) };

    ghost copied = { Prim.search rules };
}

impl Exact for NoNode {
    ghost equal = { Prim.search (rules, common_steps) };

    ghost copied = { Prim.search rules };
}

impl Exact for CertificateFault {
    ghost equal = { Prim.search (rules, common_steps) };

    ghost copied = { Prim.search rules };
}
