//! `==` of these types is true exactly on equal values, and each copy is equal.
ghost use Rattle.std.{proofs.Common.rules, proofs.lemmas.Grind.common_steps, specs.Cmp.Rules.comparing};

use crate::clock::{Clock, ClockFault};
use crate::stamp::{ReadingTooLarge, Stamp};
use hlc_values::Exact;

impl Exact for ClockFault {
    ghost equal = { Prim.search (rules, common_steps) };

    ghost copied = { Prim.search rules };
}

impl Exact for Clock {
    ghost equal = { Prim.search (rules, common_steps) };

    ghost copied = { Prim.search rules };
}

impl Exact for ReadingTooLarge {
    ghost equal = { Prim.search (comparing, rules) };

    ghost copied = { Prim.search rules };
}

impl Exact for Stamp {
    ghost equal = { Prim.search (comparing, rules) };

    ghost copied = { λ stamp copy same. same };
}
