//! `==` of these types is true exactly on equal values, and each copy is equal.
ghost use Rattle.std.proofs.{Common.rules, lemmas.Grind.common_steps};

use crate::fault::{DecodeError, EncodeError, WireFault};
use hlc_values::Exact;

impl Exact for WireFault {
    ghost equal = { Prim.search (rules, common_steps) };

    ghost copied = { Prim.search rules };
}

impl Exact for DecodeError {
    ghost equal = { Prim.search (rules, common_steps) };

    ghost copied = { Prim.search rules };
}

impl Exact for EncodeError {
    ghost equal = { Prim.search (rules, common_steps) };

    ghost copied = { Prim.search rules };
}
