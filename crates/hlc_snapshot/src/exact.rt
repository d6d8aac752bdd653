//! `==` of these types is true exactly on equal values, and each copy is equal.
ghost use Rattle.std.proofs.{Common.rules, lemmas.Grind.common_steps};

use crate::fault::{NoSnapshot, SnapshotFault};
use crate::snapshot::Snapshot;
use hlc_values::Exact;

impl Exact for SnapshotFault {
    ghost equal = { Prim.search (rules, common_steps) };

    ghost copied = { Prim.search rules };
}

impl Exact for NoSnapshot {
    ghost equal = { Prim.search (rules, common_steps) };

    ghost copied = { Prim.search rules };
}

impl Exact for Snapshot {
    ghost equal = { Prim.search (rules, common_steps) };

    ghost copied = { Prim.search rules };
}
