//! `==` of bytes is true exactly on equal values, and each copy is equal.
ghost use Rattle.std.{proofs.Common.rules, specs.Cmp.Lexicographic.pointwise_decides, specs.Cmp.Rules.comparing};

use crate::bytes::Bytes;
use hlc_values::Exact;

impl Exact for Bytes {
    ghost equal = { pointwise_decides (Prim.search (comparing, rules)) };

    ghost copied = { λ bytes copy same. same };
}
