//! Values whose equality and copies are exactly what contracts see.
ghost use Rattle.std.specs.{Prelude.◌≡◌, Prelude.◌↔◌, Prelude.IsTrue, Cmp.Rules.comparing};
ghost use Rattle.std.proofs.Common.{rules};

/// Values where `==` returns true exactly on equal ones, and where each copy is equal to its
/// original.
///
/// Equal means equal in contracts: what a contract says of one is true of the other. A type that
/// derives `PartialEq` and `Clone` still needs an impl of this trait, since neither derive promises
/// it.
pub trait Exact: PartialEq + Clone {
    ghost equal: { (a b : Self) → IsTrue (Self.eq a b) ↔ (a ≡ b) };

    ghost copied: { (value copy : Self) → Self.is_clone value copy → copy ≡ value };
}

impl Exact for u8 {
    ghost equal = { Prim.search (comparing, rules) };

    ghost copied = { λ value copy same. same };
}
