//! `==` of events is true exactly on equal values, and each copy is equal.
ghost use Rattle.std.proofs.{Common.rules, Common.subst, lemmas.Grind.common_steps};
ghost use Rattle.std.specs.Prelude.{IsTrue, ◌≡◌};

use crate::event::Event;
use hlc_bytes::Bytes;
use hlc_values::Exact;

impl Exact for Event<Bytes> {
    // Equal events are one event, so that way only asks whether each is equal to itself.
    ghost equal = { λ x y. (
      Prim.search (rules, common_steps),
      λ same. subst (λ z. IsTrue (⟦<Event<Bytes> as PartialEq>⟧.eq x z)) same (Prim.search (rules, common_steps)),
    ) };

    ghost copied = { λ value copy same. same };
}
