//! Where the changes go that a draft finds.
ghost use Rattle.std.specs.Prelude.{◌≡◌, ◌++◌, ◌∷◌, [], List, OnOk};
ghost use Rattle.std.proofs.{lemmas.List.append-nil, lemmas.List.append_assoc, Common.sym, Common.ap, Common.◌∙◌};
ghost use Rattle.hlc_witness.specs.declared.witness.Witness.{Witness as AWitness};

use hlc_clock::Stamp;
use hlc_rows::Bytes;
use hlc_values::NoMemory;
use hlc_witness::Witness;
use std::alloc::Global;

/// Takes the changes that a draft finds, in order. A list of them is for a report; `Unlisted` is for its numbers alone.
pub trait Changes {
    /// These changes were added.
    ghost adds: { Self → List AWitness → Self → Type 0 };

    /// Takes the next change: of this key, at this point, after the point before.
    fn note(
        &mut self,
        alloc: Global,
        key: &[u8],
        before: Option<Stamp>,
        at: Stamp,
    ) -> Result<(), NoMemory>
        ensures { OnOk result (adds self.old
            (record { key = key.now; before = before; at = at } ∷ []) self.new) };

    ghost none_added: { (changes : Self) → adds changes [] changes };

    ghost both_added: { (old between new : Self) (first second : List AWitness)
        → adds old first between → adds between second new → adds old (first ++ second) new };
}

impl Changes for Vec<Witness> {
    ghost adds = { λ old found new. new.items ≡ old.items ++ found };

    fn note(
        &mut self,
        alloc: Global,
        key: &[u8],
        before: Option<Stamp>,
        at: Stamp,
    ) -> Result<(), NoMemory> {
        let key = Bytes::from_slice(alloc, key)?;
        self.push(Witness { key, before, at })?;
        Ok(())
    }

    ghost none_added = { λ changes. sym (append-nil changes.items) };

    ghost both_added = { λ old between new first second one two.
        two ∙ ap (λ items. items ++ second) one ∙ append_assoc old.items first second };
}

/// Lists no change, and needs no memory.
#[derive(Clone, Copy, PartialEq, Eq, Debug)]
pub struct Unlisted;

impl Changes for Unlisted {
    ghost adds = { λ old found new. Unit {0} };

    fn note(
        &mut self,
        _alloc: Global,
        _key: &[u8],
        _before: Option<Stamp>,
        _at: Stamp,
    ) -> Result<(), NoMemory> {
        Ok(())
    }

    ghost none_added = { λ changes. tt };

    ghost both_added = { λ old between new first second one two. tt };
}
